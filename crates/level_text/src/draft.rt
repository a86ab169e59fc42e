// The text, and the parts that are put to it.
ghost use Rattle.std.specs.Prelude.{◌≡◌, ◌+◌, ◌≤◌, ◌∷◌, [], ◌++◌, length};
ghost use Rattle.level_text.specs.Decimal.{decimal};
ghost use Rattle.level_text.specs.Line.{ended, mark};
ghost use Rattle.level_text.specs.Room.{most_text, Room};

use arrayvec::ArrayString;
use itoa::Buffer;
use rounding::end::End;
use std::marker::Model;

// No text is longer, so that a buffer of this length is never too short.
pub const MOST_TEXT: usize = 37119;

// The text as far as it is put, part by part.
// Tried with `writeln!`: no contract says that it succeeds where there is room, so its `unwrap` was not proved.
#[derive(Drop)]
pub struct Draft {
    text: ArrayString<MOST_TEXT>,
}

// Clauses see the bytes that are put.
impl Model for Draft {
    ghost use Rattle.std.specs.Prelude.{List, ℕ};

    ghost Value = { List ℕ };

    ghost view = { λ d. d.text.bytes };
}

// The mark of an end.
fn mark_of(exact: bool) -> &'static str
    ensures { result.now ≡ mark exact ∷ [] }
{
    if exact { "=" } else { "~" }
}

impl Draft {
    // A draft of no text.
    pub fn new() -> Draft
        ensures { result ≡ [] }
    {
        Draft {
            text: ArrayString::new(),
        }
    }

    // The bytes that are put.
    pub fn bytes(&self) -> &[u8]
        ensures value { result.now ≡ self.now }
        ensures bound { length self.now ≤ most_text }
    {
        self.text.as_str().as_bytes()
    }

    // Takes back all that is put.
    pub fn clear(&mut self)
        ensures { self.new ≡ [] }
    {
        self.text.clear();
    }

    // Puts a text.
    pub fn put(&mut self, text: &str)
        requires { Room text.now self.old }
        ensures { self.new ≡ self.old ++ text.now }
    {
        self.text.push_str(text);
    }

    // Puts a number in decimal.
    #[tactic(auto, using(crate::proofs::Digits::decimal_written))]
    pub fn put_number(&mut self, number: usize)
        requires { Room (decimal number) self.old }
        ensures { self.new ≡ self.old ++ decimal number }
    {
        self.put(Buffer::new().format(number));
    }

    // Puts the units of an end, which have at most 10 digits, and its mark.
    #[tactic(auto, using(crate::proofs::Digits::lengths))]
    pub fn put_end(&mut self, end: End)
        requires { length self.old + 12 ≤ most_text }
        ensures text { self.new ≡ self.old ++ (ended (decimal end.value) 32 ++ mark end.exact ∷ []) }
        ensures upper_bound { length self.new ≤ length self.old + 12 }
    {
        self.put_number(end.value as usize);
        self.put(" ");
        self.put(mark_of(end.exact));
    }
}
