// The lines of the text.
ghost use Rattle.std.specs.Prelude.{◌≡◌, ◌+◌, ◌≤◌, ◌++◌, length};
ghost use Rattle.level_text.specs.Line.{header_line, input_line, level_line, most_header, most_line, refusal_line};
ghost use Rattle.level_text.specs.Room.{most_text};

use crate::draft::Draft;
use refusals::refusal::Refusal;
use rounding::end::Enclosure;

#[tactic(auto, using(crate::proofs::Digits::lengths))]
impl Draft {
    // Makes the text the line for an input whose lengths are not those of two files.
    pub fn put_input(&mut self)
        ensures { self.new ≡ input_line }
    {
        self.clear();
        self.put("input\n");
    }

    // Makes the text the line of a refusal.
    pub fn put_refusal(&mut self, refusal: Refusal)
        ensures { self.new ≡ refusal_line refusal }
    {
        self.clear();
        self.put("refused ");
        self.put_number(refusal.rule.number());
        self.put(" at ");
        self.put_number(refusal.place);
        self.put("\n");
    }

    // Begins the text with the header: the tree number, E and n.
    pub fn put_header(&mut self, number: usize, events: usize, n: u32)
        ensures line { self.new ≡ header_line number events n }
        ensures upper_bound { length self.new ≤ most_header }
    {
        self.clear();
        self.put("tree ");
        self.put_number(number);
        self.put(" events ");
        self.put_number(events);
        self.put(" levels ");
        self.put_number(n as usize);
        self.put("\n");
    }

    // Puts the line of level k.
    pub fn put_level(&mut self, k: u32, ends: Enclosure)
        requires { length self.old + most_line ≤ most_text }
        ensures line { self.new ≡ self.old ++ level_line k ends }
        ensures upper_bound { length self.new ≤ length self.old + most_line }
    {
        self.put_number(k as usize);
        self.put(" ");
        self.put_end(ends.lower);
        self.put(" ");
        self.put_end(ends.upper);
        self.put("\n");
    }
}
