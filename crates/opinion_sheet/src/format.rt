// The format's numbers, as specs/Format.antt has them, and the readers of the header's fields.
ghost use Rattle.std.specs.Prelude.{◌≡◌, ◌≤◌, ◌<◌, length};
ghost use Rattle.fields.specs.Fields.{Is16};
ghost use Rattle.opinion_sheet.specs.Format.{header_length, has_letters, event_count, expert_count};

use fields::fields::{byte_at, field16_at};

// The lengths of the header and of an entry.
pub const HEADER_LENGTH: usize = 26;

pub const ENTRY_LENGTH: usize = 17;

// Where the header's fields stand.
pub const LETTERS_PLACE: usize = 0;

pub const VERSION_PLACE: usize = 3;

pub const NUMBER_PLACE: usize = 5;

pub const EVENTS_PLACE: usize = 7;

pub const EXPERTS_PLACE: usize = 9;

pub const SCORES_PLACE: usize = 10;

// The version that is read; the most events; the most experts, each of whom has a score byte and a term byte.
pub const VERSION: usize = 1;

pub const MAX_EVENTS: usize = 1024;

pub const EXPERT_PLACES: usize = 16;

// The highest score and the highest term code.
pub const MAX_SCORE: usize = 100;

pub const MAX_TERM: usize = 7;

// The highest denominator of fractions.
pub const MAX_DENOMINATOR: u64 = 1_000_000;

// Whether the file begins with FTS.
pub fn has_letters(file: &[u8]) -> bool
    ensures { result ≡ has_letters file.now }
{
    file.starts_with(b"FTS")
}

// Seven functions ask for a header, two here and those of scores.rt and opinions.rt: a type for it would be made at
// each call, and is no shorter.

// E, the number of basic events: no `u16`, as fields reads it, since it is a count where it is used.
pub fn event_count(file: &[u8]) -> usize
    requires { header_length ≤ length file.now }
    ensures { Is16 result (event_count file.now) }
{
    field16_at(file, EVENTS_PLACE)
}

// The number of experts.
pub fn expert_count(file: &[u8]) -> usize
    requires { header_length ≤ length file.now }
    ensures { (result ≡ expert_count file.now) × (result < 256) }
{
    byte_at(file, EXPERTS_PLACE)
}
