// The place of an entry, whose readers stand with what they read.
ghost use Rattle.std.specs.Prelude.{◌≡◌, ◌+◌, ◌≤◌, length};
ghost use Rattle.fields.specs.Fields.{byte};
ghost use Rattle.opinion_sheet.specs.Format.{entry_at, entry_length};
ghost use Rattle.opinion_sheet.specs.Entries.{kind_of};

use crate::format::{ENTRY_LENGTH, HEADER_LENGTH};
use crate::kind::EntryKind;
use fields::fields::byte_at;
use refusals::rule::Rule;

// Where an entry begins, within its file.
#[derive(Clone, Copy)]
pub struct EntryPlace<'a> {
    pub file: &'a [u8],
    pub at: usize,
    pub ghost inside: { at + entry_length file.now ≤ length file.now },
}

impl EntryPlace<'_> {
    // The place of the entry of an event. Whoever reads or judges one has a file and an event, and makes the place
    // here.
    pub fn of_event(file: &[u8], event: usize) -> EntryPlace<'_>
        requires { entry_at file.now event + entry_length file.now ≤ length file.now }
        ensures same_file { result.file.now ≡ file.now }
        ensures place { result.at ≡ entry_at file.now event }
    {
        EntryPlace {
            file,
            at: HEADER_LENGTH + ENTRY_LENGTH * event,
        }
    }

    // The kind that the entry's first byte says, or rule 6.
    pub fn kind(self) -> Result<EntryKind, Rule>
        ensures { result ≡ kind_of (byte self.entry.file.now self.entry.at) }
    {
        EntryKind::try_from(byte_at(self.file, self.at))
    }
}
