// The entries: what each holds.
ghost use Rattle.std.specs.Prelude.{◌≡◌, ◌+◌, ◌≤◌, length};
ghost use Rattle.opinion_sheet.specs.Format.{entry_at, entry_length};
ghost use Rattle.opinion_sheet.specs.Entries.{entry_of};

use crate::fractions::Fractions;
use crate::kind::EntryKind;
use crate::numbers::Numbers;
use crate::place::EntryPlace;

// An entry as read: its four numbers, the offset of its terms, or its fractions.
#[derive(Clone, Copy)]
pub enum Entry {
    Numbers(Numbers<u32>),
    Opinions(usize),
    Fractions(Fractions),
}

// The entry of an event, in a well-formed file, which has no other kind than the three.
pub fn read_entry(file: &[u8], event: usize) -> Entry
    requires { entry_at file.now event + entry_length file.now ≤ length file.now }
    ensures { result ≡ entry_of file.now event }
{
    let place = EntryPlace::of_event(file, event);
    match place.kind() {
        Ok(EntryKind::Numbers) => Entry::Numbers(place.read_numbers()),
        Ok(EntryKind::Opinions) => Entry::Opinions(place.at + 1),
        _ => Entry::Fractions(place.read_fractions()),
    }
}
