// The sheet of an hour, written to a lent buffer.
ghost use Rattle.std.specs.Prelude.{◌≡◌, ◌++◌, length, drop};
ghost use Rattle.theory.specs.Unit.{billion};
ghost use Rattle.work_book.specs.Book.{window_count};
ghost use Rattle.hour_sheet.specs.Sheet.{certain_entry, written_sheet};
ghost use Rattle.hour_sheet.specs.Writing.{EntriesInside, EntryInside, Writable, windows_written, with_certain};

use crate::hour::BookAtHour;
use fields::write::four_bytes;
use opinion_sheet::format::{ENTRY_LENGTH, HEADER_LENGTH};
use opinion_sheet::kind::EntryKind;
use rounding::unit::UNIT;
use work_book::book::{window_at, window_count};

// The number entry (U, U, U, U): its kind, and four times U. It is less than a writer of any four numbers, as
// dual_files has one, which opinion_sheet would hold for these two alone.
fn certain_entry() -> [u8; ENTRY_LENGTH]
    ensures { result ≡ certain_entry billion }
{
    let numbers = [four_bytes(UNIT as u32); 4];
    let mut entry = [0; ENTRY_LENGTH];
    entry[0] = EntryKind::Numbers as u8;
    entry[1..].copy_from_slice(numbers.as_flattened());
    entry
}

// Puts an event at four numbers U, in the sheet at the front of the buffer.
fn put_certain(event: usize, buffer: &mut [u8])
    requires { EntryInside event buffer.old }
    ensures { buffer.new ≡ with_certain billion event buffer.old }
{
    let place = HEADER_LENGTH + ENTRY_LENGTH * event;
    byte_copy::copy(&certain_entry(), &mut buffer[place..]);
}

impl BookAtHour<'_> {
    // Puts the event of each window that is open, one after the other.
    #[tactic(auto, unfolding(crate::specs::Writing::windows_written))]
    fn put_windows(self, buffer: &mut [u8])
        requires { EntriesInside self.book.now (window_count self.book.now) buffer.old }
        ensures { buffer.new
            ≡ windows_written billion self.entry.book.now self.entry.hour (window_count self.entry.book.now)
            buffer.old }
    {
        for i in 0..window_count(self.book) {
            let window = window_at(self.book, i);
            if window.is_open(self.hour) {
                put_certain(window.event, buffer);
            }
        }
    }

    // Writes the sheet of the hour to the front of the buffer: the held one, and over it each event that is out of
    // service.
    pub fn write_sheet(self, sheet: &[u8], buffer: &mut [u8])
        requires { Writable sheet.now self.book.now buffer.old }
        ensures { buffer.new ≡ written_sheet sheet.now self.entry.book.now self.entry.hour
            ++ drop (length sheet.now) buffer.old }
    {
        byte_copy::copy(sheet, buffer);
        self.put_windows(buffer);
    }
}
