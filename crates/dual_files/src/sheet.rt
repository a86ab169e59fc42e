// The complement sheet, written to a lent buffer.
ghost use Rattle.std.specs.Prelude.{◌≡◌, ◌++◌, length, drop};
ghost use Rattle.dual_files.specs.Sheet.{complement_sheet};
ghost use Rattle.dual_files.specs.Writing.{SheetAsked};

use crate::entry::complement_entry;
use crate::parts::write_with_parts;
use opinion_sheet::format::{ENTRY_LENGTH, HEADER_LENGTH};

// Writes the complement sheet to the front of the buffer.
pub fn write_sheet(sheet: &[u8], events: usize, buffer: &mut [u8])
    requires { SheetAsked sheet.now events buffer.old }
    ensures { buffer.new
        ≡ complement_sheet sheet.now ++ drop (length sheet.now) buffer.old }
{
    write_with_parts(
        sheet,
        HEADER_LENGTH,
        ENTRY_LENGTH,
        events,
        complement_entry,
        buffer,
    );
}
