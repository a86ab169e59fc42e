// The state and the stores as they are printed after a call.
ghost use Rattle.std.specs.Prelude.{◌++◌, ◌∷◌, [], Some};
ghost use Rattle.std.specs.Fmt.{decimal};
ghost use Rattle.printed.specs.Shown.{mark};

use crate::checksum::checksum;
use held_pair::lent::HeldPair;
use rounding::end::End;
use std::{fmt, io};

// A store or slice of more places than this is printed by its first and last place and its checksum.
pub const WHOLE: usize = 8;

// A store in hex: its bytes where they are few, else their number, the first and the last, and their checksum. A slice
// in decimal, which stored_calls prints, has the same shape: one for both would be told the base, the width, what parts
// them and the word for none.
#[derive(Drop)]
struct Store<'a>(&'a [u8]);

impl fmt::Display for Store<'_> {
    fn fmt<W: fmt::Write>(&self, f: &mut fmt::Formatter<W>) -> fmt::Result {
        let bytes = self.0;
        let count = bytes.len();
        if WHOLE < count {
            let first = bytes[0];
            let last = bytes[count - 1];
            let sum = checksum(bytes);
            return write!(f, "{count} {first:02x}..{last:02x} {sum}");
        }
        if count == 0 {
            return write!(f, "-");
        }
        for byte in bytes {
            write!(f, "{byte:02x}")?;
        }
        Ok(())
    }
}

// The state and both stores, as far as they can be written.
pub fn print_after(rt: &impl Print, held: HeldPair) {
    let _ = write_after(rt, held);
}

// The state and both stores.
pub fn write_after(rt: &impl Print, held: HeldPair) -> io::Result<()> {
    println!(rt; "state {} {}", held.state.tree_len, held.state.sheet_len)?;
    println!(rt; "tree {}", Store(held.tree_store))?;
    println!(rt; "sheet {}", Store(held.sheet_store))
}

// An end as it is printed: its units, and = where it is exact. Printer's `Draft` puts the same sign, and the same
// line of a refusal, part by part: its text is proved, and `writeln!` was not.
#[derive(Drop)]
pub struct Shown(pub End);

impl fmt::Display for Shown {
    ghost output = { λ shown. Some (decimal shown.0.value ++ 32 ∷ mark shown.0.exact ∷ []) };

    fn fmt<W: fmt::Write>(&self, f: &mut fmt::Formatter<W>) -> fmt::Result {
        let units = self.0.value;
        let mark = if self.0.exact { "=" } else { "~" };
        write!(f, "{units} {mark}")
    }
}
