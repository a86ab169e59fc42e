// A work slice as it is printed after a question.
use printed::checksum::checksum;
use printed::shown::WHOLE;
use std::fmt;

// Every place of a slice where they are few, else their number, the first and the last, and their checksum. A store
// in hex (printed) has the same shape: one for both would be told the base, the width, what parts them and the
// word for none.
#[derive(Drop)]
pub struct Slice<'a, T>(pub &'a [T]);

impl<T: Copy + Into<u64> + fmt::Display> fmt::Display for Slice<'_, T> {
    fn fmt<W: fmt::Write>(&self, f: &mut fmt::Formatter<W>) -> fmt::Result {
        let places = self.0;
        let count = places.len();
        if WHOLE < count {
            let first = places[0];
            let last = places[count - 1];
            let sum = checksum(places);
            return write!(f, " {count} {first}..{last} {sum}");
        }
        for place in places {
            write!(f, " {place}")?;
        }
        Ok(())
    }
}
