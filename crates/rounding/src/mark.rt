// The marks of both ends in one byte.
ghost use Rattle.std.specs.Prelude.{◌≡◌};
ghost use Rattle.rounding.specs.Ends.{way};
ghost use Rattle.rounding.specs.Marks.{mark_byte, exact_in};

use crate::direction::Direction;
use crate::end::Enclosure;

// The mark byte of both ends.
pub fn mark_byte(ends: Enclosure) -> u8
    ensures { result ≡ mark_byte ends }
{
    u8::from(ends.lower.exact) + 2 * u8::from(ends.upper.exact)
}

// Whether a mark byte marks the end in a direction exact.
pub fn is_marked(direction: Direction, mark: u8) -> bool
    ensures { result ≡ exact_in (way direction) mark }
{
    match direction {
        Direction::Down => mark % 2 == 1,
        Direction::Up => mark / 2 % 2 == 1,
    }
}
