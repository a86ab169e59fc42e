// A quotient rounded to whole units.
ghost use Rattle.std.specs.Prelude.{◌≡◌, ◌*◌, ◌≤◌, ◌<◌};
ghost use Rattle.theory.specs.Unit.{billion};
ghost use Rattle.theory.specs.Rounding.{rounded, divided};
ghost use Rattle.rounding.specs.Ends.{way, as_code, InUnits};

use crate::direction::Direction;
use crate::end::End;

// The quotient, rounded.
#[tactic(auto, using(crate::proofs::Reckoned::carry_is_min), unfolding(theory::specs::Rounding::rounded))]
fn rounded(direction: Direction, num: u64, den: u64) -> u64
    requires { 0 < den }
    ensures { result ≡ rounded (way direction) num den }
{
    match direction {
        Direction::Down => num / den,
        Direction::Up => num.div_ceil(den),
    }
}

// The quotient rounded, exact where nothing was dropped. At most U, it is narrowed by `as`: `try_from` would bring a
// branch that is never taken.
#[tactic(auto, using(theory::proofs::RoundingMeaning::no_remainder, theory::proofs::RoundingMeaning::rounded_at_most))]
pub fn divided(direction: Direction, num: u64, den: u64) -> End
    requires { (0 < den) × (num ≤ billion * den) }
    ensures { (result ≡ as_code (divided (way direction) num den)) × InUnits billion result }
{
    End {
        value: rounded(direction, num, den) as u32,
        exact: num % den == 0,
    }
}
