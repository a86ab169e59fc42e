// The step of a gate: the running number times an input, rounded outward, with its mark.
ghost use Rattle.std.specs.Prelude.{◌≡◌, ◌*◌, ◌≤◌};
ghost use Rattle.theory.specs.Unit.{billion};
ghost use Rattle.theory.specs.Rounding.{rescaled, true_zero, step, end_complement};
ghost use Rattle.rounding.specs.Ends.{way, as_theory, as_code, InUnits};

use crate::direction::Direction;
use crate::end::End;
use crate::unit::UNIT;

// A product of two ends over U, rounded: up as document 02 has it, where `div_ceil` would test for a remainder. At most
// U, it is narrowed by `as`, and so is U below: `try_from` would bring a branch that is never taken.
#[tactic(auto, unfolding(theory::specs::Rounding::rescaled))]
fn rescaled(direction: Direction, product: u64) -> u32
    requires { product ≤ billion * billion }
    ensures { result ≡ rescaled billion (way direction) product }
{
    match direction {
        Direction::Down => (product / UNIT) as u32,
        Direction::Up => ((product + UNIT - 1) / UNIT) as u32,
    }
}

// Whether an end is exact and 0.
#[tactic(auto, unfolding(theory::specs::Rounding::true_zero))]
fn is_true_zero(x: End) -> bool
    ensures { result ≡ true_zero (as_theory x) }
{
    x.exact & (x.value == 0)
}

// The running number times a factor, over U.
#[tactic(auto, using(crate::proofs::Reckoned::step_laws), unfolding(theory::specs::Rounding::step))]
pub fn step(direction: Direction, running: End, factor: End) -> End
    requires { InUnits billion running × InUnits billion factor }
    ensures value { result ≡ as_code (step billion (way direction) (as_theory running) (as_theory factor)) }
    ensures in_units { InUnits billion result }
{
    let product = u64::from(running.value) * u64::from(factor.value);
    let value = rescaled(direction, product);
    let whole = u64::from(value) * UNIT == product;
    let zero = is_true_zero(running) | is_true_zero(factor);
    End {
        value,
        exact: running.exact & factor.exact & whole | zero,
    }
}

// What is missing to 1: exact as the number is.
#[tactic(auto, unfolding(theory::specs::Rounding::end_complement))]
pub fn complement(x: End) -> End
    requires { InUnits billion x }
    ensures { (result ≡ as_code (end_complement billion (as_theory x))) × InUnits billion result }
{
    End {
        value: (UNIT as u32) - x.value,
        exact: x.exact,
    }
}
