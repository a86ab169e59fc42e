// A refusal: what a call answers that cannot go on.
use crate::rule::Rule;

// The rule that is broken, and the place that document 01 gives it, 0 where it names none.
#[derive(Clone, Copy)]
pub struct Refusal {
    pub rule: Rule,
    pub place: usize,
}
