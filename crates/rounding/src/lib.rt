// Ends in billionths: a quotient rounded outward with its mark, the step of a gate, what is missing to 1, and the byte
// that holds the marks of both ends.
#![tactic(auto)]

pub mod direction;
pub mod divide;
pub mod end;
pub mod mark;
pub mod step;
pub mod unit;
