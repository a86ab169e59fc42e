// Standard input read part by part, and the pair that it brings. The project has no heap: what is read lies in fixed
// arrays.
#![tactic(auto)]

pub mod read;
