// A state with the stores that hold its files, for programs. The project has no heap: the stores are fixed arrays.
#![tactic(auto)]

pub mod held;
