// What is held: the state, and the files that are handed in to it. The main contract is that of `hand_in::hand_in`.
#![tactic(auto)]

pub mod hand_in;
pub mod held;
pub mod state;
