// Runs a list of calls on the monitor: reads it from standard input, and prints each answer with the state, the stores
// and the slices after it. Each family of stored calls is a program that calls this. reference/src/vectors.rs says the
// list's format, and prints the same text from a second monitor.
#![tactic(auto)]

mod ask;
mod call;
mod desk;
pub mod done;
mod hand_in;
pub mod lent;
pub mod run;
mod sets;
mod slice;
#[cfg(test)]
mod tests;
