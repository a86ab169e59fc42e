// A level of a tree and a sheet that fit each other: every node's ends and marks, written to three lent slices.
// The main contract is that of `evaluate::evaluate`.
#![tactic(auto)]

pub mod evaluate;
mod events;
mod gate;
mod gates;
mod seen;
