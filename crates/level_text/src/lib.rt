// The text of the level printer, line by line. The main contracts are those of `Draft`'s lines.
#![tactic(auto)]

pub mod draft;
mod line;
