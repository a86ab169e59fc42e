// Reads and writes the unsigned numbers of a file, low byte first. The main contracts are those of `fields` and of
// `write`.
#![tactic(auto)]

pub mod fields;
pub mod write;
