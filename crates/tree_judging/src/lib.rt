// Judges a tree file: its first fault, or its counts. The main contract is that of `judge::judge`.
#![tactic(auto)]

mod header;
pub mod judge;
pub mod judgement;
mod links;
mod records;
mod sized;
