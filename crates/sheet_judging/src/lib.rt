// Judges an opinion sheet: its first fault, or its counts. The main contract is that of `judge::judge`.
#![tactic(auto)]

pub mod entry;
pub mod fractions;
mod header;
pub mod judge;
pub mod judgement;
pub mod numbers;
mod opinions;
mod scores;
