// The input of the level printer. The main contract is that of `input::files_of`.
#![tactic(auto)]

pub mod input;
