// A book of work windows: what stands where, and its first fault. The main contract is that of `book::judge_book`.
#![tactic(auto)]

pub mod book;
