// What is held, lent with its stores, and judged afresh before a call goes on. The main contracts are those of
// `HeldTree::judge`, `HeldPair::judge` and `HeldPair::judge_level`.
#![tactic(auto)]

pub mod judge;
pub mod lent;
