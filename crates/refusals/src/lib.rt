// Document 01's refusals: a rule with its number, and the place where it is broken.
#![tactic(auto)]

pub mod refusal;
pub mod rule;
