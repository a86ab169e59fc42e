// Definitions and laws of fuzzy fault trees. This crate has no code: specs/ holds what a reader
// must believe, proofs/ what follows from it.
#![tactic(auto)]
