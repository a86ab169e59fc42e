// The C library: the calls of capi under the names of include/nekbrod.h, with its clauses.
// The C interface needs each signature and clause again: only an exported function has a C name.
#![tactic(auto)]

mod dual_pair;
mod hand_in;
mod hour;
mod judge;
mod minimal_cut_sets;
mod question;
mod version;
