// Reads an opinion sheet: what stands where, and what each entry holds. The main contract is that of
// `entry::read_entry`.
#![tactic(auto)]

pub mod entry;
pub mod format;
pub mod fractions;
pub mod kind;
pub mod numbers;
pub mod place;
