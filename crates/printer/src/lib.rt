// The level printer: the whole printed text for an input, in a lent buffer. The main contract is that of
// `print::print_levels`.
#![tactic(auto)]

mod levels;
pub mod print;
