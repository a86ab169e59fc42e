// The minimal cut sets of the held tree: how many there are, and the list of them in a lent slice. The main contracts
// are those of `count::count_sets` and `list::list_sets`.
#![tactic(auto)]

pub mod count;
mod judge;
pub mod list;
