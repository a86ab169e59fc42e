// The minimal cut sets of the nodes of a well-formed tree file: how many each has, and those of a node into a slice.
// The main contracts are those of `counting::count_beneath` and of `write_sets` of `counted::CountedNode`.
#![tactic(auto)]

mod blocks;
pub mod counted;
pub mod counting;
mod inputs;
mod sets;
mod writing;
