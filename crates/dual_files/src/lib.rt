// The files of what must work, which document 02 calls the mirror: the dual tree, and the sheet of the complements. The
// main contracts are those of `tree::write_tree` and `sheet::write_sheet`.
#![tactic(auto)]

pub mod entry;
pub mod parts;
pub mod sheet;
pub mod tree;
