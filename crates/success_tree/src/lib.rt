// The success tree of the held pair, which document 02 calls its mirror: the dual tree and the sheet of what works. The
// main contract is that of `write::write_success_tree`.
#![tactic(auto)]

pub mod write;
