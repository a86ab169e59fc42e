// Reads a tree file: what stands where, its nodes and its links. The main contract is that of `node::node_at`.
#![tactic(auto)]

pub mod format;
pub mod kind;
pub mod node;
