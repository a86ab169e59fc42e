// The number of minimal cut sets of a node, by recursion: the node number falls at each input.
ghost use Rattle.std.specs.Prelude.{◌≡◌};
ghost use Rattle.theory.specs.CutSetFamily.{family};
ghost use Rattle.tree_file.specs.NodeTable.{fault_tree};
ghost use Rattle.node_sets.specs.Requirements.{Countable, CountedBeneath};

use crate::inputs::{input_at, joined, neutral};
use tree_file::node::{Node, node_at};

// Counts the minimal cut sets of node i and of every node beneath it, each to its place. Document 01 names this form;
// the count is answered as well as kept, since the gate above joins it at once.
pub fn count_beneath(tree: &[u8], i: usize, counts: &mut [u64]) -> u64
    requires { Countable tree.now i counts.old }
    ensures value { result ≡ (family (fault_tree tree.now i)).count }
    ensures counted_beneath { CountedBeneath tree.now i counts.old counts.new }
{
    let count = match node_at(tree, i) {
        Node::Event(_) => 1,
        Node::Gate(gate) => {
            let mut total = neutral(gate.kind);
            for j in gate.first..gate.first + gate.inputs {
                let count = count_beneath(tree, input_at(tree, j), counts);
                total = joined(gate.kind, total, count);
            }
            total
        }
    };
    counts[i] = count;
    count
}
