// A node of a tree file with the counts of minimal cut sets at and beneath it.
ghost use Rattle.std.specs.Prelude.{◌≡◌};
ghost use Rattle.tree_file.specs.NodeTable.{read_node};
ghost use Rattle.tree_file.specs.declared.node.Node.TheVariants.{Gate as AGate};
ghost use Rattle.node_sets.specs.Requirements.{Countable, RightBeneath};

use crate::inputs::input_at;
use tree_file::node::Gate;

// A tree file, and a place for the count of each of its nodes.
#[derive(Clone, Copy)]
pub struct CountedTree<'a> {
    pub file: &'a [u8],
    pub counts: &'a [u64],
}

// A node of the tree. Its count and those of the nodes beneath it stand at their places.
#[derive(Clone, Copy)]
pub struct CountedNode<'a> {
    pub tree: &'a CountedTree<'a>,
    pub node: usize,
    ghost countable: { Countable tree.now.file.now node tree.now.counts.now },
    ghost right: { RightBeneath tree.now.file.now tree.now.counts.now node },
}

// A node of the tree that is a gate, as it is read.
#[derive(Clone, Copy)]
pub struct CountedGate<'a> {
    pub node: CountedNode<'a>,
    pub gate: Gate,
    ghost read: { read_node node.tree.now.file.now node.node ≡ AGate gate },
}

impl<'a> CountedNode<'a> {
    ghost use Rattle.theory.specs.NodeTable.{Owns};
    ghost use Rattle.tree_file.specs.NodeTable.{table_of};
    ghost use Rattle.node_sets.specs.Counted.{InputOf, sets_of};

    // The number of its minimal cut sets.
    #[tactic(auto, using(crate::specs::Requirements::itself))]
    pub(crate) fn count(self) -> u64
        ensures { result ≡ (sets_of self.entry).count }
    {
        self.tree.counts[self.node]
    }

    // The input that link j names.
    pub(crate) fn input(self, j: usize) -> CountedNode<'a>
        requires { Owns (table_of self.tree.now.file.now) self.node j }
        ensures { InputOf self.entry j result }
    {
        CountedNode {
            tree: self.tree,
            node: input_at(self.tree.file, j),
        }
    }
}
