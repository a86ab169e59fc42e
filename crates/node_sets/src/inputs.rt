// The inputs of a gate by its links, and what a kind of gate does with their counts.
ghost use Rattle.std.specs.Prelude.{◌≡◌, ◌^◌, ◌<◌};
ghost use Rattle.fields.specs.Fields.{Is16};
ghost use Rattle.tree_file.specs.Format.{link, link_count};
ghost use Rattle.tree_file.specs.NodeTable.{kind_as};
ghost use Rattle.tree_file.specs.WellFormed.{WellFormed};
ghost use Rattle.node_sets.specs.Requirements.{joined_count, neutral_count};

use tree_file::node::{GateKind, linked_node, links_from};

// The node that link j of the tree names.
#[tactic(auto, using(crate::proofs::Links::link_named))]
pub fn input_at(tree: &[u8], j: usize) -> usize
    requires { WellFormed tree.now × (j < link_count tree.now) }
    ensures { Is16 result (link tree.now j) }
{
    let links = links_from(tree, j);
    linked_node(links, 0)
}

// The number of sets of a gate without inputs: the empty union for AND, no alternative for OR.
pub fn neutral(kind: GateKind) -> u64
    ensures { result ≡ neutral_count (kind_as kind) }
{
    kind.by_kind(1, 0)
}

// The number of sets with those of one input more: a union with each of them for AND, or one of them for OR. A match:
// of the two only one has room in 64 bits.
pub fn joined(kind: GateKind, total: u64, count: u64) -> u64
    requires { joined_count (kind_as kind) total count < 2 ^ 64 }
    ensures { result ≡ joined_count (kind_as kind) total count }
{
    match kind {
        GateKind::All => total * count,
        GateKind::Any => total + count,
    }
}
