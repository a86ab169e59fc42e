// Counting the minimal cut sets of the held tree.
ghost use Rattle.std.specs.Prelude.{◌≡◌};
ghost use Rattle.theory.specs.CutSetFamily.{family};
ghost use Rattle.tree_file.specs.NodeTable.{fault_tree};
ghost use Rattle.cut_sets.specs.Judged.{count_outcome};
ghost use Rattle.node_sets.specs.Requirements.{Small};

use crate::judge::judge_events;
use held_pair::lent::HeldTree;
use node_sets::counting::count_beneath;
use refusals::refusal::Refusal;
use tree_file::format::MAX_NODES;

// The number of minimal cut sets of node i.
fn count_at(tree: &[u8], i: usize) -> u64
    requires { Small tree.now i }
    ensures { result ≡ (family (fault_tree tree.now i)).count }
{
    let mut counts = [0u64; MAX_NODES];
    count_beneath(tree, i, &mut counts)
}

// The number of minimal cut sets of the held tree.
pub fn count_sets(held: HeldTree) -> Result<u64, Refusal>
    ensures { result ≡ count_outcome held.entry.state held.entry.tree_store.now }
{
    let counts = judge_events(held)?;
    let tree = &held.tree_store[..held.state.tree_len];
    Ok(count_at(tree, counts.nodes - 1))
}
