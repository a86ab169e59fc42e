// Listing the minimal cut sets of the held tree, each once and no other set, as 64-bit numbers.
ghost use Rattle.std.specs.Prelude.{◌≡◌, length};
ghost use Rattle.refusals.specs.FirstFault.{judged_by};
ghost use Rattle.held_pair.specs.Standing.{held_tree};
ghost use Rattle.tree_file.specs.NodeTable.{root as root_of};
ghost use Rattle.cut_sets.specs.Judged.{list_outcome, reply_of, set_count, short_list};
ghost use Rattle.cut_sets.specs.Listed.{SetsLeft};
ghost use Rattle.node_sets.specs.Requirements.{Small};

use crate::judge::judge_events;
use held_files::state::Reply;
use held_pair::lent::HeldTree;
use node_sets::counted::{CountedNode, CountedTree};
use node_sets::counting::count_beneath;
use refusals::refusal::Refusal;
use refusals::rule::Rule;
use tree_file::format::MAX_NODES;

// Counts the sets of the root, and writes them where the slice has a place for each: refusal 27.
fn listed(tree: &[u8], root: usize, sets: &mut [u64]) -> Result<u64, Refusal>
    requires small { Small tree.now root }
    requires root_value { root ≡ root_of tree.now }
    ensures value { result ≡ judged_by (short_list (set_count tree.now) (length sets.old))
        (set_count tree.now) }
    ensures sets_left { SetsLeft result tree.now sets.old sets.new }
{
    let mut counts = [0u64; MAX_NODES];
    let count = count_beneath(tree, root, &mut counts);
    if (sets.len() as u64) < count {
        return Err(Rule::ShortList.at(0));
    }
    let counted = CountedTree {
        file: tree,
        counts: &counts,
    };
    let node = CountedNode {
        tree: &counted,
        node: root,
    };
    node.write_sets(sets);
    Ok(count)
}

// What listing comes to, and what it leaves in the lent slice.
fn outcome(held: HeldTree, sets: &mut [u64]) -> Result<u64, Refusal>
    ensures value { result ≡ list_outcome held.entry.state held.entry.tree_store.now (length sets.old) }
    ensures sets_left { SetsLeft result (held_tree held.entry.state held.entry.tree_store.now)
        sets.old sets.new }
{
    let counts = judge_events(held)?;
    let tree = &held.tree_store[..held.state.tree_len];
    listed(tree, counts.nodes - 1, sets)
}

// Lists the minimal cut sets of the held tree to the front of the lent slice; the order is left open. The state comes
// back as it was.
pub fn list_sets(held: HeldTree, sets: &mut [u64]) -> Reply<u64>
    ensures value { result ≡ reply_of held.entry.state held.entry.tree_store.now (length sets.old) }
    ensures sets_left { SetsLeft result.outcome (held_tree held.entry.state held.entry.tree_store.now)
        sets.old sets.new }
{
    let outcome = outcome(held, sets);
    Reply {
        state: held.state,
        outcome,
    }
}
