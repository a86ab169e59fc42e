// The dual of the held pair: both files are judged afresh, and the dual ones are written to two lent buffers.
ghost use Rattle.std.specs.Prelude.{◌≡◌};
ghost use Rattle.theory.specs.Unit.{billion};
ghost use Rattle.refusals.specs.FirstFault.{first_of};
ghost use Rattle.success_tree.specs.Reply.{dual_rules, reply_of, sheet_left, tree_left};
ghost use Rattle.success_tree.specs.Law.{LawKept};

use dual_files::sheet::write_sheet;
use dual_files::tree::write_tree;
use held_files::state::Reply;
use held_pair::lent::HeldPair;
use refusals::refusal::Refusal;
use refusals::rule::Rule;

// What the call comes to: both buffers are judged before either is written.
fn outcome(held: HeldPair, tree_buffer: &mut [u8], sheet_buffer: &mut [u8]) -> Result<(), Refusal>
    ensures value { result ≡ first_of (dual_rules held.entry.state
        held.entry.tree_store.now held.entry.sheet_store.now
        tree_buffer.old sheet_buffer.old) }
    ensures tree_buffer_after { tree_buffer.new ≡ tree_left held.entry.state held.entry.tree_store.now
        held.entry.sheet_store.now tree_buffer.old sheet_buffer.old }
    ensures sheet_buffer_after { sheet_buffer.new ≡ sheet_left held.entry.state held.entry.tree_store.now
        held.entry.sheet_store.now tree_buffer.old sheet_buffer.old }
    ensures law_kept { LawKept billion result held.entry.state
        held.entry.tree_store.now held.entry.sheet_store.now
        tree_buffer.new sheet_buffer.new }
{
    let counts = held.judge()?;
    let tree_len = held.state.tree_len;
    let sheet_len = held.state.sheet_len;
    let room = (tree_len <= tree_buffer.len()) & (sheet_len <= sheet_buffer.len());
    if !room {
        return Err(Rule::ShortMirror.at(0));
    }
    write_tree(&held.tree_store[..tree_len], counts.nodes, tree_buffer);
    write_sheet(&held.sheet_store[..sheet_len], counts.events, sheet_buffer);
    Ok(())
}

// Writes the success tree of the held pair and the sheet of what works to the fronts of two lent buffers, which are
// then the stores of the dual pair in the same state. The last promise is De Morgan's law on what is reported of the
// two pairs.
#[tactic(auto, unfolding(crate::specs::Reply::reply_of))]
pub fn write_success_tree(
    held: HeldPair,
    tree_buffer: &mut [u8],
    sheet_buffer: &mut [u8],
) -> Reply<()>
    ensures value { result ≡ reply_of held.entry.state held.entry.tree_store.now held.entry.sheet_store.now
        tree_buffer.old sheet_buffer.old }
    ensures tree_buffer_after { tree_buffer.new ≡ tree_left held.entry.state held.entry.tree_store.now
        held.entry.sheet_store.now tree_buffer.old sheet_buffer.old }
    ensures sheet_buffer_after { sheet_buffer.new ≡ sheet_left held.entry.state held.entry.tree_store.now
        held.entry.sheet_store.now tree_buffer.old sheet_buffer.old }
    ensures law_kept { LawKept billion result.outcome held.entry.state
        held.entry.tree_store.now held.entry.sheet_store.now
        tree_buffer.new sheet_buffer.new }
{
    let outcome = outcome(held, tree_buffer, sheet_buffer);
    Reply {
        state: held.state,
        outcome,
    }
}
