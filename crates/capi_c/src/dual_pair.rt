// Mirroring the held pair.
ghost use Rattle.std.specs.Prelude.{◌≡◌};
ghost use Rattle.success_tree.specs.Reply.{reply_of, sheet_left, tree_left};
ghost use Rattle.c_structs.specs.State.{held_of};
ghost use Rattle.c_structs.specs.Answer.{answer_for};
ghost use Rattle.capi.specs.Mirror.{LawKept};

use c_structs::answer::Answer;
use c_structs::state::State;

// Writes the mirror of the held pair to the fronts of the two buffers. The last promise is De Morgan's law on what is
// reported of the two pairs.
#[unsafe(no_mangle)]
pub extern "C" fn nekbrod_mirror(
    state: State,
    tree_store: &[u8],
    sheet_store: &[u8],
    tree_buffer: &mut [u8],
    sheet_buffer: &mut [u8],
) -> Answer
    ensures value { result ≡ answer_for (reply_of (held_of state) tree_store.now
        sheet_store.now tree_buffer.old sheet_buffer.old) }
    ensures tree_buffer_after { tree_buffer.new ≡ tree_left (held_of state) tree_store.now
        sheet_store.now tree_buffer.old sheet_buffer.old }
    ensures sheet_buffer_after { sheet_buffer.new ≡ sheet_left (held_of state) tree_store.now
        sheet_store.now tree_buffer.old sheet_buffer.old }
    ensures law_kept { LawKept result (held_of state) tree_store.now sheet_store.now
        tree_buffer.new sheet_buffer.new }
{
    capi::dual_pair::nekbrod_mirror(state, tree_store, sheet_store, tree_buffer, sheet_buffer)
}
