// Questioning a level.
ghost use Rattle.std.specs.Prelude.{◌≡◌};
ghost use Rattle.work_slices.specs.Slices.{slices};
ghost use Rattle.held_pair.specs.Standing.{held_tree, held_sheet};
ghost use Rattle.monitor.specs.Question.{reply_of, slices_left};
ghost use Rattle.c_structs.specs.State.{held_of};
ghost use Rattle.c_structs.specs.Reply.{reply_for, PromisesKept};

use c_structs::reply::Reply;
use c_structs::state::State;

// Questions level k of n. The last promise is demands 2 and 3, of the reply and of every node's place in the slices.
#[unsafe(no_mangle)]
pub extern "C" fn nekbrod_question(
    state: State,
    tree_store: &[u8],
    sheet_store: &[u8],
    k: u32,
    n: u32,
    lower: &mut [u32],
    upper: &mut [u32],
    marks: &mut [u8],
) -> Reply
    ensures value { result ≡ reply_for
        (reply_of (held_of state) tree_store.now sheet_store.now k n
        (slices lower.old upper.old marks.old)) }
    ensures work_slices { slices lower.new upper.new marks.new
        ≡ slices_left (held_of state) tree_store.now sheet_store.now k n
        (slices lower.old upper.old marks.old) }
    ensures promises_kept { PromisesKept result (held_tree (held_of state) tree_store.now)
        (held_sheet (held_of state) sheet_store.now) k n
        (slices lower.new upper.new marks.new) }
{
    capi::question::nekbrod_question(state, tree_store, sheet_store, k, n, lower, upper, marks)
}
