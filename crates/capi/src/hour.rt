// Questioning a level at an hour, by a book of work windows.
ghost use Rattle.std.specs.Prelude.{◌≡◌};
ghost use Rattle.work_slices.specs.Slices.{slices};
ghost use Rattle.held_pair.specs.Standing.{held_tree, held_sheet};
ghost use Rattle.hour_sheet.specs.Sheet.{written_sheet};
ghost use Rattle.work_windows.specs.Question.{buffer_left, hour_reply, hour_slices};
ghost use Rattle.c_structs.specs.State.{held_of};
ghost use Rattle.c_structs.specs.Reply.{reply_for, PromisesKept};

use c_structs::reply::Reply;
use c_structs::state::State;
use held_pair::lent::HeldPair;
use hour_sheet::hour::BookAtHour;
use work_slices::slices::WorkSlices;
use work_windows::question::question_at_hour;

// Questions level k of n at an hour: the hour's sheet is written to the buffer. The last promise is demands 2 and 3 of
// that sheet, of the reply and of every node's place in the slices.
#[tactic(auto, using(crate::proofs::Kept::kept_by))]
pub fn nekbrod_question_at_hour(
    state: State,
    tree_store: &[u8],
    sheet_store: &[u8],
    book: &[u8],
    k: u32,
    n: u32,
    hour: u32,
    buffer: &mut [u8],
    lower: &mut [u32],
    upper: &mut [u32],
    marks: &mut [u8],
) -> Reply
    ensures value { result ≡ reply_for
        (hour_reply (held_of state) tree_store.now sheet_store.now book.now
        k n hour buffer.old (slices lower.old upper.old marks.old)) }
    ensures buffer_after { buffer.new
        ≡ buffer_left (held_of state) tree_store.now sheet_store.now book.now
        k n hour buffer.old (slices lower.old upper.old marks.old) }
    ensures work_slices { slices lower.new upper.new marks.new
        ≡ hour_slices (held_of state) tree_store.now sheet_store.now book.now
        k n hour buffer.old (slices lower.old upper.old marks.old) }
    ensures promises_kept { PromisesKept result (held_tree (held_of state) tree_store.now)
        (written_sheet (held_sheet (held_of state) sheet_store.now) book.now hour) k n
        (slices lower.new upper.new marks.new) }
{
    let held = HeldPair {
        state: state.into(),
        tree_store,
        sheet_store,
    };
    let at = BookAtHour { book, hour };
    let mut slices = WorkSlices {
        lower,
        upper,
        marks,
    };
    question_at_hour(held, at, k, n, buffer, &mut slices).into()
}
