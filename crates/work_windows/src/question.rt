// Questioning a level at an hour: the hour's sheet is written to a lent buffer, and the question is put to it.
ghost use Rattle.std.specs.Prelude.{◌≡◌};
ghost use Rattle.theory.specs.Unit.{billion};
ghost use Rattle.work_slices.specs.Slices.{SameSlices, contents};
ghost use Rattle.held_pair.specs.Standing.{held_tree, held_sheet};
ghost use Rattle.monitor.specs.Promise.{PromisesKept};
ghost use Rattle.hour_sheet.specs.Sheet.{written_sheet};
ghost use Rattle.work_windows.specs.Question.{buffer_left, hour_outcome, hour_reply, hour_slices};

use crate::judge::judge_lent;
use held_files::state::Reply;
use held_pair::lent::HeldPair;
use hour_sheet::hour::BookAtHour;
use monitor::question::{Report, question};
use refusals::refusal::Refusal;
use work_slices::slices::WorkSlices;

// What a question at an hour comes to, and what it leaves in the buffer and in the work slices.
fn outcome(
    held: HeldPair,
    at: BookAtHour,
    k: u32,
    n: u32,
    buffer: &mut [u8],
    slices: &mut WorkSlices,
) -> Result<Report, Refusal>
    ensures value { result
        ≡ hour_outcome held.entry.state held.entry.tree_store.now held.entry.sheet_store.now at.entry.book.now
        k n at.entry.hour buffer.old (contents slices.old) }
    ensures buffer_after { buffer.new
        ≡ buffer_left held.entry.state held.entry.tree_store.now held.entry.sheet_store.now
        at.entry.book.now k n at.entry.hour buffer.old
        (contents slices.old) }
    ensures same_slices { SameSlices slices.new slices.old }
    ensures work_slices { contents slices.new
        ≡ hour_slices held.entry.state held.entry.tree_store.now held.entry.sheet_store.now
        at.entry.book.now k n at.entry.hour buffer.old (contents slices.old) }
    ensures promises_kept { PromisesKept billion result
        (held_tree held.entry.state held.entry.tree_store.now)
        (written_sheet (held_sheet held.entry.state held.entry.sheet_store.now) at.entry.book.now at.entry.hour) k n
        (contents slices.new) }
{
    let counts = held.judge_level(k, n)?;
    let sheet_len = held.state.sheet_len;
    judge_lent(counts, sheet_len, at.book, buffer.len(), slices)?;
    at.write_sheet(&held.sheet_store[..sheet_len], buffer);
    let written = HeldPair {
        sheet_store: buffer,
        ..held
    };
    question(written, k, n, slices).outcome
}

// Questions level k of n at an hour, by a book of work windows. Any two numbers are answered, so that k and n are no
// `Level` yet. The last promise is demands 2 and 3 of the hour's sheet, of the answer and of every node's place in the
// slices.
pub fn question_at_hour(
    held: HeldPair,
    at: BookAtHour,
    k: u32,
    n: u32,
    buffer: &mut [u8],
    slices: &mut WorkSlices,
) -> Reply<Report>
    ensures value { result
        ≡ hour_reply held.entry.state held.entry.tree_store.now held.entry.sheet_store.now at.entry.book.now
        k n at.entry.hour buffer.old (contents slices.old) }
    ensures buffer_after { buffer.new
        ≡ buffer_left held.entry.state held.entry.tree_store.now held.entry.sheet_store.now
        at.entry.book.now k n at.entry.hour buffer.old
        (contents slices.old) }
    ensures same_slices { SameSlices slices.new slices.old }
    ensures work_slices { contents slices.new
        ≡ hour_slices held.entry.state held.entry.tree_store.now held.entry.sheet_store.now
        at.entry.book.now k n at.entry.hour buffer.old (contents slices.old) }
    ensures promises_kept { PromisesKept billion result.outcome
        (held_tree held.entry.state held.entry.tree_store.now)
        (written_sheet (held_sheet held.entry.state held.entry.sheet_store.now) at.entry.book.now at.entry.hour) k n
        (contents slices.new) }
{
    let outcome = outcome(held, at, k, n, buffer, slices);
    Reply {
        state: held.state,
        outcome,
    }
}
