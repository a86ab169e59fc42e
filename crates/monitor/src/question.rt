// Questioning a level: every node's ends and marks go to the lent work slices, and the root's are answered.
ghost use Rattle.std.specs.Prelude.{◌≡◌};
ghost use Rattle.theory.specs.Unit.{billion};
ghost use Rattle.tree_judging.specs.Judged.{counts_of};
ghost use Rattle.work_slices.specs.Slices.{contents, SameSlices};
ghost use Rattle.evaluation.specs.Report.{slices_after};
ghost use Rattle.evaluation.specs.Requirements.{Evaluable};
ghost use Rattle.held_pair.specs.Standing.{held_tree, held_sheet};
ghost use Rattle.monitor.specs.Question.{outcome_of, report_of, reply_of, slices_left};
ghost use Rattle.monitor.specs.Promise.{PromisesKept};

use evaluation::evaluate::evaluate;
use event_cut::level::Level;
use held_files::state::Reply;
use held_pair::judge::judge_slices;
use held_pair::lent::HeldPair;
use refusals::refusal::Refusal;
use rounding::end::Enclosure;
use tree_judging::judgement::Counts;
use work_slices::slices::WorkSlices;

// The root's ends in units, each with its mark, and the number of basic events (E).
#[derive(Clone, Copy)]
pub struct Report {
    pub ends: Enclosure,
    pub events: usize,
}

// Evaluates a pair that is ready and reads the root's place.
fn answered(
    tree: &[u8],
    sheet: &[u8],
    counts: Counts,
    level: Level,
    slices: &mut WorkSlices,
) -> Report
    requires evaluable { Evaluable tree.now sheet.now (contents slices.old) }
    requires counts_value { counts ≡ counts_of tree.now }
    ensures value { result ≡ report_of billion tree.now sheet.now level.k level.n }
    ensures same_slices { SameSlices slices.new slices.old }
    ensures work_slices { contents slices.new
        ≡ slices_after billion tree.now sheet.now level.k level.n
        (contents slices.old) }
{
    evaluate(tree, sheet, level, slices);
    let root = counts.nodes - 1;
    let ends = slices.ends(root);
    let events = counts.events;
    Report { ends, events }
}

// What a question comes to, and what it leaves in the work slices.
fn outcome(held: HeldPair, k: u32, n: u32, slices: &mut WorkSlices) -> Result<Report, Refusal>
    ensures value { result
        ≡ outcome_of held.entry.state held.entry.tree_store.now held.entry.sheet_store.now k n
        (contents slices.old) }
    ensures same_slices { SameSlices slices.new slices.old }
    ensures work_slices { contents slices.new
        ≡ slices_left held.entry.state held.entry.tree_store.now held.entry.sheet_store.now k n
        (contents slices.old) }
    ensures promises_kept { PromisesKept billion result
        (held_tree held.entry.state held.entry.tree_store.now)
        (held_sheet held.entry.state held.entry.sheet_store.now) k n
        (contents slices.new) }
{
    let counts = held.judge_level(k, n)?;
    judge_slices(counts.nodes, slices.stored())?;
    let tree = &held.tree_store[..held.state.tree_len];
    let sheet = &held.sheet_store[..held.state.sheet_len];
    // judge_level answers the counts alone, as C has them: that there is a level follows from it.
    Ok(answered(tree, sheet, counts, Level { k, n }, slices))
}

// Questions level k of n, which are any two numbers, as in `judge_level`: the state comes back as it was. The last
// promise is demands 2 and 3, of the answer and of every node's place in the slices.
pub fn question(held: HeldPair, k: u32, n: u32, slices: &mut WorkSlices) -> Reply<Report>
    ensures value { result
        ≡ reply_of held.entry.state held.entry.tree_store.now held.entry.sheet_store.now k n
        (contents slices.old) }
    ensures same_slices { SameSlices slices.new slices.old }
    ensures work_slices { contents slices.new
        ≡ slices_left held.entry.state held.entry.tree_store.now held.entry.sheet_store.now k n
        (contents slices.old) }
    ensures promises_kept { PromisesKept billion result.outcome
        (held_tree held.entry.state held.entry.tree_store.now)
        (held_sheet held.entry.state held.entry.sheet_store.now) k n
        (contents slices.new) }
{
    let outcome = outcome(held, k, n, slices);
    Reply {
        state: held.state,
        outcome,
    }
}
