// The header and the lines of all levels of a pair that is held.
ghost use Rattle.std.specs.Prelude.{◌≡◌, OnOk};
ghost use Rattle.theory.specs.Unit.{billion};
ghost use Rattle.refusals.specs.FirstFault.{first_of};
ghost use Rattle.held_pair.specs.Standing.{held_tree, held_sheet, level_rules};
ghost use Rattle.monitor.specs.Question.{report_of};
ghost use Rattle.printer.specs.Text.{levels_text};
ghost use Rattle.printer.specs.Held.{ReadyAt};

use event_cut::level::Level;
use held_pair::lent::HeldPair;
use level_text::draft::Draft;
use monitor::question::{Report, question};
use refusals::refusal::Refusal;
use tree_file::format::MAX_NODES;
use work_slices::slices::WorkSlices;

// What the monitor reports at a level of a pair that is ready at the highest, and so at every level below.
#[tactic(auto, using(crate::proofs::Answers::answered))]
fn report_at(held: HeldPair, level: Level) -> Report
    requires { ReadyAt held.state held.tree_store.now held.sheet_store.now level.n }
    ensures { result ≡ report_of billion (held_tree held.entry.state held.entry.tree_store.now)
        (held_sheet held.entry.state held.entry.sheet_store.now) level.k level.n }
{
    // Lent from here: there is no heap, and an owner of the three would state three loans to spare three lines.
    let mut lower = [0u32; MAX_NODES];
    let mut upper = [0u32; MAX_NODES];
    let mut marks = [0u8; MAX_NODES];
    let mut slices = WorkSlices {
        lower: &mut lower,
        upper: &mut upper,
        marks: &mut marks,
    };
    let reply = question(held, level.k, level.n, &mut slices);
    reply.outcome.unwrap()
}

// Makes the text the header and a line for each level, from n down to 0, or answers why the pair cannot be asked.
pub fn put_levels(held: HeldPair, n: u32, draft: &mut Draft) -> Result<(), Refusal>
    ensures refusal { result ≡ first_of
        (level_rules held.entry.state held.entry.tree_store.now held.entry.sheet_store.now n n) }
    ensures text { OnOk result (draft.new
        ≡ levels_text (held_tree held.entry.state held.entry.tree_store.now)
        (held_sheet held.entry.state held.entry.sheet_store.now) n) }
{
    let counts = held.judge_level(n, n)?;
    draft.put_header(counts.number, counts.events, n);
    for k in (0..=n).rev() {
        let report = report_at(held, Level { k, n });
        draft.put_level(k, report.ends);
    }
    Ok(())
}
