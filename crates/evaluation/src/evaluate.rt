// A level in two phases: the events' cuts, then the gates.
ghost use Rattle.std.specs.Prelude.{◌≡◌};
ghost use Rattle.theory.specs.Unit.{billion};
ghost use Rattle.work_slices.specs.Slices.{contents, SameSlices};
ghost use Rattle.evaluation.specs.Report.{slices_after};
ghost use Rattle.evaluation.specs.Requirements.{Evaluable};

use crate::events::EventCuts;
use crate::gates::put_gates;
use event_cut::level::Level;
use work_slices::slices::WorkSlices;

// The ends and marks of all nodes at a level, at place i for node i; places from N on are unchanged.
pub fn evaluate(tree: &[u8], sheet: &[u8], level: Level, slices: &mut WorkSlices)
    requires { Evaluable tree.now sheet.now (contents slices.old) }
    ensures same_slices { SameSlices slices.new slices.old }
    ensures value { contents slices.new ≡ slices_after billion tree.now sheet.now level.k level.n (contents slices.old) }
{
    let cuts = EventCuts { tree, sheet, level };
    cuts.put_events(slices);
    put_gates(tree, slices);
}
