// Both ends of a gate, input by input.
ghost use Rattle.std.specs.Prelude.{◌≡◌};
ghost use Rattle.theory.specs.Unit.{billion};
ghost use Rattle.theory.specs.Rounding.{step};
ghost use Rattle.theory.specs.GateFold.{both_seen};
ghost use Rattle.tree_file.specs.Format.{linked};
ghost use Rattle.tree_file.specs.NodeTable.{kind_as};
ghost use Rattle.rounding.specs.Ends.{enclosure, end_in, BothInUnits};
ghost use Rattle.work_slices.specs.Slices.{contents, stored_end};
ghost use Rattle.evaluation.specs.Phases.{fold_end};
ghost use Rattle.evaluation.specs.Requirements.{InputStored, InputsStored};

use crate::seen::seen_ends;
use rounding::direction::Direction;
use rounding::end::Enclosure;
use rounding::step::step;
use tree_file::node::{GateKind, linked_node};
use work_slices::slices::WorkSlices;

// The running interval times a factor: the lower end is rounded down, the upper end up.
fn step_ends(running: Enclosure, factor: Enclosure) -> Enclosure
    requires { BothInUnits billion running × BothInUnits billion factor }
    ensures value { result ≡ enclosure (λ w. step billion w (end_in w running) (end_in w factor)) }
    ensures both_in_units { BothInUnits billion result }
{
    Enclosure {
        lower: step(Direction::Down, running.lower, factor.lower),
        upper: step(Direction::Up, running.upper, factor.upper),
    }
}

// The ends of the input that link j names, as the fold goes by them.
fn seen_input(kind: GateKind, links: &[u8], j: usize, slices: &WorkSlices) -> Enclosure
    requires { InputStored billion links.now j (contents slices.now) }
    ensures value { result ≡ enclosure (both_seen (kind_as kind) billion (λ w. stored_end w
        (contents slices.now) (linked links.now j))) }
    ensures both_in_units { BothInUnits billion result }
{
    let node = linked_node(links, j);
    let ends = slices.ends(node);
    seen_ends(kind, ends)
}

// Both ends of a gate by the stored ends of the nodes that its links name, in one pass. The links are the part of the
// tree file that starts at the gate's first link. The fold starts with the first input: a step by it, from 1, is
// itself.
pub fn gate_ends(kind: GateKind, links: &[u8], inputs: usize, slices: &WorkSlices) -> Enclosure
    requires { InputsStored billion links.now inputs (contents slices.now) }
    ensures { result ≡ enclosure (λ w. fold_end billion w (kind_as kind) links.now inputs
        (stored_end w (contents slices.now))) }
{
    let mut running = seen_input(kind, links, 0, slices);
    for j in 1..inputs {
        let factor = seen_input(kind, links, j, slices);
        running = step_ends(running, factor);
    }
    seen_ends(kind, running)
}
