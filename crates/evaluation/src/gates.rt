// The second phase: the ends of each gate to its place, by the links alone.
ghost use Rattle.std.specs.Prelude.{◌≡◌};
ghost use Rattle.theory.specs.Unit.{billion};
ghost use Rattle.tree_file.specs.Format.{node_count};
ghost use Rattle.tree_file.specs.NodeTable.{read_node};
ghost use Rattle.work_slices.specs.Slices.{contents, SameSlices, after_turns};
ghost use Rattle.evaluation.specs.Phases.{gate_enclosure, gate_put, gate_turn, in_order};
ghost use Rattle.evaluation.specs.Requirements.{EventsStored, GateAsked, GateStored};

use crate::gate::gate_ends;
use rounding::end::Enclosure;
use tree_file::format::node_count;
use tree_file::node::{Gate, Node, links_from, node_at};
use work_slices::slices::WorkSlices;

// Both ends of a gate: the fold gets the part of the tree that starts at the gate's first link.
fn gate_enclosure(tree: &[u8], gate: Gate, slices: &WorkSlices) -> Enclosure
    requires { GateStored billion tree.now gate (contents slices.now) }
    ensures { result ≡ gate_enclosure billion tree.now gate (contents slices.now) }
{
    gate_ends(gate.kind, links_from(tree, gate.first), gate.inputs, slices)
}

// Puts the ends of node i, if it is a gate.
fn put_gate(tree: &[u8], i: usize, slices: &mut WorkSlices)
    requires { GateAsked billion tree.now i (contents slices.old) }
    ensures same_slices { SameSlices slices.new slices.old }
    ensures value { contents slices.new ≡ gate_put billion tree.now i (read_node tree.now i) (contents slices.old) }
{
    if let Node::Gate(gate) = node_at(tree, i) {
        let ends = gate_enclosure(tree, gate, slices);
        slices.put(i, ends);
    }
}

// The node whose turn comes at a place of the order of evaluation.
fn node_in_order(tree: &[u8], place: usize) -> usize
    ensures { result ≡ in_order tree.now place }
{
    place
}

// Puts the ends of all gates, each after its inputs. The tree is read and the slices are written: two loans, no struct.
pub fn put_gates(tree: &[u8], slices: &mut WorkSlices)
    requires { EventsStored billion tree.now (contents slices.old) }
    ensures same_slices { SameSlices slices.new slices.old }
    ensures value { contents slices.new
        ≡ after_turns (gate_turn billion tree.now) (node_count tree.now)
        (contents slices.old) }
{
    let nodes = node_count(tree);
    for place in 0..nodes {
        let i = node_in_order(tree, place);
        put_gate(tree, i, slices);
    }
}
