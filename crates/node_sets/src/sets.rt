// A minimal cut set by its number: the number is taken apart from the node down. The number is below the count by a
// clause: a struct of a node and a number would be taken apart at once, in each of the three functions.
#![tactic(auto, using(crate::proofs::GateInputs::some_sets))]

ghost use Rattle.std.specs.Prelude.{◌≡◌, ◌^◌, ◌<◌};
ghost use Rattle.theory.specs.MinimalCutSets.{SameSet};
ghost use Rattle.tree_file.specs.declared.node.GateKind.TheVariants.{All, Any};
ghost use Rattle.node_sets.specs.Counted.{sets_of};
ghost use Rattle.node_sets.specs.Numbers.{members};

use crate::counted::{CountedGate, CountedNode};
use tree_file::node::{GateKind, Node, node_at};

// The number of the set of one event.
pub fn event_alone(event: usize) -> u64
    requires { event < 64 }
    ensures { result ≡ 2 ^ event }
{
    1u64 << event
}

impl CountedNode<'_> {
    // Set number r of the node.
    #[cycle(sets)]
    pub(crate) fn set(self, r: u64) -> u64
        requires { r < (sets_of self).count }
        ensures { SameSet (members result) ((sets_of self.entry).set r) }
    {
        match node_at(self.tree.file, self.node) {
            Node::Event(event) => event_alone(event),
            Node::Gate(gate) => match gate.kind {
                GateKind::All => CountedGate { node: self, gate }.union(r),
                GateKind::Any => CountedGate { node: self, gate }.alternative(r),
            },
        }
    }
}

impl CountedGate<'_> {
    // Set number r of an AND: the union of a set from each input.
    #[cycle(sets)]
    fn union(self, r: u64) -> u64
        requires kind { self.gate.kind ≡ All }
        requires below { r < (sets_of self.node).count }
        ensures { SameSet (members result) ((sets_of self.entry.node).set r) }
    {
        let mut set = 0;
        let mut rest = r;
        for j in self.gate.first..self.gate.first + self.gate.inputs {
            let input = self.node.input(j);
            let count = input.count();
            set |= input.set(rest % count);
            rest /= count;
        }
        set
    }

    // Set number r of an OR: a set of one input.
    #[cycle(sets)]
    fn alternative(self, r: u64) -> u64
        requires kind { self.gate.kind ≡ Any }
        requires below { r < (sets_of self.node).count }
        ensures { SameSet (members result) ((sets_of self.entry.node).set r) }
    {
        let mut rest = r;
        for j in self.gate.first..self.gate.first + self.gate.inputs {
            let input = self.node.input(j);
            let count = input.count();
            if rest < count {
                return input.set(rest);
            }
            rest -= count;
        }
        // number r is below the count of all inputs
        unreachable!()
    }
}
