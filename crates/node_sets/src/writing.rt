// Writing the minimal cut sets of a node, by recursion: at each input the rank falls. The room is a clause: the places
// are lent anew for each input, so a struct of a node and its places would be taken apart at once.
#![tactic(auto, using(crate::proofs::GateInputs::some_sets))]

ghost use Rattle.std.specs.Prelude.{◌≡◌, ◌*◌, ◌≤◌, length};
ghost use Rattle.tree_file.specs.declared.node.GateKind.TheVariants.{All, Any};
ghost use Rattle.node_sets.specs.Counted.{sets_of};
ghost use Rattle.node_sets.specs.Requirements.{UnionsWritten, Written};

use crate::blocks::join_block;
use crate::counted::{CountedGate, CountedNode};
use crate::sets::event_alone;
use tree_file::node::{GateKind, Node, node_at};

impl CountedNode<'_> {
    // Writes the node's sets, from the first place on.
    #[cycle(writing)]
    pub fn write_sets(self, sets: &mut [u64])
        requires { (sets_of self).count ≤ length sets.old }
        ensures { Written (sets_of self.entry) sets.old sets.new }
    {
        match node_at(self.tree.file, self.node) {
            Node::Event(event) => {
                sets[0] = event_alone(event);
            }
            Node::Gate(gate) => match gate.kind {
                GateKind::All => CountedGate { node: self, gate }.write_unions(sets),
                GateKind::Any => CountedGate { node: self, gate }.write_alternatives(sets),
            },
        }
    }

    // Joins each of the node's sets to each of the first m.
    #[cycle(writing)]
    fn write_joined(self, m: usize, sets: &mut [u64])
        requires { m * (sets_of self).count ≤ length sets.old }
        ensures { UnionsWritten (sets_of self.entry) m sets.old sets.new }
    {
        if m != 1 {
            self.spread(m, sets);
            return;
        }
        // joined to one set, the node's own stand at the front; the empty set changes none
        let set = sets[0];
        self.write_sets(sets);
        let is_empty = set == 0;
        if !is_empty {
            join_block(sets, self.count() as usize, 0, set);
        }
    }
}

impl CountedGate<'_> {
    // Writes the sets of an OR: those of each input behind those of the inputs before it.
    #[cycle(writing)]
    fn write_alternatives(self, sets: &mut [u64])
        requires kind { self.gate.kind ≡ Any }
        requires room { (sets_of self.node).count ≤ length sets.old }
        ensures { Written (sets_of self.entry.node) sets.old sets.new }
    {
        let mut total = 0;
        for j in self.gate.first..self.gate.first + self.gate.inputs {
            let input = self.node.input(j);
            input.write_sets(&mut sets[total..]);
            total += input.count() as usize;
        }
    }

    // Writes the sets of an AND: from the empty set on, those of each input joined to each of those before.
    #[cycle(writing)]
    fn write_unions(self, sets: &mut [u64])
        requires kind { self.gate.kind ≡ All }
        requires room { (sets_of self.node).count ≤ length sets.old }
        ensures { Written (sets_of self.entry.node) sets.old sets.new }
    {
        sets[0] = 0;
        let mut total = 1;
        for j in self.gate.first..self.gate.first + self.gate.inputs {
            let input = self.node.input(j);
            input.write_joined(total, sets);
            total *= input.count() as usize;
        }
    }
}
