// Sets joined to those at the front of a slice, block by block. How many stand there is a number beside the slice,
// since it is another at each input.
ghost use Rattle.std.specs.Prelude.{◌+◌, ◌*◌, ◌≤◌, ◌<◌, length};
ghost use Rattle.node_sets.specs.Counted.{sets_of};
ghost use Rattle.node_sets.specs.Requirements.{Block, UnionsWritten};

use crate::counted::CountedNode;

// Joins a set to each of the first m; the unions stand from place `to` on, behind them or in their place.
pub fn join_block(sets: &mut [u64], m: usize, to: usize, set: u64)
    requires m_in_bounds { to + m ≤ length sets.old }
    requires m_le_to { 0 < to → m ≤ to }
    ensures { Block m to set sets.old sets.new }
{
    for p in 0..m {
        sets[to + p] = sets[p] | set;
    }
}

impl CountedNode<'_> {
    // Joins each of the node's sets to each of the first m: a block of m places for each, the first block last.
    pub(crate) fn spread(self, m: usize, sets: &mut [u64])
        requires { m * (sets_of self).count ≤ length sets.old }
        ensures { UnionsWritten (sets_of self.entry) m sets.old sets.new }
    {
        for q in (0..self.count()).rev() {
            join_block(sets, m, q as usize * m, self.set(q));
        }
    }
}
