// The first phase: the cut of each basic event to its node's place.
ghost use Rattle.std.specs.Prelude.{◌≡◌, suc, ◌<◌, Ok};
ghost use Rattle.theory.specs.Unit.{billion};
ghost use Rattle.tree_file.specs.Format.{node_count};
ghost use Rattle.tree_file.specs.NodeTable.{read_node};
ghost use Rattle.tree_file.specs.Tallies.{event_count};
ghost use Rattle.tree_file.specs.WellFormed.{WellFormed};
ghost use Rattle.opinion_sheet.specs.Format.{event_count as entry_count};
ghost use Rattle.sheet_judging.specs.Judged.{counts_of, judged};
ghost use Rattle.event_cut.specs.EventCut.{cut_at};
ghost use Rattle.work_slices.specs.Slices.{contents, SameSlices, Long, after_turns};
ghost use Rattle.evaluation.specs.Phases.{event_put, event_turn};

use event_cut::cut::cut_at;
use event_cut::level::Level;
use tree_file::format::node_count;
use tree_file::node::{Node, node_at};
use work_slices::slices::WorkSlices;

// The cuts of a tree's basic events: those of a sheet with as many entries, at a level. A ghost field holds no
// `WellFormed` sheet, which names a speaker, but that it is accepted, which says the same.
#[derive(Clone, Copy)]
pub struct EventCuts<'a> {
    pub tree: &'a [u8],
    pub sheet: &'a [u8],
    pub level: Level,
    pub ghost tree_well_formed: { WellFormed tree.now },
    pub ghost sheet_accepted: { judged sheet.now ≡ Ok (counts_of sheet.now) },
    pub ghost same_events: { entry_count sheet.now ≡ event_count tree.now },
}

impl EventCuts<'_> {
    // Puts the cut of node i, if it is a basic event.
    fn put_event(self, i: usize, slices: &mut WorkSlices)
        requires inside { i < node_count self.tree.now }
        requires long { Long (suc i) (contents slices.old) }
        ensures same_slices { SameSlices slices.new slices.old }
        ensures value { contents slices.new
            ≡ event_put (λ e. cut_at billion self.entry.sheet.now e self.entry.level.k self.entry.level.n) i
            (read_node self.entry.tree.now i) (contents slices.old) }
    {
        if let Node::Event(event) = node_at(self.tree, i) {
            slices.put(i, cut_at(self.sheet, event, self.level));
        }
    }

    // Puts the cuts of all basic events.
    pub fn put_events(self, slices: &mut WorkSlices)
        requires { Long (node_count self.tree.now) (contents slices.old) }
        ensures same_slices { SameSlices slices.new slices.old }
        ensures value { contents slices.new
            ≡ after_turns
            (event_turn (λ e. cut_at billion self.entry.sheet.now e self.entry.level.k self.entry.level.n)
            self.entry.tree.now) (node_count self.entry.tree.now) (contents slices.old) }
    {
        let nodes = node_count(self.tree);
        for i in 0..nodes {
            self.put_event(i, slices);
        }
    }
}
