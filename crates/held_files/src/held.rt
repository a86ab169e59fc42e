// The files that are held: how each is judged, handed in or in its store, and how a state holds it.
ghost use Rattle.std.specs.Prelude.{◌≡◌, ℕ, List};
ghost use Rattle.refusals.specs.FirstFault.{FirstFault, judged_by};
ghost use Rattle.tree_judging.specs.Judged.{fault_of as tree_fault, counts_of as tree_counts};
ghost use Rattle.sheet_judging.specs.Judged.{fault_of as sheet_fault, counts_of as sheet_counts};
ghost use Rattle.held_files.specs.HandIn.{holding_tree, holding_sheet};
ghost use Rattle.held_files.specs.declared.state.State.{State};

use crate::state::State;
use opinion_sheet::format as sheet;
use refusals::refusal::Refusal;
use sheet_judging::judgement::Counts as SheetCounts;
use tree_file::format as tree;
use tree_judging::judgement::Counts as TreeCounts;

// The most bytes of a tree file, with a link to every node but the root, and of an opinion sheet that can be accepted.
pub const MOST_TREE: usize = tree::HEADER_LENGTH
    + tree::RECORD_LENGTH * tree::MAX_NODES
    + tree::LINK_LENGTH * (tree::MAX_NODES - 1);

pub const MOST_SHEET: usize = sheet::HEADER_LENGTH + sheet::ENTRY_LENGTH * sheet::MAX_EVENTS;

// A kind of file that is held: the first fault of its bytes, what an accepted one holds, and the state that holds it.
pub trait HeldFile {
    type Counts: Drop;

    // The place of refusal 23 of this file.
    const PLACE: usize;

    ghost PLACE: { ℕ };

    ghost fault: { List ℕ → FirstFault };

    ghost counts: { List ℕ → Self.Counts };

    ghost holding: { ℕ → State → State };

    fn judge(file: &[u8]) -> Result<Self::Counts, Refusal>
        ensures { result ≡ judged_by (fault file.now) (counts file.now) };

    // The state that holds such a file of that length, and the other file as before.
    fn holding(state: State, len: usize) -> State
        ensures { result ≡ holding len state };
}

pub struct Tree;

impl HeldFile for Tree {
    type Counts = TreeCounts;

    const PLACE: usize = 0;

    ghost PLACE = { 0 };

    ghost fault = { tree_fault };

    ghost counts = { tree_counts };

    ghost holding = { holding_tree };

    fn judge(file: &[u8]) -> Result<TreeCounts, Refusal> {
        tree_judging::judge::judge(file)
    }

    fn holding(state: State, len: usize) -> State {
        State {
            tree_len: len,
            ..state
        }
    }
}

pub struct Sheet;

impl HeldFile for Sheet {
    type Counts = SheetCounts;

    const PLACE: usize = 1;

    ghost PLACE = { 1 };

    ghost fault = { sheet_fault };

    ghost counts = { sheet_counts };

    ghost holding = { holding_sheet };

    fn judge(file: &[u8]) -> Result<SheetCounts, Refusal> {
        sheet_judging::judge::judge(file)
    }

    fn holding(state: State, len: usize) -> State {
        State {
            sheet_len: len,
            ..state
        }
    }
}
