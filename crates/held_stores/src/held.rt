// A held state with its two stores.
ghost use Rattle.std.specs.Prelude.{◌≡◌, ◌≤◌, IfOk, IfErr, replicate};
ghost use Rattle.held_files.specs.declared.held.TheConstants.{MOST_TREE, MOST_SHEET};

use held_files::hand_in::hand_in;
use held_files::held::{MOST_SHEET, MOST_TREE, Sheet, Tree};
use held_files::state::State;
use held_pair::lent::{HeldPair, HeldTree};
use refusals::refusal::Refusal;

// The level printer's input: n and the lengths of the tree and of the sheet, each 16 bits wide, and then the files.
pub const LEVELS_HEAD: usize = 6;

pub const MOST_LEVELS_INPUT: usize = LEVELS_HEAD + MOST_TREE + MOST_SHEET;

// The state, and stores that no accepted file is too long for: fixed arrays, since the project has no heap. How much
// of each is in use is in the state, as the monitor answers it.
#[derive(Drop)]
pub struct Held {
    pub state: State,
    pub tree: [u8; MOST_TREE],
    pub sheet: [u8; MOST_SHEET],
    ghost tree_inside: { state.tree_len ≤ MOST_TREE },
    ghost sheet_inside: { state.sheet_len ≤ MOST_SHEET },
}

// Two functions hand in, each to its own store: one for both would be told which, and be no shorter.
impl Held {
    ghost use Rattle.held_files.specs.HandIn.{tree_answer, tree_store, sheet_answer, sheet_store, nothing_held};
    ghost use Rattle.held_stores.specs.Pair.{HoldsPair, pair_fault};

    // Nothing, in stores of zeros.
    pub fn nothing() -> Held
        ensures state { result.state ≡ nothing_held }
        ensures tree { result.tree ≡ replicate MOST_TREE 0 }
        ensures sheet { result.sheet ≡ replicate MOST_SHEET 0 }
    {
        Held {
            state: State::default(),
            tree: [0; MOST_TREE],
            sheet: [0; MOST_SHEET],
        }
    }

    // Hands in a tree file.
    pub fn hand_in_tree(&mut self, file: &[u8]) -> Result<(), Refusal>
        ensures answer { record { state = self.new.state; outcome = result } ≡ tree_answer self.old.state file.now self.old.tree }
        ensures tree { self.new.tree ≡ tree_store file.now self.old.tree }
        ensures sheet { self.new.sheet ≡ self.old.sheet }
    {
        let answer = hand_in::<Tree>(self.state, file, &mut self.tree);
        self.state = answer.state;
        answer.outcome
    }

    // Hands in an opinion sheet.
    pub fn hand_in_sheet(&mut self, file: &[u8]) -> Result<(), Refusal>
        ensures answer { record { state = self.new.state; outcome = result } ≡ sheet_answer self.old.state file.now self.old.sheet }
        ensures sheet { self.new.sheet ≡ sheet_store file.now self.old.sheet }
        ensures tree { self.new.tree ≡ self.old.tree }
    {
        let answer = hand_in::<Sheet>(self.state, file, &mut self.sheet);
        self.state = answer.state;
        answer.outcome
    }

    // Hands in a tree file, and then an opinion sheet.
    pub fn pair(tree: &[u8], sheet: &[u8]) -> Result<Held, Refusal>
        ensures held { IfOk result (λ held. HoldsPair held tree.now sheet.now) }
        ensures refused { IfErr result (λ refusal. pair_fault tree.now sheet.now ≡ Err refusal) }
    {
        let mut held = Held::nothing();
        held.hand_in_tree(tree)?;
        held.hand_in_sheet(sheet)?;
        Ok(held)
    }

    // What a call on the tree is lent.
    pub fn lent_tree(&self) -> HeldTree<'_>
        ensures state { result.state ≡ self.now.state }
        ensures tree { result.tree_store.now ≡ self.now.tree }
    {
        let HeldPair {
            state,
            tree_store,
            ..
        } = self.lent_pair();
        HeldTree { state, tree_store }
    }

    // What a call on the pair is lent.
    pub fn lent_pair(&self) -> HeldPair<'_>
        ensures state { result.state ≡ self.now.state }
        ensures tree { result.tree_store.now ≡ self.now.tree }
        ensures sheet { result.sheet_store.now ≡ self.now.sheet }
    {
        HeldPair {
            state: self.state,
            tree_store: &self.tree,
            sheet_store: &self.sheet,
        }
    }
}
