// Handing in a tree file or an opinion sheet, and dropping both.
ghost use Rattle.std.specs.Prelude.{◌≡◌};
ghost use Rattle.held_files.specs.HandIn.{tree_answer, tree_store, sheet_answer, sheet_store, nothing_held};
ghost use Rattle.c_structs.specs.State.{held_of, state_of};
ghost use Rattle.c_structs.specs.Answer.{answer_for};

use c_structs::answer::Answer;
use c_structs::state::State;
use held_files::hand_in::{drop_both, hand_in};
use held_files::held::{Sheet, Tree};

// Hands in a tree file: an accepted one is copied to the front of its store and replaces the one held.
pub fn nekbrod_hand_in_tree(state: State, file: &[u8], store: &mut [u8]) -> Answer
    ensures value { result ≡ answer_for (tree_answer (held_of state) file.now store.old) }
    ensures store_after { store.new ≡ tree_store file.now store.old }
{
    hand_in::<Tree>(state.into(), file, store).into()
}

// Hands in an opinion sheet: an accepted one is copied to the front of its store and replaces the one held.
pub fn nekbrod_hand_in_sheet(state: State, file: &[u8], store: &mut [u8]) -> Answer
    ensures value { result ≡ answer_for (sheet_answer (held_of state) file.now store.old) }
    ensures store_after { store.new ≡ sheet_store file.now store.old }
{
    hand_in::<Sheet>(state.into(), file, store).into()
}

// Drops both files. The stores' bytes stay.
pub fn nekbrod_drop_both(state: State) -> State
    ensures { result ≡ state_of nothing_held }
{
    drop_both(state.into()).into()
}
