// Handing in a tree file or an opinion sheet, and dropping both.
ghost use Rattle.std.specs.Prelude.{◌≡◌};
ghost use Rattle.held_files.specs.HandIn.{tree_answer, tree_store, sheet_answer, sheet_store, nothing_held};
ghost use Rattle.c_structs.specs.State.{held_of, state_of};
ghost use Rattle.c_structs.specs.Answer.{answer_for};

use c_structs::answer::Answer;
use c_structs::state::State;

// Hands in a tree file: an accepted one is copied to the front of its store and replaces the one held.
#[unsafe(no_mangle)]
pub extern "C" fn nekbrod_hand_in_tree(state: State, file: &[u8], store: &mut [u8]) -> Answer
    ensures value { result ≡ answer_for (tree_answer (held_of state) file.now store.old) }
    ensures store_after { store.new ≡ tree_store file.now store.old }
{
    capi::hand_in::nekbrod_hand_in_tree(state, file, store)
}

// Hands in an opinion sheet: an accepted one is copied to the front of its store and replaces the one held.
#[unsafe(no_mangle)]
pub extern "C" fn nekbrod_hand_in_sheet(state: State, file: &[u8], store: &mut [u8]) -> Answer
    ensures value { result ≡ answer_for (sheet_answer (held_of state) file.now store.old) }
    ensures store_after { store.new ≡ sheet_store file.now store.old }
{
    capi::hand_in::nekbrod_hand_in_sheet(state, file, store)
}

// Drops both files. The stores' bytes stay.
#[unsafe(no_mangle)]
pub extern "C" fn nekbrod_drop_both(state: State) -> State
    ensures { result ≡ state_of nothing_held }
{
    capi::hand_in::nekbrod_drop_both(state)
}
