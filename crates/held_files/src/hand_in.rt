// Handing in a tree file or an opinion sheet, each as a `HeldFile`, and dropping both.
ghost use Rattle.std.specs.Prelude.{◌≡◌, length};
ghost use Rattle.refusals.specs.FirstFault.{judged_by};
ghost use Rattle.held_files.specs.HandIn.{hand_in_fault, handed_answer, handed_store, nothing_held};

use crate::held::HeldFile;
use crate::state::{Reply, State};
use refusals::refusal::Refusal;
use refusals::rule::Rule;

// Takes in a file: an accepted one is copied to the front of its store. Its length.
fn take_in<F: HeldFile>(file: &[u8], store: &mut [u8]) -> Result<usize, Refusal>
    ensures value { result ≡ judged_by (hand_in_fault (F.fault file.now) file.now store.old) (length file.now) }
    ensures store_after { store.new ≡ handed_store (F.fault file.now) file.now store.old }
{
    F::judge(file)?;
    if store.len() < file.len() {
        return Err(Rule::ShortStore.at(0));
    }
    Ok(byte_copy::copy(file, store))
}

// Hands in a file: an accepted one is copied to the front of its store and replaces the one held. The state and the
// store are no `HeldTree`: this store is written.
pub fn hand_in<F: HeldFile>(state: State, file: &[u8], store: &mut [u8]) -> Reply<()>
    ensures value { result
        ≡ handed_answer (F.fault file.now) file.now store.old state (F.holding (length file.now) state) }
    ensures store_after { store.new ≡ handed_store (F.fault file.now) file.now store.old }
{
    match take_in::<F>(file, store) {
        Ok(len) => Reply {
            state: F::holding(state, len),
            outcome: Ok(()),
        },
        Err(refusal) => Reply {
            state,
            outcome: Err(refusal),
        },
    }
}

// Drops both files. The stores' bytes stay.
pub fn drop_both(_state: State) -> State
    ensures { result ≡ nothing_held }
{
    State::default()
}
