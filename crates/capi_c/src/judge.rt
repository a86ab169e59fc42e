// Judging a level and both held files, before a question is put.
ghost use Rattle.std.specs.Prelude.{◌≡◌};
ghost use Rattle.held_pair.specs.Standing.{standing_of};
ghost use Rattle.c_structs.specs.State.{held_of};
ghost use Rattle.c_structs.specs.Standing.{standing_for};

use c_structs::standing::Standing;
use c_structs::state::State;

// Whether level k of n can be put to the held pair: refusals 13 and 21 to 24, or the tree's counts.
#[unsafe(no_mangle)]
pub extern "C" fn nekbrod_judge(
    state: State,
    tree_store: &[u8],
    sheet_store: &[u8],
    k: u32,
    n: u32,
) -> Standing
    ensures { result ≡ standing_for
        (standing_of (held_of state) tree_store.now sheet_store.now k n) }
{
    capi::judge::nekbrod_judge(state, tree_store, sheet_store, k, n)
}
