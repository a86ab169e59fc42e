// Counting and listing the minimal cut sets of the held tree. No sheet is needed.
ghost use Rattle.std.specs.Prelude.{◌≡◌, length};
ghost use Rattle.held_pair.specs.Standing.{held_tree};
ghost use Rattle.cut_sets.specs.Judged.{count_outcome, reply_of};
ghost use Rattle.c_structs.specs.State.{held_of};
ghost use Rattle.c_structs.specs.SetCount.{count_for, listing_for, SliceLeft};

use c_structs::set_count::{Listing, SetCount};
use c_structs::state::State;
use cut_sets::count::count_sets;
use cut_sets::list::list_sets;
use held_pair::lent::HeldTree;

// Counts the minimal cut sets of the held tree: refusals 21, 23 and 26, or their number.
pub fn nekbrod_count_cut_sets(state: State, tree_store: &[u8]) -> SetCount
    ensures { result ≡ count_for (count_outcome (held_of state) tree_store.now) }
{
    let held = HeldTree {
        state: state.into(),
        tree_store,
    };
    count_sets(held).into()
}

// Lists the minimal cut sets of the held tree in the lent slice: refusals 21, 23, 26 and 27, or their number.
#[tactic(auto, using(crate::proofs::SliceLeft::left_by))]
pub fn nekbrod_list_cut_sets(state: State, tree_store: &[u8], sets: &mut [u64]) -> Listing
    ensures value { result ≡ listing_for
        (reply_of (held_of state) tree_store.now (length sets.old)) }
    ensures slice_left { SliceLeft result (held_tree (held_of state) tree_store.now)
        sets.old sets.new }
{
    let held = HeldTree {
        state: state.into(),
        tree_store,
    };
    list_sets(held, sets).into()
}
