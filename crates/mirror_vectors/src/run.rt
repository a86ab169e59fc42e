// The list of calls, one after the other.
use crate::call::{Call, read_call};
use held_pair::lent::HeldPair;
use std::io;
use stored_calls::done::print_done;
use stored_calls::lent::{Front, filled_front, read_front};
use success_tree::write::write_success_tree;

// No list of calls has a longer store or buffer.
const TREE_ROOM: usize = 8000;

const SHEET_ROOM: usize = 18000;

// Reads the stores of a call, mirrors into buffers that are filled so that what a call leaves alone is seen, and
// prints what there is after it.
fn answer(
    rt: &(impl Input + Print),
    call: Call,
    tree: &mut Front<u8, TREE_ROOM>,
    sheet: &mut Front<u8, SHEET_ROOM>,
) -> io::Result<()> {
    read_front(rt, call.tree_store, tree);
    read_front(rt, call.sheet_store, sheet);
    let mut tree_buffer: Front<u8, TREE_ROOM> = filled_front(238, call.tree_buffer);
    let mut sheet_buffer: Front<u8, SHEET_ROOM> = filled_front(238, call.sheet_buffer);
    let held = HeldPair {
        state: call.state,
        tree_store: tree,
        sheet_store: sheet,
    };
    let reply = write_success_tree(held, &mut tree_buffer, &mut sheet_buffer);
    let mirrored = HeldPair {
        state: reply.state,
        tree_store: &tree_buffer,
        sheet_store: &sheet_buffer,
    };
    print_done(rt, reply.outcome, "mirrored", mirrored)
}

// A proved loop has to end, so there is a most number of calls. Each program with a list has such a loop: one for all
// would take what reads and what answers as closures, and be no shorter.
pub fn run(rt: &(impl Input + Print)) {
    // Where the last call is cut short, what doesn't come is what the call before left.
    let mut tree = filled_front(0, 0);
    let mut sheet = filled_front(0, 0);
    for _ in 0..100000u64 {
        let Some(call) = read_call(rt) else {
            return;
        };
        // Where a write fails, the list is read on.
        let _ = answer(rt, call, &mut tree, &mut sheet);
    }
}
