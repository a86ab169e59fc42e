// The list of calls, one after the other.
use crate::call::{Call, read_call};
use crate::desk::Desk;
use crate::lent::{poke, read_front, resize_front};
use std::io;

impl Desk {
    // Answers a call, and prints what there is after it.
    fn answer(&mut self, rt: &(impl Input + Print), call: Call) -> io::Result<()> {
        match call {
            Call::Stores(tree, sheet) => {
                resize_front(&mut self.tree, tree);
                resize_front(&mut self.sheet, sheet);
            }
            Call::PokeTree(place, byte) => poke(&mut self.tree, place, byte),
            Call::PokeSheet(place, byte) => poke(&mut self.sheet, place, byte),
            Call::Held(state) => self.state = state,
            Call::Tree(length) => self.hand_in_tree(rt, length)?,
            Call::Sheet(length) => self.hand_in_sheet(rt, length)?,
            Call::Drop => self.drop_both(rt)?,
            Call::Judge(k, n) => self.judge(rt, k, n)?,
            Call::Question(asked) => self.question(rt, asked)?,
            Call::Count => self.count(rt)?,
            Call::CutSets(places) => self.list(rt, places)?,
            Call::Book(length) => read_front(rt, length, &mut self.book),
            Call::Hour(hour, buffer) => {
                self.hour = hour;
                self.buffer = buffer;
            }
            Call::HourQuestion(asked) => self.question_at_hour(rt, asked)?,
        }
        Ok(())
    }
}

// A proved loop has to end, so there is a most number of calls. Each program with a list has such a loop: one for all
// would take what reads and what answers as closures, and be no shorter.
pub fn run(rt: &(impl Input + Print)) {
    let mut desk = Desk::empty();
    for _ in 0..100000u64 {
        let Some(call) = read_call(rt) else {
            return;
        };
        // Where a write fails, the list is read on.
        let _ = desk.answer(rt, call);
    }
}
