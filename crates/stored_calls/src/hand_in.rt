// Handing in a tree or a sheet, and dropping both, each with what it prints.
use crate::desk::Desk;
use crate::done::print_done;
use crate::lent::{Front, filled_front, read_front};
use held_files::hand_in::{drop_both, hand_in};
use held_files::held::{Sheet, Tree};
use held_files::state::Reply;
use std::io;

// Two functions hand in, each to its own store: one for both would be told which, and be no shorter.
impl Desk {
    // Hands in a tree file of that length, which is read.
    pub fn hand_in_tree(&mut self, rt: &(impl Input + Print), length: usize) -> io::Result<()> {
        let mut file: Front<u8, 17500> = filled_front(0, 0);
        read_front(rt, length, &mut file);
        let answer = hand_in::<Tree>(self.state, &file, &mut self.tree);
        self.print_answer(rt, answer)
    }

    // Hands in an opinion sheet of that length, which is read.
    pub fn hand_in_sheet(&mut self, rt: &(impl Input + Print), length: usize) -> io::Result<()> {
        let mut file: Front<u8, 17500> = filled_front(0, 0);
        read_front(rt, length, &mut file);
        let answer = hand_in::<Sheet>(self.state, &file, &mut self.sheet);
        self.print_answer(rt, answer)
    }

    fn print_answer(&mut self, rt: &impl Print, answer: Reply<()>) -> io::Result<()> {
        self.state = answer.state;
        print_done(rt, answer.outcome, "accepted", self.lent_pair())
    }

    pub fn drop_both(&mut self, rt: &impl Print) -> io::Result<()> {
        self.state = drop_both(self.state);
        print_done(rt, Ok(()), "dropped", self.lent_pair())
    }
}
