// What the calls work on.
ghost use Rattle.std.specs.Prelude.{◌≡◌, take};

use crate::lent::{Front, filled_front};
use held_files::state::State;
use held_pair::lent::{HeldPair, HeldTree};
use printed::shown::write_after;
use std::io;

// The held state and the two stores, and what is lent at an hour: the book, the hour, and the length of the buffer.
// The list sets how long the stores are and what they hold, which a `Held` does not allow.
#[derive(Drop)]
pub struct Desk {
    pub state: State,
    pub tree: Front<u8, 7200>,
    pub sheet: Front<u8, 17500>,
    pub book: Front<u8, 2600>,
    pub hour: u32,
    pub buffer: usize,
}

impl Desk {
    // Nothing held, two empty stores, an empty book, hour 0 and no buffer.
    pub fn empty() -> Desk {
        Desk {
            state: State::default(),
            tree: filled_front(0, 0),
            sheet: filled_front(0, 0),
            book: filled_front(0, 0),
            hour: 0,
            buffer: 0,
        }
    }

    // What a call on the tree is lent.
    pub fn lent_tree(&self) -> HeldTree<'_>
        ensures state { result.state ≡ self.now.state }
        ensures tree { result.tree_store.now ≡ take self.now.tree.count self.now.tree.room }
    {
        HeldTree {
            state: self.state,
            tree_store: &self.tree,
        }
    }

    // What a call on the pair is lent.
    pub fn lent_pair(&self) -> HeldPair<'_>
        ensures state { result.state ≡ self.now.state }
        ensures tree { result.tree_store.now ≡ take self.now.tree.count self.now.tree.room }
        ensures sheet { result.sheet_store.now ≡ take self.now.sheet.count self.now.sheet.room }
    {
        HeldPair {
            state: self.state,
            tree_store: &self.tree,
            sheet_store: &self.sheet,
        }
    }

    // Prints the state and both stores.
    pub fn print_after(&self, rt: &impl Print) -> io::Result<()> {
        write_after(rt, self.lent_pair())
    }
}
