// What is held, with the stores that hold it: each call is lent its own.
use held_files::state::State;

// What is held, with the store of the tree file.
#[derive(Clone, Copy)]
pub struct HeldTree<'a> {
    pub state: State,
    pub tree_store: &'a [u8],
}

// What is held, with the stores of the tree file and of the opinion sheet.
#[derive(Clone, Copy)]
pub struct HeldPair<'a> {
    pub state: State,
    pub tree_store: &'a [u8],
    pub sheet_store: &'a [u8],
}
