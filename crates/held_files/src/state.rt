// What the monitor holds between calls, and what a call answers. The stores that hold the bytes are lent each time.
use refusals::refusal::Refusal;

// The lengths of the tree file and of the opinion sheet that are held, 0 where none is: no file of 0 bytes is accepted.
#[derive(Clone, Copy, Default)]
pub struct State {
    pub tree_len: usize,
    pub sheet_len: usize,
}

// What a call answers: the state after it, and the outcome or the refusal.
#[derive(Clone, Copy)]
pub struct Reply<T> {
    pub state: State,
    pub outcome: Result<T, Refusal>,
}
