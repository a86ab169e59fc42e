// What judging a tree file answers.

// What an accepted tree file holds: its tree number, its nodes (N) and its basic events (E).
#[derive(Clone, Copy)]
pub struct Counts {
    pub number: usize,
    pub nodes: usize,
    pub events: usize,
}
