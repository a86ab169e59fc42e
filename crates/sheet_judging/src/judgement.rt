// What judging an opinion sheet answers.

// What an accepted sheet holds: the number of its tree, its basic events (E) and its experts.
#[derive(Clone, Copy)]
pub struct Counts {
    pub number: usize,
    pub events: usize,
    pub experts: usize,
}
