// The alpha-cut of an event at a level: the mean of its opinions, or its figures, cut and rounded outward once. The
// main contract is that of `cut::cut_at`.
#![tactic(auto)]

pub mod cut;
pub mod level;
pub mod mean;
mod terms;
