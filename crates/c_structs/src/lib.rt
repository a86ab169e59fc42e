// What the calls for C take and answer: structs of C's layout, each made of what the monitor answers.
#![tactic(auto)]

pub mod answer;
pub mod refusal;
pub mod reply;
pub mod set_count;
pub mod standing;
pub mod state;
