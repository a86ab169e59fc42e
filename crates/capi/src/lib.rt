// The monitor's calls for C and Rust: numbers, lent slices and the structs of c_structs by value. capi_c exports them.
// The C interface fixes their parameters: a level is two numbers, the work slices are three, a mirror's buffers two,
// and the state goes by value with its stores lent beside it.
#![tactic(auto)]

pub mod dual_pair;
pub mod hand_in;
pub mod hour;
pub mod judge;
pub mod minimal_cut_sets;
pub mod question;
pub mod version;
