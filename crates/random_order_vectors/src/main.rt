// Runs stored calls: every level of two pairs several times, in a random order. reference/src/cases/vector_list.rs
// lists them.
#![tactic(auto)]

use stored_calls::run::run;

fn main(rt: HostRuntime) {
    run(&rt);
}
