// Runs stored calls: each limit and one past it, each refusal in its turn, and changed bytes and states, of levels,
// minimal cut sets, fraction entries, questions at an hour and silent experts. reference/src/cases/vector_list.rs lists
// them.
#![tactic(auto)]

use stored_calls::run::run;

fn main(rt: HostRuntime) {
    run(&rt);
}
