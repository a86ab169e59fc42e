// Runs the calls of the mirror on standard input, and prints each answer with the state and both buffers after it.
// reference/src/mirror_calls.rs says the list's format, and prints the same text from a second monitor.
#![tactic(auto)]

mod call;
mod run;

fn main(rt: HostRuntime) {
    run::run(&rt);
}
