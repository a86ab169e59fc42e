// Runs stored calls: generated pairs, trees and lists of calls. reference/src/cases/vector_list.rs lists them.
#![tactic(auto)]

use stored_calls::run::run;

fn main(rt: HostRuntime) {
    run(&rt);
}
