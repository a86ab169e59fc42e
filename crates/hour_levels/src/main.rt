// The hour printer: reads a tree file, an opinion sheet, a book of work windows and an hour on standard input, and
// writes the levels of that hour. Where that fails, it says so on standard error.
#![tactic(auto)]

mod answer;

use printed::no_answer::tell;

fn main(rt: HostRuntime) {
    if let Err(no_answer) = answer::print_answer(&rt) {
        tell(&rt, no_answer, "hour_levels: the text could not be written");
    }
}
