// The minimal cut sets of a tree file: reads the file from standard input, and prints how many there are and then
// each set on a line, or the refusal of the file. Where that fails, it says so on standard error.
#![tactic(auto)]

mod answer;
mod line;

use printed::no_answer::tell;

fn main(rt: HostRuntime) {
    if let Err(no_answer) = answer::print_answer(&rt) {
        tell(
            &rt,
            no_answer,
            "cut_set_lines: the text could not be written",
        );
    }
}
