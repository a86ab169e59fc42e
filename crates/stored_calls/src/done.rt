// The answer of a call that gives no number, as it is printed.
use held_pair::lent::HeldPair;
use printed::no_answer::print_refusal;
use printed::shown::write_after;
use refusals::refusal::Refusal;
use std::io;

// Prints the word of a call that was done, or its refusal, and then the state and both stores.
pub fn print_done(
    rt: &impl Print,
    outcome: Result<(), Refusal>,
    done: &str,
    after: HeldPair,
) -> io::Result<()> {
    match outcome {
        Ok(()) => println!(rt; "{done}")?,
        Err(refusal) => print_refusal(rt, refusal)?,
    }
    write_after(rt, after)
}
