// Counting and listing minimal cut sets, each with what it prints.
use crate::desk::Desk;
use crate::lent::{Front, filled_front};
use cut_sets::count::count_sets;
use cut_sets::list::list_sets;
use printed::checksum::PRIME;
use printed::no_answer::print_refusal;
use refusals::refusal::Refusal;
use std::io;

// Every place of the lent slice before a call: ee in every byte.
const FILL: u64 = 17216961135462248174;

fn print_count(rt: &impl Print, outcome: Result<u64, Refusal>) -> io::Result<()> {
    match outcome {
        Ok(count) => println!(rt; "cut sets {count}"),
        Err(refusal) => print_refusal(rt, refusal),
    }
}

// Of a lent slice with so many sets at its front prints sums that do not depend on their order, of their numbers and
// of the squares of these, and how many places behind them still hold the fill.
fn print_sets(rt: &impl Print, count: usize, sets: &[u64]) -> io::Result<()> {
    let (listed, others) = sets.split_at(count.min(sets.len()));
    let numbers = listed
        .iter()
        .fold(0, |sum, set| (sum % PRIME + set % PRIME) % PRIME);
    let squares = listed.iter().fold(0, |sum, set| {
        (sum % PRIME + (set % PRIME) * (set % PRIME) % PRIME) % PRIME
    });
    let left = others.iter().filter(|place| **place == FILL).count();
    println!(rt; "sets {} {numbers} {squares} left {left}", sets.len())
}

impl Desk {
    // Counts the sets.
    pub fn count(&self, rt: &impl Print) -> io::Result<()> {
        print_count(rt, count_sets(self.lent_tree()))?;
        self.print_after(rt)
    }

    // Lists the sets in a slice of so many places.
    pub fn list(&mut self, rt: &impl Print, places: usize) -> io::Result<()> {
        let mut sets: Front<u64, 4096> = filled_front(FILL, places);
        let reply = list_sets(self.lent_tree(), &mut sets);
        self.state = reply.state;
        print_count(rt, reply.outcome)?;
        self.print_after(rt)?;
        print_sets(rt, reply.outcome.unwrap_or(0) as usize, &sets)
    }
}
