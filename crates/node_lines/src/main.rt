// The node printer: reads a level, a tree file and an opinion sheet on standard input, and prints the ends and marks
// of every node at that level, a line each, or a line that says why not. Where that fails, it says so on standard
// error.
#![tactic(auto)]

use fields::fields::field16_at;
use held_stores::held::Held;
use monitor::question::question;
use printed::no_answer::{NoAnswer, tell};
use printed::shown::Shown;
use program_input::read::{read_end, read_head, read_pair};
use tree_file::format::MAX_NODES;
use work_slices::slices::WorkSlices;

// Questions level k of n, and prints a header, and a line for each node: its number, its lower end and its upper end.
// k and n stand apart, since the input may have any two, which the question then refuses.
fn print_nodes(rt: &impl Print, held: &Held, k: u32, n: u32) -> Result<(), NoAnswer> {
    let counts = held.lent_tree().judge()?;
    // Lent here, as printer does: there is no heap.
    let mut slices = WorkSlices {
        lower: &mut [0; MAX_NODES],
        upper: &mut [0; MAX_NODES],
        marks: &mut [0; MAX_NODES],
    };
    let reply = question(held.lent_pair(), k, n, &mut slices);
    reply.outcome?;
    println!(rt;
        "tree {} events {} nodes {} level {k} of {n}",
        counts.number, counts.events, counts.nodes
    )?;
    // No tree has more nodes, so that all are printed.
    for i in 0..counts.nodes.min(MAX_NODES) {
        let ends = slices.ends(i);
        println!(rt; "{i} {} {}", Shown(ends.lower), Shown(ends.upper))?;
    }
    Ok(())
}

// Reads 16-bit k, n, tree length and sheet length, low byte first, then the two files, and prints the nodes.
fn print_answer(rt: &(impl Input + Print)) -> Result<(), NoAnswer> {
    let head: [u8; 8] = read_head(rt)?;
    let pair = read_pair(rt, field16_at(&head, 4), field16_at(&head, 6))?;
    read_end(rt)?;
    let k = field16_at(&head, 0) as u32;
    let n = field16_at(&head, 2) as u32;
    print_nodes(rt, &pair?, k, n)
}

fn main(rt: HostRuntime) {
    if let Err(no_answer) = print_answer(&rt) {
        tell(&rt, no_answer, "node_lines: the text could not be written");
    }
}
