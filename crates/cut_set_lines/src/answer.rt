// What is printed for a tree file.
use crate::line::print_set;
use cut_sets::count::count_sets;
use cut_sets::list::list_sets;
use held_stores::held::Held;
use printed::no_answer::NoAnswer;
use program_input::read::read_full;

// The most sets that are listed.
const MOST_SETS: usize = 100000;

// Lists the sets of the held tree, and prints a line for each.
fn print_sets(rt: &impl Print, held: &Held) -> Result<(), NoAnswer> {
    let mut sets = [0; MOST_SETS];
    let reply = list_sets(held.lent_tree(), &mut sets);
    let count = reply.outcome?;
    for set in sets.iter().take(count as usize) {
        print_set(rt, *set)?;
    }
    Ok(())
}

// Reads a tree file, and prints a header, and the sets where they are not too many.
pub fn print_answer(rt: &(impl Input + Print + Eprint)) -> Result<(), NoAnswer> {
    // Of a longer input its first 65,536 bytes are judged, which are too long for any tree file.
    let mut file = [0; 65536];
    let file = read_full(rt, &mut file);
    let mut held = Held::nothing();
    held.hand_in_tree(file)?;
    let counts = held.lent_tree().judge()?;
    let count = count_sets(held.lent_tree())?;
    println!(rt;
        "tree {} events {} cut sets {count}",
        counts.number, counts.events
    )?;
    if count > MOST_SETS as u64 {
        let _ = eprintln!(rt;
            "cut_set_lines: no set is listed, since there are more than {MOST_SETS}"
        );
        return Ok(());
    }
    print_sets(rt, &held)
}
