// The mirror of two files: reads a tree file and an opinion sheet on standard input, and writes the mirrored tree
// file and after it the mirrored sheet, or a line that says why not. Where that fails, it says so on standard error.
#![tactic(auto)]

use fields::fields::field16_at;
use held_files::held::{MOST_SHEET, MOST_TREE};
use held_stores::held::Held;
use printed::no_answer::{NoAnswer, tell};
use program_input::read::{read_end, read_head, read_pair};
use success_tree::write::write_success_tree;

// Mirrors the held pair, and writes the tree file and then the sheet.
fn write_mirror(rt: &impl Print, held: &Held) -> Result<(), NoAnswer> {
    let mut tree = [0; MOST_TREE];
    let mut sheet = [0; MOST_SHEET];
    let reply = write_success_tree(held.lent_pair(), &mut tree, &mut sheet);
    reply.outcome?;
    // The sheet is written also where the tree could not be.
    let tree_written = rt.write_all(&tree[..held.state.tree_len]);
    let sheet_written = rt.write_all(&sheet[..held.state.sheet_len]);
    Ok(tree_written.and(sheet_written)?)
}

// Reads the 16-bit lengths of the tree file and of the opinion sheet, low byte first, then the two files, and writes
// the mirrored ones.
fn write_answer(rt: &(impl Input + Print)) -> Result<(), NoAnswer> {
    let head: [u8; 4] = read_head(rt)?;
    let pair = read_pair(rt, field16_at(&head, 0), field16_at(&head, 2))?;
    read_end(rt)?;
    write_mirror(rt, &pair?)
}

fn main(rt: HostRuntime) {
    if let Err(no_answer) = write_answer(&rt) {
        tell(
            &rt,
            no_answer,
            "mirror_files: the files could not be written",
        );
    }
}
