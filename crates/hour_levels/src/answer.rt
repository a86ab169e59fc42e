// What is printed for a pair, a book and an hour.
use arrayvec::ArrayVec;
use fields::fields::{field16_at, field32_at};
use held_files::held::MOST_SHEET;
use held_stores::held::{Held, LEVELS_HEAD, MOST_LEVELS_INPUT};
use hour_sheet::hour::BookAtHour;
use level_text::draft::MOST_TEXT;
use printed::no_answer::NoAnswer;
use printer::print::print_levels;
use program_input::read::{read_end, read_file, read_head, read_pair};
use refusals::refusal::Refusal;
use std::io;
use std::io::Write;
use tree_file::format::MAX_NODES;
use work_slices::slices::WorkSlices;
use work_windows::question::question_at_hour;

// Reads 16-bit n, tree length, sheet length and book length and a 32-bit hour, low byte first, then the tree, the
// sheet and the book, and prints the levels of the hour. The head begins as the level printer's does.
pub fn print_answer(rt: &(impl Input + Print)) -> Result<(), NoAnswer> {
    let head: [u8; 12] = read_head(rt)?;
    let pair = read_pair(rt, field16_at(&head, 2), field16_at(&head, 4))?;
    let mut book = [0; 65535];
    let book = read_file(rt, field16_at(&head, 6), &mut book)?;
    read_end(rt)?;
    let held = pair?;
    let at = BookAtHour {
        book,
        hour: field32_at(&head, 8),
    };
    let n = field16_at(&head, 0) as u32;
    let sheet = sheet_at_hour(&held, at, n)?;
    let tree = &held.tree[..held.state.tree_len];
    print_text(
        rt,
        &head[..LEVELS_HEAD],
        tree,
        &sheet[..held.state.sheet_len],
    )?;
    Ok(())
}

// The sheet that a question of level n of n leaves in its buffer.
fn sheet_at_hour(held: &Held, at: BookAtHour, n: u32) -> Result<[u8; MOST_SHEET], Refusal> {
    let mut sheet = [0; MOST_SHEET];
    // Lent here, as printer does: there is no heap.
    let mut slices = WorkSlices {
        lower: &mut [0; MAX_NODES],
        upper: &mut [0; MAX_NODES],
        marks: &mut [0; MAX_NODES],
    };
    let reply = question_at_hour(held.lent_pair(), at, n, n, &mut sheet, &mut slices);
    reply.outcome?;
    Ok(sheet)
}

// Prints the level printer's text for a tree and a sheet. The printer is lent a buffer, and answers how much of it is
// text.
fn print_text(rt: &impl Print, head: &[u8], tree: &[u8], sheet: &[u8]) -> io::Result<()> {
    let mut input: ArrayVec<u8, MOST_LEVELS_INPUT> = ArrayVec::new();
    input.write_all(head)?;
    input.write_all(tree)?;
    input.write_all(sheet)?;
    let mut text = [0; MOST_TEXT];
    if let Ok(length) = print_levels(&input, &mut text) {
        rt.write_all(&text[..length])?;
    }
    Ok(())
}
