// Runs the level printer on many inputs: each has its length before it, 32 bits wide, low byte first, and so has each
// text that is printed for one. reference/src/framing.rs writes and reads the same.
#![tactic(auto)]

use level_text::draft::MOST_TEXT;
use printer::print::print_levels;
use program_input::read::{WrongInput, read_file, read_head};
use std::io;

// Reads an input to the front of the room.
fn read_input<'a>(rt: &impl Input, room: &'a mut [u8]) -> Result<&'a [u8], WrongInput> {
    let length = u32::from_le_bytes(read_head(rt)?);
    read_file(rt, length as usize, room)
}

// Prints the levels of an input. The printer is lent a buffer, and answers how much of it is text.
fn print_answer(rt: &impl Print, input: &[u8]) -> io::Result<()> {
    let mut text = [0u8; MOST_TEXT];
    if let Ok(length) = print_levels(input, &mut text) {
        // The text is written also where its length could not be.
        let length_written = rt.write_all(&(length as u32).to_le_bytes());
        let text_written = rt.write_all(&text[..length]);
        return length_written.and(text_written);
    }
    Ok(())
}

// Answers each input up to the end of the stream, or to one that there is no room for. A proved loop has to end, so
// there is a most number of inputs; stored_calls says why the loop is not shared.
fn run(rt: &(impl Input + Print)) {
    let mut room = [0u8; 65536];
    for _ in 0..100000u32 {
        let Ok(input) = read_input(rt, &mut room) else {
            return;
        };
        // Where a write fails, the stream is read on.
        let _ = print_answer(rt, input);
    }
}

fn main(rt: HostRuntime) {
    run(&rt);
}
