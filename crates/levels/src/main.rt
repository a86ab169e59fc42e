// The level printer: reads standard input to its end, and writes the text that is printed for it. Where that fails,
// it says so on standard error.
#![tactic(auto)]

use held_stores::held::MOST_LEVELS_INPUT;
use level_text::draft::MOST_TEXT;
use printer::print::print_levels;
use program_input::read::read_full;

// One byte more than the largest input, so that a longer one is seen.
const ROOM: usize = MOST_LEVELS_INPUT + 1;

fn main(rt: HostRuntime) {
    let mut input = [0u8; ROOM];
    let input = read_full(&rt, &mut input);
    // The printer is lent a buffer, and answers how much of it is text.
    let mut text = [0u8; MOST_TEXT];
    if let Ok(length) = print_levels(input, &mut text)
        && rt.write_all(&text[..length]).is_err()
    {
        let _ = eprintln!(rt; "levels: the text could not be written");
    }
}
