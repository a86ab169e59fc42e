// The whole printed text for an input.
ghost use Rattle.std.specs.Prelude.{◌≡◌, ◌≤◌, OnOk};
ghost use Rattle.printer.specs.Text.{first_refusal, levels_text, text_of, whole_text};
ghost use Rattle.level_text.specs.Room.{most_text};
ghost use Rattle.printer.specs.Printed.{answer_of, buffer_after, text_length};

use crate::levels::put_levels;
use held_files::hand_in::hand_in;
use held_files::held::{MOST_SHEET, MOST_TREE, Sheet, Tree};
use held_files::state::State;
use held_pair::lent::HeldPair;
use level_input::input::{Files, files_of};
use level_text::draft::Draft;
use refusals::refusal::Refusal;

// A buffer is shorter than the text, whose length this says.
#[derive(Clone, Copy)]
pub struct TooShort {
    pub length: usize,
}

// Hands in the tree, then the sheet, and puts their levels, or answers the first refusal. held_stores' `Held::pair`
// hands in both too: one for the two would bring stores into the monitor, which holds none.
fn hand_in_both(files: Files, draft: &mut Draft) -> Result<(), Refusal>
    ensures refusal { result ≡ first_refusal files.entry.tree.now files.entry.sheet.now files.entry.n }
    ensures text { OnOk result
        (draft.new ≡ levels_text files.entry.tree.now files.entry.sheet.now files.entry.n) }
{
    // Written out: tried with `State::default()`, with which this function was not proved.
    let nothing = State {
        tree_len: 0,
        sheet_len: 0,
    };
    let mut tree_store = [0u8; MOST_TREE];
    let with_tree = hand_in::<Tree>(nothing, files.tree, &mut tree_store);
    with_tree.outcome?;
    let mut sheet_store = [0u8; MOST_SHEET];
    let with_both = hand_in::<Sheet>(with_tree.state, files.sheet, &mut sheet_store);
    with_both.outcome?;
    let held = HeldPair {
        state: with_both.state,
        tree_store: &tree_store,
        sheet_store: &sheet_store,
    };
    put_levels(held, files.n, draft)
}

// Puts the text for two files: their levels, or the first refusal alone.
#[tactic(auto, unfolding(crate::specs::Text::text_of))]
fn put_files(files: Files, draft: &mut Draft)
    ensures { draft.new ≡ text_of files.entry.tree.now files.entry.sheet.now files.entry.n }
{
    if let Err(refusal) = hand_in_both(files, draft) {
        draft.put_refusal(refusal);
    }
}

// Puts the text for an input.
#[tactic(auto, unfolding(crate::specs::Text::whole_text))]
fn put_text(input: &[u8], draft: &mut Draft)
    ensures { draft.new ≡ whole_text input.now }
{
    match files_of(input) {
        Some(files) => put_files(files, draft),
        None => draft.put_input(),
    }
}

// Prints the levels of an input into a lent buffer: the text's length. A buffer too short for it stays as it was.
#[tactic(auto, unfolding(crate::specs::Printed::answer_of, crate::specs::Printed::buffer_after))]
pub fn print_levels(input: &[u8], buffer: &mut [u8]) -> Result<usize, TooShort>
    ensures value { result ≡ answer_of input.now buffer.old }
    ensures buffer_after { buffer.new ≡ buffer_after input.now buffer.old }
    ensures result_bound { text_length result ≤ most_text }
{
    let mut draft = Draft::new();
    put_text(input, &mut draft);
    let text = draft.bytes();
    if buffer.len() < text.len() {
        return Err(TooShort { length: text.len() });
    }
    Ok(byte_copy::copy(text, buffer))
}
