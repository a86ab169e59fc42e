// The fields of the printer's input, and the two files that follow them.
ghost use Rattle.std.specs.Prelude.{◌≡◌, ◌+◌, ◌<◌, ◌≤◌, length, is_some, IfSome};
ghost use Rattle.held_files.specs.Largest.{most_tree, most_sheet};
ghost use Rattle.level_input.specs.Input.{level_count, sheet_bytes, tree_bytes, well_framed};

use fields::fields::field16_at;
use held_files::held::{MOST_SHEET, MOST_TREE};

// Where the fields stand, each 16 bits wide, and where the files begin.
const LEVELS_PLACE: usize = 0;

const TREE_LENGTH_PLACE: usize = 2;

const SHEET_LENGTH_PLACE: usize = 4;

const FILES_PLACE: usize = 6;

// A tree file and an opinion sheet of lengths that can be accepted, and the number of levels to print.
#[derive(Clone, Copy)]
pub struct Files<'a> {
    pub n: u32,
    pub tree: &'a [u8],
    pub sheet: &'a [u8],
    pub ghost tree_fits: { length tree.now ≤ most_tree },
    pub ghost sheet_fits: { length sheet.now ≤ most_sheet },
}

// The length that both files' lengths require, in a width where their sum does not wrap.
fn required_length(tree_len: usize, sheet_len: usize) -> usize
    requires { (tree_len < 65536) × (sheet_len < 65536) }
    ensures { result ≡ 6 + tree_len + sheet_len }
{
    FILES_PLACE + tree_len + sheet_len
}

// The files of an input of whatever content and length, if it is that of two files.
#[tactic(auto, unfolding(crate::specs::Input::well_framed))]
pub fn files_of(input: &[u8]) -> Option<Files<'_>>
    ensures exactly { is_some result ≡ well_framed input.now }
    ensures same { IfSome result (λ files. (files.n ≡ level_count input.now)
        × (files.tree.now ≡ tree_bytes input.now) × (files.sheet.now ≡ sheet_bytes input.now)) }
{
    if input.len() < FILES_PLACE {
        return None;
    }
    let n = field16_at(input, LEVELS_PLACE) as u32;
    let tree_len = field16_at(input, TREE_LENGTH_PLACE);
    let sheet_len = field16_at(input, SHEET_LENGTH_PLACE);
    let length = required_length(tree_len, sheet_len);
    if (input.len() == length) & (tree_len <= MOST_TREE) & (sheet_len <= MOST_SHEET) {
        let (tree, sheet) = input[FILES_PLACE..].split_at(tree_len);
        return Some(Files { n, tree, sheet });
    }
    None
}
