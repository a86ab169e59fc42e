// Judges the header of a tree file: refusals 1 to 5.
ghost use Rattle.std.specs.Prelude.{◌≡◌};
ghost use Rattle.tree_judging.specs.HeaderRules.{header_fault};

use fields::fields::field16_at;
use refusals::refusal::Refusal;
use refusals::rule::Rule;
use tree_file::format::{
    HEADER_LENGTH, LETTERS_PLACE, MAX_NODES, NODES_PLACE, VERSION, VERSION_PLACE, has_letters,
    link_at, node_count,
};

// The first fault of the header.
#[tactic(auto, unfolding(crate::specs::HeaderRules::header_fault))]
pub fn judge_header(file: &[u8]) -> Result<(), Refusal>
    ensures { result ≡ header_fault file.now }
{
    let length = file.len();
    if length < HEADER_LENGTH {
        return Err(Rule::TooShort.at(length));
    }
    if !has_letters(file) {
        return Err(Rule::WrongLetters.at(LETTERS_PLACE));
    }
    let version = field16_at(file, VERSION_PLACE);
    if version != VERSION {
        return Err(Rule::WrongVersion.at(VERSION_PLACE));
    }
    let nodes = node_count(file);
    if !(1..=MAX_NODES).contains(&nodes) {
        return Err(Rule::WrongCount.at(NODES_PLACE));
    }
    if length != link_at(file, nodes - 1) {
        return Err(Rule::WrongLength.at(length));
    }
    Ok(())
}
