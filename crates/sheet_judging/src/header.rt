// The header's rules: refusals 1 to 5.
ghost use Rattle.std.specs.Prelude.{◌≡◌, OnOk};
ghost use Rattle.sheet_judging.specs.HeaderRules.{header_fault};
ghost use Rattle.opinion_sheet.specs.WellFormed.{WellFormedHeader};

use fields::fields::field16_at;
use opinion_sheet::format::{
    ENTRY_LENGTH, EVENTS_PLACE, EXPERT_PLACES, EXPERTS_PLACE, HEADER_LENGTH, LETTERS_PLACE,
    MAX_EVENTS, VERSION, VERSION_PLACE, event_count, expert_count, has_letters,
};
use refusals::refusal::Refusal;
use refusals::rule::Rule;

// The first fault of the header. Its first rules are a tree file's too, with other letters and lengths: one function
// for them would be told what two say by their constants.
#[tactic(auto, using(crate::proofs::HeaderLaws::header_well_formed), unfolding(crate::specs::HeaderRules::header_fault))]
pub fn judge_header(file: &[u8]) -> Result<(), Refusal>
    ensures first { result ≡ header_fault file.now }
    ensures formed { OnOk result (WellFormedHeader file.now) }
{
    let length = file.len();
    if length < HEADER_LENGTH {
        return Err(Rule::TooShort.at(length));
    }
    if !has_letters(file) {
        return Err(Rule::WrongLetters.at(LETTERS_PLACE));
    }
    let version = field16_at(file, VERSION_PLACE);
    if version != VERSION {
        return Err(Rule::WrongVersion.at(VERSION_PLACE));
    }
    let events = event_count(file);
    let experts = expert_count(file);
    if !(1..=MAX_EVENTS).contains(&events) {
        return Err(Rule::WrongCount.at(EVENTS_PLACE));
    }
    if experts > EXPERT_PLACES {
        return Err(Rule::WrongCount.at(EXPERTS_PLACE));
    }
    if length != HEADER_LENGTH + ENTRY_LENGTH * events {
        return Err(Rule::WrongLength.at(length));
    }
    Ok(())
}
