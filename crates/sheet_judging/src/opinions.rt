// The terms of an opinion entry: refusals 11 and 12.
ghost use Rattle.std.specs.Prelude.{◌≡◌, ◌+◌, ◌<◌, ◌≤◌, length};
ghost use Rattle.refusals.specs.FirstFault.{first_among};
ghost use Rattle.opinion_sheet.specs.Format.{expert_places, header_length};
ghost use Rattle.sheet_judging.specs.TermRules.{term_fault, spoke_among, opinions_fault};

use fields::fields::byte_at;
use opinion_sheet::format::{EXPERT_PLACES, MAX_TERM, expert_count};
use opinion_sheet::place::EntryPlace;
use refusals::refusal::Refusal;
use refusals::rule::Rule;

// The fault of an expert's term in an opinion entry: at most 7 for a listed expert, 0 after the last.
fn judge_term(place: EntryPlace, expert: usize) -> Result<(), Refusal>
    requires { (header_length ≤ length place.file.now) × (expert < expert_places) }
    ensures { result ≡ term_fault place.entry.file.now (place.entry.at + 1) expert }
{
    let term_at = place.at + 1 + expert;
    let listed = expert < expert_count(place.file);
    let most = if listed { MAX_TERM } else { 0 };
    if most < byte_at(place.file, term_at) {
        return Err(Rule::WrongTerm.at(term_at));
    }
    Ok(())
}

// The first fault among the sixteen terms of an opinion entry.
#[tactic(auto, using(refusals::proofs::Rows::row))]
fn judge_terms(place: EntryPlace) -> Result<(), Refusal>
    requires { header_length ≤ length place.file.now }
    ensures { result ≡ first_among (term_fault place.entry.file.now (place.entry.at + 1)) expert_places }
{
    for expert in 0..EXPERT_PLACES {
        judge_term(place, expert)?;
    }
    Ok(())
}

// Whether one of the sixteen terms of an opinion entry is not 0.
fn somebody_spoke(place: EntryPlace) -> bool
    ensures { result ≡ spoke_among place.entry.file.now (place.entry.at + 1) expert_places }
{
    let terms = &place.file[place.at + 1..place.at + 1 + EXPERT_PLACES];
    terms.iter().any(|term| *term != 0)
}

// The first fault of the opinion entry at a place.
pub fn judge_opinions(place: EntryPlace) -> Result<(), Refusal>
    requires { header_length ≤ length place.file.now }
    ensures { result ≡ opinions_fault place.entry.file.now place.entry.at }
{
    judge_terms(place)?;
    if somebody_spoke(place) {
        return Ok(());
    }
    Err(Rule::NobodySpoke.at(place.at))
}
