// The sixteen score bytes: refusal 7.
ghost use Rattle.std.specs.Prelude.{◌≡◌, ◌≤◌, ◌<◌, length};
ghost use Rattle.opinion_sheet.specs.Format.{expert_places, header_length};
ghost use Rattle.sheet_judging.specs.ScoreRules.{score_fault, scores_fault};

use fields::fields::byte_at;
use opinion_sheet::format::{EXPERT_PLACES, MAX_SCORE, SCORES_PLACE, expert_count};
use refusals::refusal::Refusal;
use refusals::rule::Rule;

// The fault of an expert's score: 1 to 100 for a listed expert, 0 after the last.
fn judge_score(file: &[u8], expert: usize) -> Result<(), Refusal>
    requires { (header_length ≤ length file.now) × (expert < expert_places) }
    ensures { result ≡ score_fault file.now expert }
{
    let place = SCORES_PLACE + expert;
    let score = byte_at(file, place);
    if expert < expert_count(file) {
        if !(1..=MAX_SCORE).contains(&score) {
            return Err(Rule::WrongField.at(place));
        }
    } else if score != 0 {
        return Err(Rule::WrongField.at(place));
    }
    Ok(())
}

// The first fault among the sixteen scores.
#[tactic(auto, using(refusals::proofs::Rows::row))]
pub fn judge_scores(file: &[u8]) -> Result<(), Refusal>
    requires { header_length ≤ length file.now }
    ensures { result ≡ scores_fault file.now }
{
    for expert in 0..EXPERT_PLACES {
        judge_score(file, expert)?;
    }
    Ok(())
}
