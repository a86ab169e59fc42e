// Judges an opinion sheet.
ghost use Rattle.std.specs.Prelude.{◌≡◌};
ghost use Rattle.sheet_judging.specs.Judged.{judged};

use crate::entry::judge_entries;
use crate::header::judge_header;
use crate::judgement::Counts;
use crate::scores::judge_scores;
use fields::fields::field16_at;
use opinion_sheet::format::{NUMBER_PLACE, event_count, expert_count};
use refusals::refusal::Refusal;

// The first fault of a file in document 01's order, or its counts.
#[tactic(auto, unfolding(crate::specs::Judged::fault_of))]
pub fn judge(file: &[u8]) -> Result<Counts, Refusal>
    ensures { result ≡ judged file.now }
{
    judge_header(file)?;
    judge_scores(file)?;
    let number = field16_at(file, NUMBER_PLACE);
    let events = event_count(file);
    let experts = expert_count(file);
    judge_entries(file, events)?;
    Ok(Counts {
        number,
        events,
        experts,
    })
}
