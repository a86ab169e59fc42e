// The entries: refusals 6, 10 to 12 and 28.
ghost use Rattle.std.specs.Prelude.{◌≡◌, ◌≤◌, length};
ghost use Rattle.theory.specs.Unit.{billion};
ghost use Rattle.refusals.specs.FirstFault.{first_among};
ghost use Rattle.opinion_sheet.specs.Format.{entry_at};
ghost use Rattle.sheet_judging.specs.EntryRules.{entry_fault};
ghost use Rattle.sheet_judging.specs.Requirements.{EntryInside};

use crate::fractions::judge_fractions;
use crate::numbers::judge_numbers;
use crate::opinions::judge_opinions;
use opinion_sheet::kind::EntryKind;
use opinion_sheet::place::EntryPlace;
use refusals::refusal::Refusal;

// The fault of the entry of an event.
pub fn judge_entry(file: &[u8], event: usize) -> Result<(), Refusal>
    requires { EntryInside file.now (entry_at file.now event) }
    ensures { result ≡ entry_fault billion file.now event }
{
    let place = EntryPlace::of_event(file, event);
    let kind = place.kind();
    // Four numbers by a test of their own, before the others: one match for all takes three jumps to come to them.
    if let Ok(EntryKind::Numbers) = kind {
        return judge_numbers(place);
    }
    match kind {
        Ok(EntryKind::Opinions) => judge_opinions(place),
        Ok(_) => judge_fractions(place),
        Err(rule) => Err(rule.at(place.at)),
    }
}

// The first fault among the entries of some events. A `for` with `?`, as for terms, scores and windows: one for all
// would take the rule as a closure, and be no shorter.
#[tactic(auto, using(refusals::proofs::Rows::row))]
pub fn judge_entries(file: &[u8], events: usize) -> Result<(), Refusal>
    requires { entry_at file.now events ≤ length file.now }
    ensures { result ≡ first_among (entry_fault billion file.now) events }
{
    for event in 0..events {
        judge_entry(file, event)?;
    }
    Ok(())
}
