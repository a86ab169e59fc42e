// The fraction entry: refusal 28.
ghost use Rattle.std.specs.Prelude.{◌≡◌};
ghost use Rattle.sheet_judging.specs.EntryRules.{fractions_rule, fractions_fault};

use crate::numbers::rise_to;
use fields::fields::byte_at;
use opinion_sheet::format::MAX_DENOMINATOR;
use opinion_sheet::fractions::Fractions;
use opinion_sheet::place::EntryPlace;
use refusals::refusal::Refusal;
use refusals::rule::Rule;

// Whether fractions, with the last byte of their entry, are in rule.
pub fn fractions_rule(x: Fractions, last: usize) -> bool
    ensures { result ≡ fractions_rule x last }
{
    let rising = rise_to(x.numerators, x.den);
    let in_range = (1..=MAX_DENOMINATOR).contains(&x.den);
    rising & in_range & (last == 0)
}

// The fault of the fraction entry at a place, which is the same whatever is wrong with it.
pub fn judge_fractions(place: EntryPlace) -> Result<(), Refusal>
    ensures { result ≡ fractions_fault place.entry.file.now place.entry.at }
{
    let last_place = place.at + 16;
    let last = byte_at(place.file, last_place);
    if fractions_rule(place.read_fractions(), last) {
        return Ok(());
    }
    Err(Rule::WrongFractions.at(place.at))
}
