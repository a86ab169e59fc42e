// The number entry: refusal 10.
ghost use Rattle.std.specs.Prelude.{◌≡◌};
ghost use Rattle.theory.specs.Unit.{billion};
ghost use Rattle.sheet_judging.specs.EntryRules.{numbers_rule, numbers_fault};

use opinion_sheet::numbers::Numbers;
use opinion_sheet::place::EntryPlace;
use refusals::refusal::Refusal;
use refusals::rule::Rule;
use rounding::unit::UNIT;

// Whether four numbers rise, to a number at most.
pub fn rise_to(x: Numbers<u64>, most: u64) -> bool
    ensures { result ≡ numbers_rule most x }
{
    (x.a <= x.b) & (x.b <= x.c) & (x.c <= x.d) & (x.d <= most)
}

// The fault of the number entry at a place.
pub fn judge_numbers(place: EntryPlace) -> Result<(), Refusal>
    ensures { result ≡ numbers_fault billion place.entry.file.now place.entry.at }
{
    if rise_to(place.read_numbers().into(), UNIT) {
        return Ok(());
    }
    Err(Rule::NumberOrder.at(place.at))
}
