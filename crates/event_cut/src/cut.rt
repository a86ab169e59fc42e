// The alpha-cut of an entry at a level, its lower end rounded down and its upper end rounded up, once.
ghost use Rattle.std.specs.Prelude.{◌≡◌, ◌<◌};
ghost use Rattle.theory.specs.Unit.{billion};
ghost use Rattle.theory.specs.Trapezoid.{cut};
ghost use Rattle.opinion_sheet.specs.Format.{event_count};
ghost use Rattle.opinion_sheet.specs.WellFormed.{WellFormed, WellFormedNumbers};
ghost use Rattle.event_cut.specs.EventCut.{fractions_trapezoid, numbers_trapezoid, outward, cut_at};
ghost use Rattle.event_cut.specs.Requirements.{Cuttable};

use crate::level::Level;
use crate::mean::mean_of;
use opinion_sheet::entry::{Entry, read_entry};
use opinion_sheet::fractions::Fractions;
use opinion_sheet::numbers::Numbers;
use rounding::direction::Direction;
use rounding::divide::divided;
use rounding::end::Enclosure;
use rounding::unit::UNIT;

// The cut of four fractions at a level, in so many units to 1.
fn cut_of(x: Fractions, units: u64, level: Level) -> Enclosure
    requires { Cuttable billion units (fractions_trapezoid x) }
    ensures { result ≡ outward units (cut (fractions_trapezoid x) level.k level.n) }
{
    let (k, n) = (level.k as u64, level.n as u64);
    let Numbers { a, b, c, d } = x.numerators;
    let low = (a * n + (b - a) * k) * units;
    let high = (d * n - (d - c) * k) * units;
    let den = x.den * n;
    let lower = divided(Direction::Down, low, den);
    let upper = divided(Direction::Up, high, den);
    Enclosure { lower, upper }
}

// The cut of four numbers in units: whole numbers of them need no denominator.
fn cut_numbers(x: Numbers<u32>, level: Level) -> Enclosure
    requires { WellFormedNumbers billion x }
    ensures { result ≡ outward billion (cut (numbers_trapezoid billion x) level.k level.n) }
{
    let whole = Fractions {
        den: 1,
        numerators: x.into(),
    };
    cut_of(whole, 1, level)
}

// The cut of an event at a level, in a well-formed file.
pub fn cut_at(file: &[u8], event: usize, level: Level) -> Enclosure
    requires { WellFormed file.now × (event < event_count file.now) }
    ensures { result ≡ cut_at billion file.now event level.k level.n }
{
    match read_entry(file, event) {
        Entry::Numbers(x) => cut_numbers(x, level),
        Entry::Opinions(terms) => cut_of(mean_of(file, terms), UNIT, level),
        Entry::Fractions(x) => cut_of(x, UNIT, level),
    }
}
