// The complement entry of an event: the four numbers are what is missing to 1, in the other order.
ghost use Rattle.std.specs.Prelude.{◌≡◌, ◌<◌, ◌≤◌, ◌-◌, ◌∷◌, ◌++◌, length, replicate};
ghost use Rattle.theory.specs.Unit.{billion};
ghost use Rattle.fields.specs.Fields.{bytes32};
ghost use Rattle.theory.specs.Dual.{trapezoid_complement};
ghost use Rattle.opinion_sheet.specs.Format.{event_count};
ghost use Rattle.opinion_sheet.specs.WellFormed.{WellFormed, WellFormedNumbers};
ghost use Rattle.event_cut.specs.EventCut.{fractions_trapezoid, numbers_trapezoid};
ghost use Rattle.dual_files.specs.Sheet.{fractions_entry, complement_entry, numbers_entry};

use event_cut::mean::mean_of;
use fields::write::three_bytes;
use opinion_sheet::entry::{Entry, read_entry};
use opinion_sheet::format::ENTRY_LENGTH;
use opinion_sheet::fractions::Fractions;
use opinion_sheet::kind::EntryKind;
use opinion_sheet::numbers::Numbers;
use rounding::unit::UNIT;

// What is missing to `one` of four numbers that rise to it at most.
fn missing(x: Numbers<u64>, one: u64) -> Numbers<u64>
    requires { WellFormedNumbers one x }
    ensures { numbers_trapezoid one result ≡ trapezoid_complement (numbers_trapezoid one x) }
{
    Numbers {
        a: one - x.d,
        b: one - x.c,
        c: one - x.b,
        d: one - x.a,
    }
}

// What is missing of four fractions, over their own denominator.
fn missing_fractions(x: Fractions) -> Fractions
    requires { WellFormedNumbers x.den x.numerators }
    ensures { fractions_trapezoid result ≡ trapezoid_complement (fractions_trapezoid x) }
{
    Fractions {
        den: x.den,
        numerators: missing(x.numerators, x.den),
    }
}

// The bytes of an entry: its kind, what it holds, and 0 behind that.
fn padded_entry(kind: u8, held: &[u8]) -> [u8; ENTRY_LENGTH]
    requires { length held.now ≤ 16 }
    ensures { result ≡ kind ∷ (held.now ++ replicate (16 - length held.now) 0) }
{
    let mut entry = [0; ENTRY_LENGTH];
    entry[0] = kind;
    byte_copy::copy(held, &mut entry[1..]);
    entry
}

// The four low bytes of a number. Tried by `four_bytes`, which takes 32 bits: without a bound of the number the cast
// was not proved.
fn low_bytes(n: u64) -> [u8; 4]
    ensures { result ≡ bytes32 n }
{
    let [first, second, third, fourth, ..] = n.to_le_bytes();
    [first, second, third, fourth]
}

// The bytes of a number entry.
fn numbers_entry(x: Numbers<u64>) -> [u8; ENTRY_LENGTH]
    ensures { result ≡ numbers_entry (numbers_trapezoid billion x) }
{
    let numbers = [x.a, x.b, x.c, x.d].map(low_bytes);
    padded_entry(EntryKind::Numbers as u8, numbers.as_flattened())
}

// The bytes of a fraction entry.
fn fractions_entry(x: Fractions) -> [u8; ENTRY_LENGTH]
    ensures { result ≡ fractions_entry (fractions_trapezoid x) }
{
    let n = x.numerators;
    let numbers = [x.den, n.a, n.b, n.c, n.d].map(three_bytes);
    padded_entry(EntryKind::Fractions as u8, numbers.as_flattened())
}

// The complement entry of an event, in a well-formed file.
pub fn complement_entry(sheet: &[u8], event: usize) -> [u8; ENTRY_LENGTH]
    requires { WellFormed sheet.now × (event < event_count sheet.now) }
    ensures { result ≡ complement_entry sheet.now event }
{
    match read_entry(sheet, event) {
        Entry::Numbers(x) => numbers_entry(missing(x.into(), UNIT)),
        Entry::Opinions(terms) => fractions_entry(missing_fractions(mean_of(sheet, terms))),
        Entry::Fractions(x) => fractions_entry(missing_fractions(x)),
    }
}
