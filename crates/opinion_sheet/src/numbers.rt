// Four numbers, and the entry that gives them in units.
ghost use Rattle.std.specs.Prelude.{◌≡◌};
ghost use Rattle.opinion_sheet.specs.Entries.{numbers_of};

use crate::place::EntryPlace;
use fields::fields::field32_at;

// Four numbers: of a number entry in units, of fractions over their denominator, of opinions in hundredths.
#[derive(Clone, Copy, Default)]
pub struct Numbers<T> {
    pub a: T,
    pub b: T,
    pub c: T,
    pub d: T,
}

// The same numbers, as wide as those of fractions.
impl From<Numbers<u32>> for Numbers<u64> {
    ghost from_gives = { λ narrow wide. wide ≡ narrow };

    fn from(narrow: Numbers<u32>) -> Numbers<u64> {
        Numbers {
            a: narrow.a.into(),
            b: narrow.b.into(),
            c: narrow.c.into(),
            d: narrow.d.into(),
        }
    }
}

impl EntryPlace<'_> {
    // The four numbers of the number entry there.
    pub fn read_numbers(self) -> Numbers<u32>
        ensures { result ≡ numbers_of self.entry.file.now self.entry.at }
    {
        let a = field32_at(self.file, self.at + 1);
        let b = field32_at(self.file, self.at + 5);
        let c = field32_at(self.file, self.at + 9);
        let d = field32_at(self.file, self.at + 13);
        Numbers { a, b, c, d }
    }
}
