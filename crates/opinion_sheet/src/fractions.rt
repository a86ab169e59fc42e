// Four numerators over one denominator, and the entry that gives them.
ghost use Rattle.std.specs.Prelude.{◌≡◌};
ghost use Rattle.opinion_sheet.specs.Entries.{fractions_of};

use crate::numbers::Numbers;
use crate::place::EntryPlace;
use fields::fields::field24_at;

// Four numerators over one denominator.
#[derive(Clone, Copy)]
pub struct Fractions {
    pub den: u64,
    pub numerators: Numbers<u64>,
}

impl EntryPlace<'_> {
    // The fractions of the entry there. A number entry has its own reader: one for both would take the width of a
    // field, its reader and whether a denominator comes first, and be longer.
    #[tactic(auto, unfolding(fields::specs::Fields::field24))]
    pub fn read_fractions(self) -> Fractions
        ensures { result ≡ fractions_of self.entry.file.now self.entry.at }
    {
        let den = field24_at(self.file, self.at + 1);
        let a = field24_at(self.file, self.at + 4);
        let b = field24_at(self.file, self.at + 7);
        let c = field24_at(self.file, self.at + 10);
        let d = field24_at(self.file, self.at + 13);
        Fractions {
            den,
            numerators: Numbers { a, b, c, d },
        }
    }
}
