// The kinds of an entry.
ghost use Rattle.std.specs.Prelude.{◌≡◌};
ghost use Rattle.opinion_sheet.specs.Entries.{kind_of};

use refusals::rule::Rule;

// What an entry gives, numbered as its kind byte: four numbers, opinions or fractions.
#[derive(Clone, Copy)]
pub enum EntryKind {
    Numbers = 0,
    Opinions = 1,
    Fractions = 2,
}

impl TryFrom<usize> for EntryKind {
    type Error = Rule;

    ghost try_from_gives = { λ byte kind. kind ≡ kind_of byte };

    fn try_from(byte: usize) -> Result<EntryKind, Rule> {
        match byte {
            0 => Ok(EntryKind::Numbers),
            1 => Ok(EntryKind::Opinions),
            2 => Ok(EntryKind::Fractions),
            _ => Err(Rule::UnknownKind),
        }
    }
}
