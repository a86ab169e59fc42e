// The kinds of a record.
ghost use Rattle.std.specs.Prelude.{◌≡◌};
ghost use Rattle.tree_file.specs.Kind.{kind_of};

use refusals::rule::Rule;

// The kind that a record's first byte says: a basic event, or a gate of either kind.
#[derive(Clone, Copy)]
pub enum RecordKind {
    Event = 0,
    And = 1,
    Or = 2,
}

impl TryFrom<usize> for RecordKind {
    type Error = Rule;

    ghost try_from_gives = { λ byte kind. kind ≡ kind_of byte };

    fn try_from(byte: usize) -> Result<RecordKind, Rule> {
        match byte {
            0 => Ok(RecordKind::Event),
            1 => Ok(RecordKind::And),
            2 => Ok(RecordKind::Or),
            _ => Err(Rule::UnknownKind),
        }
    }
}
