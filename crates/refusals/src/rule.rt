// The rules that a call can be refused by, each with its number in document 01, and from 26 on in document 02.
ghost use Rattle.std.specs.Prelude.{◌≡◌};
ghost use Rattle.refusals.specs.Number.{number_of};
ghost use Rattle.refusals.specs.Order.{refusal};

use crate::refusal::Refusal;

// What is not as it must be, with its number: first what can be wrong with an input, then with the state.
#[derive(Clone, Copy)]
pub enum Rule {
    // The file ends before its header does.
    TooShort = 1,
    // The first three bytes are not the format's letters.
    WrongLetters = 2,
    // The version is none that is read.
    WrongVersion = 3,
    // The number of nodes, events or experts is out of range.
    WrongCount = 4,
    // The file is not as long as its counts require.
    WrongLength = 5,
    // A record or an entry of unknown kind.
    UnknownKind = 6,
    // A record's fields, the sum of all inputs, or a score.
    WrongField = 7,
    // A link to a node that its gate may not have for an input: one that is not below it.
    WrongLink = 8,
    // A link to a node that an earlier link names.
    LinkedBefore = 9,
    // Four numbers that fall or exceed the unit.
    NumberOrder = 10,
    // A term that is none, or of no listed expert.
    WrongTerm = 11,
    // An opinion entry in which nobody spoke.
    NobodySpoke = 12,
    // The level is out of range.
    WrongLevel = 13,
    // The store is shorter than the accepted file.
    ShortStore = 20,
    // No tree is held.
    NoTree = 21,
    // No sheet is held.
    NoSheet = 22,
    // The held bytes are no longer an accepted file inside their store.
    Changed = 23,
    // The sheet is for another tree, or for another number of basic events.
    OtherTree = 24,
    // A work slice is shorter than the tree.
    ShortSlice = 25,
    // The tree has more basic events than the number of a cut set has bits.
    ManyEvents = 26,
    // The lent slice is shorter than the number of minimal cut sets.
    ShortList = 27,
    // Four fractions that fall or exceed 1, a denominator out of range, or a last byte that is not 0.
    WrongFractions = 28,
    // The length of a book of work windows, a window's event, or an end that is not after its first hour.
    WrongBook = 29,
    // The buffer for the sheet of an hour is shorter than the held sheet.
    ShortBuffer = 30,
    // A buffer for a mirrored file is shorter than the held file.
    ShortMirror = 31,
}

impl Rule {
    // The rule's number.
    pub fn number(self) -> usize
        ensures { result ≡ number_of self }
    {
        self as usize
    }

    // The rule, broken at a place.
    pub fn at(self, place: usize) -> Refusal
        ensures { result ≡ refusal self place }
    {
        Refusal { rule: self, place }
    }
}
