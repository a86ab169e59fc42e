// The ends of an interval.

// An end in units, with the mark that says whether it is exact: a value and a mark, and no enum of the two cases, since
// a step reckons both without a jump. That it is at most 1 is no fact of the type: an end is also read from lent
// slices, whatever they hold.
#[derive(Clone, Copy)]
pub struct End {
    pub value: u32,
    pub exact: bool,
}

// Both ends of an interval.
#[derive(Clone, Copy)]
pub struct Enclosure {
    pub lower: End,
    pub upper: End,
}
