// The three work slices that a caller lends: at place i the ends of node i and their marks.
ghost use Rattle.std.specs.Prelude.{◌≡◌, suc, ◌<◌, length};
ghost use Rattle.rounding.specs.Ends.{way, as_code, enclosure};
ghost use Rattle.work_slices.specs.Slices.{contents, read, SameSlices, end_at, stored_end, Long, put};

use rounding::direction::Direction;
use rounding::end::{Enclosure, End};
use rounding::mark::{is_marked, mark_byte};

// Three slices, and not one of enclosures: document 01 lends them so. How long they are is a clause and no fact of the
// type, since each function asks for as many places as it goes to. That they are the same ones is a clause too
// (`SameSlices`): whoever lends them learns what they hold by their names alone.
#[derive(Drop)]
pub struct WorkSlices<'a> {
    pub lower: &'a mut [u32],
    pub upper: &'a mut [u32],
    pub marks: &'a mut [u8],
}

// The same three, read only: whoever has no more than that can ask of them too.
#[derive(Clone, Copy)]
pub struct StoredEnds<'a> {
    pub lower: &'a [u32],
    pub upper: &'a [u32],
    pub marks: &'a [u8],
}

// The stored end of node i in a direction, from the slice of its values and that of the marks.
fn stored_end(direction: Direction, values: &[u32], marks: &[u8], i: usize) -> End
    requires { (i < length values.now) × (i < length marks.now) }
    ensures { result ≡ as_code (end_at (way direction) values.now marks.now i) }
{
    let value = values[i];
    let mark = marks[i];
    let exact = is_marked(direction, mark);
    End { value, exact }
}

impl StoredEnds<'_> {
    // Both stored ends of node i.
    pub fn ends(self, i: usize) -> Enclosure
        requires { Long (suc i) (read self) }
        ensures { result ≡ enclosure (λ w. stored_end w (read self.entry) i) }
    {
        Enclosure {
            lower: stored_end(Direction::Down, self.lower, self.marks, i),
            upper: stored_end(Direction::Up, self.upper, self.marks, i),
        }
    }
}

impl WorkSlices<'_> {
    // What is stored, to be read.
    pub fn stored(&self) -> StoredEnds<'_>
        ensures { read result ≡ contents self.now }
    {
        StoredEnds {
            lower: self.lower,
            upper: self.upper,
            marks: self.marks,
        }
    }

    // Both stored ends of node i.
    pub fn ends(&self, i: usize) -> Enclosure
        requires { Long (suc i) (contents self.now) }
        ensures { result ≡ enclosure (λ w. stored_end w (contents self.now) i) }
    {
        self.stored().ends(i)
    }

    // Puts both ends and their marks at place i.
    pub fn put(&mut self, i: usize, x: Enclosure)
        requires { Long (suc i) (contents self.old) }
        ensures same_slices { SameSlices self.new self.old }
        ensures value { contents self.new ≡ put i x (contents self.old) }
    {
        self.lower[i] = x.lower.value;
        self.upper[i] = x.upper.value;
        self.marks[i] = mark_byte(x);
    }
}
