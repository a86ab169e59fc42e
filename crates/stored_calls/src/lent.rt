// Slices of a length that the list of calls says, in fixed memory: no list has longer ones than there is room for.
ghost use Rattle.std.specs.Prelude.{◌≡◌, ◌++◌, min, replicate, slice_set, take};
ghost use Rattle.arrayvec.specs.ArrayVec.{array_vec_len};

use crate::call::Question;
use arrayvec::ArrayVec;
use program_input::read::read_full;
use std::ops::{DerefSlice, DerefSliceMut};
use work_slices::slices::WorkSlices;

// So many places at the front of a room. What lies past them stays, where an `ArrayVec` would blank it.
#[derive(Drop)]
pub struct Front<T, const ROOM: usize> {
    room: [T; ROOM],
    count: usize,
}

impl<T, const ROOM: usize> DerefSlice for Front<T, ROOM> {
    type Elem = T;

    ghost deref_gives = { λ front places. places ≡ take front.count front.room };

    #[tactic(auto, using(std::proofs::lemmas::List::take_min))]
    fn deref(&self) -> &[T] {
        let room: &[T] = &self.room;
        &room[..self.count.min(room.len())]
    }
}

impl<T, const ROOM: usize> DerefSliceMut for Front<T, ROOM> {
    fn deref_mut(&mut self) -> &mut [T] {
        &mut self.room[..self.count.min(ROOM)]
    }
}

// The front of a room, with nothing past it.
fn front_of<T: Copy + Default, const ROOM: usize>(
    room: [T; ROOM],
    count: usize,
) -> ArrayVec<T, ROOM>
    ensures items { result.items ≡ take count room }
    ensures len { array_vec_len result ≡ min count ROOM }
{
    let mut front = ArrayVec::from(room);
    front.truncate(count);
    front
}

// So many places with a fill, so that what a call leaves alone is seen.
pub fn filled_front<T: Copy + Default, const ROOM: usize>(fill: T, count: usize) -> Front<T, ROOM>
    ensures { take result.count result.room ≡ take count (replicate ROOM fill) }
{
    Front {
        room: [fill; ROOM],
        count,
    }
}

// The same in an `ArrayVec`.
pub fn filled<T: Copy + Default, const ROOM: usize>(fill: T, count: usize) -> ArrayVec<T, ROOM>
    ensures { result.items ≡ take count (replicate ROOM fill) }
{
    front_of([fill; ROOM], count)
}

// Reads a file of that length from standard input. Where the input ends before it, what was there stays.
pub fn read_front<const ROOM: usize>(rt: &impl Input, length: usize, file: &mut Front<u8, ROOM>) {
    file.count = length;
    read_full(rt, file);
}

// The same into an `ArrayVec`. Where the input ends before the file, the rest is 0.
pub fn read_file<const ROOM: usize>(rt: &impl Input, length: usize) -> ArrayVec<u8, ROOM>
    ensures { array_vec_len result ≡ min length ROOM }
{
    let mut file: Front<u8, ROOM> = filled_front(0, 0);
    read_front(rt, length, &mut file);
    front_of(file.room, length)
}

// Sets a store's length. Bytes there stay, and new ones are ee.
#[tactic(auto, using(crate::proofs::Resized::set_to))]
pub fn resize_front<const ROOM: usize>(store: &mut Front<u8, ROOM>, length: usize)
    ensures { take store.new.count store.new.room
        ≡ take (min length ROOM) (take store.old.count store.old.room ++ replicate ROOM 238) }
{
    for place in store.count..length.min(ROOM) {
        store.room[place] = 238;
    }
    store.count = length;
}

// The same of an `ArrayVec`, which is not copied to a front: a large one would not fit the stack again.
pub fn resize<const ROOM: usize>(store: &mut ArrayVec<u8, ROOM>, length: usize)
    ensures { store.new.items ≡ take (min length ROOM) (store.old.items ++ replicate ROOM 238) }
{
    store.truncate(length);
    for _ in store.len()..length.min(ROOM) {
        let _ = store.try_push(238);
    }
}

// Puts a byte at a place of a store, if it has one.
pub fn poke(store: &mut [u8], place: usize, byte: u8)
    ensures { store.new ≡ slice_set store.old place byte }
{
    if place < store.len() {
        store[place] = byte;
    }
}

// The work slices of a question: three, as the monitor is lent them.
#[derive(Drop)]
pub struct Work {
    pub lower: Front<u32, 1100>,
    pub upper: Front<u32, 1100>,
    pub marks: Front<u8, 1100>,
}

impl Work {
    // Slices as long as a question says.
    pub fn lent(asked: Question) -> Work {
        Work {
            lower: filled_front(4000000001, asked.lower),
            upper: filled_front(4000000002, asked.upper),
            marks: filled_front(238, asked.marks),
        }
    }

    pub fn slices(&mut self) -> WorkSlices<'_> {
        WorkSlices {
            lower: &mut self.lower,
            upper: &mut self.upper,
            marks: &mut self.marks,
        }
    }
}
