// Slices of a given length, by hand: no clause says which bytes a read brings.
ghost use Rattle.std.specs.Prelude.{◌≡◌, ◌+◌, IfOk, string_len};

use crate::lent::{Front, filled, filled_front, read_file, read_front, resize, resize_front};
use arrayvec::ArrayVec;
use std::alloc::Allocator;
use std::io;
use std::io::{BufRead, Lines};

// An input of the bytes 1, 2 and 3.
struct Three;

impl Input for Three {
    type Reader = &'static [u8];

    fn read_line<A: Allocator + Clone>(&self, buf: &mut String<A>) -> io::Result<usize>
        ensures ok { IfOk result (λ n. string_len buf.new ≡ string_len buf.old + n) }
    {
        self.reader().read_line(buf)
    }

    fn lines<A: Allocator>(&self, alloc: A) -> Lines<&'static [u8], A> {
        self.reader().lines(alloc)
    }

    fn reader(&self) -> &'static [u8] {
        &[1, 2, 3]
    }
}

#[test]
fn places_with_a_fill(rt: HostRuntime) {
    let few: ArrayVec<u32, 4> = filled(7, 3);
    assert_eq!(rt; few.as_slice(), [7, 7, 7].as_slice());
    let all: ArrayVec<u32, 4> = filled(7, 5);
    assert_eq!(rt; all.as_slice(), [7, 7, 7, 7].as_slice());
}

#[test]
fn bytes_that_come_and_zeros(rt: HostRuntime) {
    let short: ArrayVec<u8, 6> = read_file(&Three, 2);
    assert_eq!(rt; short.as_slice(), [1, 2].as_slice());
    let long: ArrayVec<u8, 6> = read_file(&Three, 5);
    assert_eq!(rt; long.as_slice(), [1, 2, 3, 0, 0].as_slice());
    let whole: ArrayVec<u8, 4> = read_file(&Three, 5);
    assert_eq!(rt; whole.as_slice(), [1, 2, 3, 0].as_slice());
}

#[test]
fn store_made_short_and_long(rt: HostRuntime) {
    let mut store: ArrayVec<u8, 5> = read_file(&Three, 3);
    resize(&mut store, 2);
    assert_eq!(rt; store.as_slice(), [1, 2].as_slice());
    resize(&mut store, 4);
    assert_eq!(rt; store.as_slice(), [1, 2, 238, 238].as_slice());
    resize(&mut store, 9);
    assert_eq!(rt; store.as_slice(), [1, 2, 238, 238, 238].as_slice());
}

#[test]
fn front_made_short_and_long(rt: HostRuntime) {
    let mut store: Front<u8, 5> = filled_front(0, 0);
    read_front(&Three, 3, &mut store);
    resize_front(&mut store, 2);
    let short: &[u8] = &store;
    assert_eq!(rt; short, [1, 2].as_slice());
    resize_front(&mut store, 9);
    let whole: &[u8] = &store;
    assert_eq!(rt; whole, [1, 2, 238, 238, 238].as_slice());
}
