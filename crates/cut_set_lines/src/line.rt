// The line of a set: the numbers of its events, rising, parted by one space.
use arrayvec::ArrayVec;
use std::io;

// 64 numbers of at most two digits, and a byte behind each: no line is longer, so that no push fails.
const MOST_LINE: usize = 192;

// Prints the line of a set, whose bit i is 1 where event i is in the set.
pub fn print_set(rt: &impl Print, set: u64) -> io::Result<()> {
    let mut line = ArrayVec::<u8, MOST_LINE>::new();
    let mut rest = set;
    for turn in 0..set.count_ones() {
        let event = rest.trailing_zeros() as u8;
        // The lowest 1 goes: the next turn has the next event.
        rest &= rest.wrapping_sub(1);
        if turn > 0 {
            let _ = line.try_push(b' ');
        }
        if event >= 10 {
            let _ = line.try_push(b'0' + event / 10);
        }
        let _ = line.try_push(b'0' + event % 10);
    }
    let _ = line.try_push(b'\n');
    rt.write_all(line.as_slice())
}
