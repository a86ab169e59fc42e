// A file written with other parts of one length, one behind the other, in place of its own.
ghost use Rattle.std.specs.Prelude.{ℕ, ◌≡◌, ◌++◌, ◌+◌, ◌*◌, ◌<◌, ◌≤◌, List, length, drop};
ghost use Rattle.fields.specs.Fields.{with_parts};
ghost use Rattle.dual_files.specs.Writing.{EachWord};

use std::convert::AsSlice;

// Writes the file to the front of the buffer, and from an offset on the parts that a function gives of it.
pub fn write_with_parts<W: AsSlice<u8> + Copy, F: Fn(&[u8], usize) -> W>(
    file: &[u8],
    at: usize,
    size: usize,
    count: usize,
    part: F,
    buffer: &mut [u8],
)
    requires inside { at + size * count ≤ length file.now }
    requires room { length file.now ≤ length buffer.old }
    requires callable { (i : ℕ) → i < count → F.pre part file i }
    requires sized { EachWord (F.post part) file.now count (λ i word. length (W.items word) ≡ size) }
    ensures { (parts : ℕ → List ℕ) → EachWord (F.post part) file.now count (λ i word. W.items word ≡ parts i)
        → buffer.new ≡ with_parts at size parts count file.now ++ drop (length file.now) buffer.old }
{
    byte_copy::copy(file, buffer);
    for i in 0..count {
        let word = part(file, i);
        byte_copy::copy(word.as_slice(), &mut buffer[at + size * i..]);
    }
}
