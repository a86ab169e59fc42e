// Bytes copied to the front of a lent slice. The contract is that of `copy`.
#![tactic(auto)]

ghost use Rattle.std.specs.Prelude.{◌≡◌, ◌≤◌, ◌++◌, length, take, drop};

// Copies all bytes of a slice to the front of another, which has room for them and keeps the rest, and answers how
// many.
pub fn copy(from: &[u8], to: &mut [u8]) -> usize
    requires { length from.now ≤ length to.old }
    ensures count { result ≡ length from.now }
    ensures copied { to.new
        ≡ take (length from.now) from.now ++ drop (length from.now) to.old }
{
    let count = from.len();
    to[..count].copy_from_slice(from);
    count
}
