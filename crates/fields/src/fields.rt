// The fields of a file: unsigned numbers, low byte first.
// No generic reader: each of three is one line over the library, 24 bits have no type, and the results' types differ.
// No struct of a slice and an offset: what must lie within the slice is another width for each.
ghost use Rattle.std.specs.Prelude.{◌≡◌, ◌+◌, ◌<◌, length};
ghost use Rattle.fields.specs.Fields.{byte, field16, field24, field32, Is16};

// The byte at an offset.
pub fn byte_at(s: &[u8], at: usize) -> usize
    requires { at < length s.now }
    ensures { (result ≡ byte s.now at) × (result < 256) }
{
    usize::from(s[at])
}

// The 16-bit field at an offset.
#[tactic(auto, unfolding(crate::specs::Fields::field16))]
pub fn field16_at(s: &[u8], at: usize) -> usize
    requires { at + 1 < length s.now }
    ensures { Is16 result (field16 s.now at) }
{
    usize::from(u16::from_le_bytes([s[at], s[at + 1]]))
}

// The 24-bit field at an offset.
#[tactic(auto, unfolding(crate::specs::Fields::field24))]
pub fn field24_at(s: &[u8], at: usize) -> u64
    requires { at + 2 < length s.now }
    ensures { result ≡ field24 s.now at }
{
    u64::from(u32::from_le_bytes([s[at], s[at + 1], s[at + 2], 0]))
}

// The 32-bit field at an offset.
#[tactic(auto, unfolding(crate::specs::Fields::field16, crate::specs::Fields::field32))]
pub fn field32_at(s: &[u8], at: usize) -> u32
    requires { at + 3 < length s.now }
    ensures { result ≡ field32 s.now at }
{
    u32::from_le_bytes([s[at], s[at + 1], s[at + 2], s[at + 3]])
}
