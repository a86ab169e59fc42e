// The bytes of a number, low byte first.
ghost use Rattle.std.specs.Prelude.{◌≡◌};
ghost use Rattle.fields.specs.Fields.{bytes24, bytes32};

// The three bytes of a 24-bit number.
pub fn three_bytes(n: u64) -> [u8; 3]
    ensures { result ≡ bytes24 n }
{
    let [low, middle, high, ..] = n.to_le_bytes();
    [low, middle, high]
}

// The four bytes of a 32-bit number.
pub fn four_bytes(n: u32) -> [u8; 4]
    ensures { result ≡ bytes32 n }
{
    n.to_le_bytes()
}
