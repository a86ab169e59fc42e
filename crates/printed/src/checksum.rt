// A checksum of numbers: they are the digits of a number in base 257, modulo a prime.
ghost use Rattle.std.specs.Prelude.{◌≡◌};
ghost use Rattle.std.specs.List.{AllZip};
ghost use Rattle.printed.specs.Checksum.{sum_of};

// The greatest prime below 2^32.
pub const PRIME: u64 = 4294967291;

pub fn checksum<T: Copy + Into<u64>>(places: &[T]) -> u64
    ensures { (numbers : _) × AllZip T.converts places.now numbers × (result ≡ sum_of numbers) }
{
    let mut sum = 0;
    for place in places {
        let number: u64 = (*place).into();
        sum = (sum * 257 + number % PRIME) % PRIME;
    }
    sum
}
