//! The numbers of hashes.
ghost use Rattle.std.specs.Prelude.{◌≡◌, decimal, bytes_eq};
ghost use Rattle.stand_world.specs.Names.{hash_in};

use itoa::Buffer;

// Whether these are the decimal digits of a number.
fn is_decimal(number: usize, digits: &[u8]) -> bool
    ensures { result ≡ bytes_eq (decimal number) digits.now }
{
    let mut buffer = Buffer::new();
    buffer.format(number).as_bytes() == digits
}

/// The number from 0 to 255 that has these decimal digits, without leading zeros.
pub fn read_hash(digits: &[u8]) -> Option<u8>
    ensures { result ≡ hash_in digits.now }
{
    for number in 0..256usize {
        if is_decimal(number, digits) {
            return Some(number as u8);
        }
    }
    None
}
