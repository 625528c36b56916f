//! The fields of a VALIDSIG line.
ghost use Rattle.std.specs.Prelude.{◌≡◌, drop};
ghost use Rattle.byte_cuts.specs.Cuts.{parts_at};
ghost use Rattle.openpgp_status.specs.Fields.{hash_of, key_and_hash};

use byte_cuts::part_at;
use child_ports::Fingerprint;

// The number of a hash algorithm.
fn hash_number(digits: &[u8]) -> Option<u32>
    ensures { result ≡ hash_of digits.now }
{
    if digits.is_empty() || digits.len() > 3 {
        return None;
    }
    let mut number = 0u32;
    for digit in digits {
        if !digit.is_ascii_digit() {
            return None;
        }
        number = number * 10 + u32::from(*digit - b'0');
    }
    if number > 255 {
        return None;
    }
    Some(number)
}

/// The key's fingerprint and the number of the hash algorithm, of a text in which a keyword stands before the fields.
pub fn key_and_hash(text: &[u8]) -> Option<(Fingerprint, u32)>
    ensures { result ≡ key_and_hash (drop 1 (parts_at 32 text.now)) }
{
    let key = Fingerprint::of_hex(part_at(text, b' ', 1)?)?;
    let hash = hash_number(part_at(text, b' ', 8)?)?;
    part_at(text, b' ', 9)?;
    Some((key, hash))
}
