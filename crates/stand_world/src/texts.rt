//! Ids, fingerprints and numbers in a text.
ghost use Rattle.std.specs.Prelude.{◌≡◌, ◌++◌, OnOk, decimal, drop};
ghost use Rattle.hex.specs.Hex.{encode_lower, encode_upper};
ghost use Rattle.stand_world.specs.Toy.{short_id};

use child_ports::{Bytes, Fingerprint};
use itoa::Buffer;
use object_frames::Id;
use std::alloc::AllocError;

/// What stands behind so many bytes.
pub fn behind(bytes: &[u8], count: usize) -> &[u8]
    ensures { result.now ≡ drop count bytes.now }
{
    if bytes.len() < count {
        return &bytes[bytes.len()..];
    }
    &bytes[count..]
}

/// Adds an id in lower case.
pub fn push_id(text: &mut Bytes, id: &Id) -> Result<(), AllocError>
    ensures { OnOk result (text.new ≡ text.old ++ encode_lower id.now) }
{
    let mut digits = [0u8; 40];
    id.write_hex(&mut digits);
    text.extend(&digits)
}

/// Adds a fingerprint in upper case.
pub fn push_fingerprint(text: &mut Bytes, key: &Fingerprint) -> Result<(), AllocError>
    ensures { OnOk result (text.new ≡ text.old ++ encode_upper key.now.0) }
{
    let mut digits = [0u8; 40];
    key.write_hex(&mut digits);
    text.extend(&digits)
}

/// Adds the last 16 digits of a fingerprint.
pub fn push_short_id(text: &mut Bytes, key: &Fingerprint) -> Result<(), AllocError>
    ensures { OnOk result (text.new ≡ text.old ++ short_id key.now) }
{
    let mut digits = [0u8; 40];
    key.write_hex(&mut digits);
    text.extend(behind(&digits, 24))
}

/// Adds a number in decimal.
pub fn push_number(text: &mut Bytes, number: usize) -> Result<(), AllocError>
    ensures { OnOk result (text.new ≡ text.old ++ decimal number) }
{
    let mut buffer = Buffer::new();
    text.extend(buffer.format(number).as_bytes())
}
