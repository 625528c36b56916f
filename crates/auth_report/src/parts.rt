//! Ids, fingerprints and numbers in a text.
ghost use Rattle.std.specs.Prelude.{◌≡◌, ◌++◌, OnOk, decimal};
ghost use Rattle.hex.specs.Hex.{encode_lower, encode_upper};
ghost use Rattle.auth_report.specs.Parts.{shown_byte, shown};

use child_ports::{Bytes, Fingerprint};
use itoa::Buffer;
use object_frames::Id;
use std::alloc::AllocError;

/// Adds an id in lower case.
pub fn push_id(text: &mut Bytes, id: Id) -> Result<(), AllocError>
    ensures { OnOk result (text.new ≡ text.old ++ encode_lower id) }
{
    let mut digits = [0u8; 40];
    id.write_hex(&mut digits);
    text.extend(&digits)
}

/// Adds a fingerprint in upper case.
pub fn push_fingerprint(text: &mut Bytes, key: Fingerprint) -> Result<(), AllocError>
    ensures { OnOk result (text.new ≡ text.old ++ encode_upper key.0) }
{
    let mut digits = [0u8; 40];
    key.write_hex(&mut digits);
    text.extend(&digits)
}

/// Adds a number in decimal.
pub fn push_number(text: &mut Bytes, number: u64) -> Result<(), AllocError>
    ensures { OnOk result (text.new ≡ text.old ++ decimal number) }
{
    let mut buffer = Buffer::new();
    text.extend(buffer.format(number).as_bytes())
}

/// Adds what stands at a place, or how many there are: words and a number.
pub fn push_place(text: &mut Bytes, words: &[u8], place: u64) -> Result<(), AllocError>
    ensures { OnOk result (text.new ≡ text.old ++ (words.now ++ decimal place)) }
{
    text.extend(words)?;
    push_number(text, place)
}

/// Adds a number between words.
pub fn push_numbered(
    text: &mut Bytes,
    words: &[u8],
    number: u64,
    more: &[u8],
) -> Result<(), AllocError>
    ensures { OnOk result (text.new ≡ text.old ++ (words.now ++ decimal number ++ more.now)) }
{
    text.extend(words)?;
    push_number(text, number)?;
    text.extend(more)
}

/// Adds an id between words.
pub fn push_named(text: &mut Bytes, words: &[u8], id: Id, more: &[u8]) -> Result<(), AllocError>
    ensures { OnOk result (text.new ≡ text.old ++ (words.now ++ encode_lower id ++ more.now)) }
{
    text.extend(words)?;
    push_id(text, id)?;
    text.extend(more)
}

/// Adds a fingerprint between words.
pub fn push_signer(
    text: &mut Bytes,
    words: &[u8],
    key: Fingerprint,
    more: &[u8],
) -> Result<(), AllocError>
    ensures { OnOk result (text.new ≡ text.old ++ (words.now ++ encode_upper key.0 ++ more.now)) }
{
    text.extend(words)?;
    push_fingerprint(text, key)?;
    text.extend(more)
}

// The byte that a name's byte is shown as.
fn show_byte(byte: u8) -> u8
    ensures { result ≡ shown_byte byte }
{
    if byte < 32 || byte == 127 { b'?' } else { byte }
}

/// Adds a name as it is printed.
pub fn push_name(text: &mut Bytes, name: &[u8]) -> Result<(), AllocError>
    ensures { OnOk result (text.new ≡ text.old ++ shown name.now) }
{
    for byte in name {
        text.push(show_byte(*byte))?;
    }
    Ok(())
}
