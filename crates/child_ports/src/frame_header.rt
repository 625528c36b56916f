//! The header line of an answer with an object.
ghost use Rattle.std.specs.Prelude.{◌≡◌, ◌≢◌, ◌<◌, ◌⊎◌, ◌↔◌, ◌^◌, ℕ, length, decimal, IfSome, IfNone, IsTrue, MatchOption};
ghost use Rattle.std.specs.List.{AllPass};
ghost use Rattle.child_ports.specs.Framed.{IsTypeWord, is_lower_hex_digit};
ghost use Rattle.child_ports.specs.FrameHeader.{IsHeader, NoHeader, with_header};

use byte_cuts::cut_at;
use itoa::Buffer;
use std::str;

/// What the header line of an answer says of an object, and the bytes after the line.
#[derive(Clone, Copy, Drop)]
pub struct FrameHeader<'x> {
    /// The id, in 40 or 64 lower-case digits.
    pub digits: &'x [u8],
    /// The word for the kind: `commit`, `tree`, `blob` or `tag`.
    pub word: &'x [u8],
    /// How many bytes the content has.
    pub size: u64,
    /// What follows the line.
    pub rest: &'x [u8],
}

// Whether these are the digits of an id.
fn is_id(digits: &[u8]) -> bool
    ensures { IsTrue result ↔ (((length digits.now ≡ 40) ⊎ (length digits.now ≡ 64)) × AllPass is_lower_hex_digit digits.now) }
{
    let long_enough = digits.len() == 40 || digits.len() == 64;
    long_enough
        && digits
            .iter()
            .all(|c| (48 <= *c && *c <= 57) || (97 <= *c && *c <= 102))
}

// Whether this is the word for a kind of object.
fn is_type_word(word: &[u8]) -> bool
    ensures { IsTrue result ↔ IsTypeWord word.now }
{
    word == b"commit".as_slice()
        || word == b"tree".as_slice()
        || word == b"blob".as_slice()
        || word == b"tag".as_slice()
}

/// The number that is written so, in at most 18 digits without a leading zero.
pub fn header_size(digits: &[u8]) -> Option<u64>
    ensures some { IfSome result (λ n. (digits.now ≡ decimal n) × (n < 10 ^ 18)) }
    ensures none { IfNone result ((n : ℕ) → n < 10 ^ 18 → digits.now ≢ decimal n) }
{
    let Ok(text) = str::from_utf8(digits) else {
        return None;
    };
    let Ok(n) = text.parse::<u64>() else {
        return None;
    };
    if n >= 1_000_000_000_000_000_000 {
        return None;
    }
    let mut buffer = Buffer::new();
    if buffer.format(n).as_bytes() == digits {
        Some(n)
    } else {
        None
    }
}

/// The header line that the bytes begin with, if they begin with one.
pub fn read_header(bytes: &[u8]) -> Option<FrameHeader<'_>>
    ensures { MatchOption result (NoHeader bytes.now) (λ h. IsHeader h.digits.now h.word.now h.size × (bytes.now ≡ with_header h.digits.now h.word.now h.size h.rest.now)) }
{
    let (digits, rest) = cut_at(bytes, b' ')?;
    if !is_id(digits) {
        return None;
    }
    let (word, rest) = cut_at(rest, b' ')?;
    if !is_type_word(word) {
        return None;
    }
    let (number, rest) = cut_at(rest, b'\n')?;
    let size = header_size(number)?;
    Some(FrameHeader {
        digits,
        word,
        size,
        rest,
    })
}
