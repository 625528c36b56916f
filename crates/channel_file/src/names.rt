//! What names and addresses of channels may be.
ghost use Rattle.std.specs.Prelude.{◌≡◌};
ghost use Rattle.std.specs.List.{list_all};
ghost use Rattle.channel_file.specs.Names as names;

use name_limits::{is_path, is_word};

// Whether a byte is an ASCII letter or digit.
fn is_alphanumeric(byte: u8) -> bool
    ensures { result ≡ names.is_alphanumeric byte }
{
    matches!(byte, b'a'..=b'z' | b'A'..=b'Z' | b'0'..=b'9')
}

// Whether a byte is one of these, or one of `-_+.`.
fn is_name_byte(byte: u8) -> bool
    ensures { result ≡ names.is_name_byte byte }
{
    is_alphanumeric(byte) || matches!(byte, b'-' | b'_' | b'+' | b'.')
}

// Whether the first byte is a letter or a digit.
fn begins_so(name: &[u8]) -> bool
    ensures { result ≡ names.begins_so name.now }
{
    match name {
        [first, ..] => is_alphanumeric(*first),
        [] => false,
    }
}

// Whether all bytes are such.
fn are_name_bytes(name: &[u8]) -> bool
    ensures { result ≡ list_all names.is_name_byte name.now }
{
    name.iter().all(|b| is_name_byte(*b))
}

/// Whether a text can name a channel.
pub fn is_channel_name(name: &str) -> bool
    ensures { result ≡ names.is_channel_name name.now }
{
    name.len() <= 64 && begins_so(name.as_bytes()) && are_name_bytes(name.as_bytes())
}

/// Whether a text can be where a channel is fetched from.
pub fn is_url(url: &str) -> bool
    ensures { result ≡ names.is_url url.now }
{
    is_path(url) && is_word(url)
}
