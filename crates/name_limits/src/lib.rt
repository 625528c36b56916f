//! What words, names and keys may be.
//!
//! `specs/Limits.antt` has each limit, and a function here for each answers whether it is kept. None of them takes memory.
#![tactic(auto)]

ghost use Rattle.std.specs.Prelude.{◌≡◌, ◌==◌};
ghost use Rattle.std.specs.List.{list_all, slice_split};
ghost use Rattle.name_limits.specs.Limits as limits;

#[cfg(test)]
mod tests;

/// Whether no byte is below 32 and none is 127.
pub fn are_plain(bytes: &[u8]) -> bool
    ensures { result ≡ limits.are_plain bytes.now }
{
    bytes.iter().all(|b| 32 <= *b && *b != 127)
}

/// Whether a word is plain, and has at most 4,096 bytes.
pub fn is_word(word: &str) -> bool
    ensures { result ≡ limits.is_word word.now }
{
    word.len() <= 4096 && are_plain(word.as_bytes())
}

/// Whether a path is plain, and not empty.
pub fn is_path(path: &str) -> bool
    ensures { result ≡ limits.is_path path.now }
{
    !path.is_empty() && are_plain(path.as_bytes())
}

/// Whether a reference of git in a word is plain, and has 1 to 900 bytes.
pub fn is_reference(name: &str) -> bool
    ensures { result ≡ limits.is_reference name.now }
{
    !name.is_empty() && name.len() <= 900 && are_plain(name.as_bytes())
}

/// Whether a name that git is asked is plain, and has 1 to 1,024 bytes.
pub fn is_askable(name: &[u8]) -> bool
    ensures { result ≡ limits.is_askable name.now }
{
    1 <= name.len() && name.len() <= 1024 && are_plain(name)
}

// Whether all bytes are ASCII letters, digits, or of `-_+./`.
fn are_key_bytes(key: &[u8]) -> bool
    ensures { result ≡ list_all limits.is_key_byte key.now }
{
    key.iter().all(
        |b| matches!(*b, b'a'..=b'z' | b'A'..=b'Z' | b'0'..=b'9' | b'-' | b'_' | b'+' | b'.' | b'/'),
    )
}

// Whether a part of a key is neither empty nor `.` or `..`.
fn is_key_part(part: &str) -> bool
    ensures { result ≡ limits.is_key_part part.now }
{
    !part.is_empty() && part != "." && part != ".."
}

// Whether the parts between `/` are so.
fn are_key_parts(key: &str) -> bool
    ensures { result ≡ list_all limits.is_key_part (slice_split (λ b. b == 47) key.now) }
{
    key.split('/').all(|part| is_key_part(part))
}

// Whether a key is kept for what is deployed.
fn is_deployed(key: &str) -> bool
    ensures { result ≡ limits.is_deployed key.now }
{
    key.starts_with("deployed/")
}

/// Whether a text is a key of the cache: 1 to 200 ASCII letters, digits, or bytes of `-_+./`, of which no part between `/` is
/// empty, `.` or `..`, and which doesn't begin with `deployed/`.
#[tactic(auto, unfolding(crate::specs::Limits::is_cache_key))]
pub fn is_cache_key(key: &str) -> bool
    ensures { result ≡ limits.is_cache_key key.now }
{
    !key.is_empty()
        && key.len() <= 200
        && are_key_bytes(key.as_bytes())
        && are_key_parts(key)
        && !is_deployed(key)
}
