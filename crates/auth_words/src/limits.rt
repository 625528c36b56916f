//! What words and values may be.
ghost use Rattle.std.specs.Prelude.{◌≡◌};
ghost use Rattle.std.specs.List.{list_all};
ghost use Rattle.name_limits.specs.Limits as limits;
ghost use Rattle.auth_words.specs.Limits.{fits};
ghost use Rattle.auth_words.specs.GivenInside.{value_seen};

use child_ports::Text;
use name_limits::{is_cache_key, is_path, is_reference, is_word};

/// Whether all words are plain, and have at most 4,096 bytes each.
pub fn are_words(words: &[Text]) -> bool
    ensures { result ≡ list_all limits.is_word words.now }
{
    words.iter().all(|word| is_word(word.as_str()))
}

/// Whether the path that is given, if one is, is one.
pub fn fits_path(path: Option<&str>) -> bool
    ensures { result ≡ fits limits.is_path (value_seen path.entry) }
{
    match path {
        Some(path) => is_path(path),
        None => true,
    }
}

/// Whether the reference that is given, if one is, is one.
pub fn fits_reference(name: Option<&str>) -> bool
    ensures { result ≡ fits limits.is_reference (value_seen name.entry) }
{
    match name {
        Some(name) => is_reference(name),
        None => true,
    }
}

/// Whether the key that is given, if one is, is one.
pub fn fits_cache_key(key: Option<&str>) -> bool
    ensures { result ≡ fits limits.is_cache_key (value_seen key.entry) }
{
    match key {
        Some(key) => is_cache_key(key),
        None => true,
    }
}
