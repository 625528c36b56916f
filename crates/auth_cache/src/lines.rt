//! What stands on a line of a cache's text.
ghost use Rattle.std.specs.Prelude.{◌≡◌};
ghost use Rattle.auth_cache.specs.Reading.{version_on, id_on, key_on};

use byte_cuts::after;
use child_ports::{Fingerprint, header_size};
use object_frames::Id;

/// The number of the version.
pub fn version_on(line: &[u8]) -> Option<u32>
    ensures { result ≡ version_on line.now }
{
    let digits = after(line, b"guix-auth-cache ")?;
    let number = header_size(digits)?;
    if number > 0xFFFF_FFFF {
        return None;
    }
    Some(number as u32)
}

/// The id behind this word, in lower case.
pub fn id_on(line: &[u8], word: &[u8]) -> Option<Id>
    ensures { result ≡ id_on word.now line.now }
{
    Id::of_lower_hex(after(line, word)?)
}

/// The fingerprint behind this word, in upper case.
pub fn key_on(line: &[u8], word: &[u8]) -> Option<Fingerprint>
    ensures { result ≡ key_on word.now line.now }
{
    let digits = after(line, word)?;
    let key = Fingerprint::of_hex(digits)?;
    let mut written = [0u8; 40];
    key.write_hex(&mut written);
    if written.as_slice() == digits {
        Some(key)
    } else {
        None
    }
}
