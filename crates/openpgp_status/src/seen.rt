//! What the lines of a status text say, one after another.
ghost use Rattle.std.specs.Prelude.{◌≡◌, ◌||◌, [], ◌∷◌, bytes_eq};
ghost use Rattle.byte_cuts.specs.Cuts.{parts_at};
ghost use Rattle.openpgp_status.specs.Judging.{keyword_of, line_of, reading_of, status_lines_from};
ghost use Rattle.openpgp_status.specs.Seen.{judged_by, valid_with, with_line, with_lines};

use crate::Judged;
use crate::fields::key_and_hash;
use byte_cuts::{after, cut_at};

/// What the lines so far say.
#[derive(Clone, Copy, Drop)]
pub struct Seen {
    pub bad: bool,
    pub unchecked: bool,
    pub no_key: bool,
    pub no_data: bool,
    /// What the VALIDSIG lines alone say.
    pub valid: Judged,
}

// The keyword of a status line, of which this follows the mark.
fn keyword_of(text: &[u8]) -> &[u8]
    ensures { result.now ≡ keyword_of (parts_at 32 text.now) }
{
    match cut_at(text, b' ') {
        Some((keyword, _)) => keyword,
        None => text,
    }
}

// What a VALIDSIG line says, of which this follows the mark.
fn read_valid(number: u64, text: &[u8]) -> Judged
    ensures { result ≡ reading_of (line_of number (parts_at 32 text.now)) }
{
    match key_and_hash(text) {
        Some((key, hash)) => Judged::Valid { key, hash },
        None => Judged::Unreadable(number),
    }
}

// What VALIDSIG lines say with one more status line, of which this follows the mark.
fn with_valid(judged: Judged, number: u64, text: &[u8]) -> Judged
    ensures { result ≡ valid_with judged (line_of number (parts_at 32 text.now)) }
{
    if keyword_of(text) != b"VALIDSIG".as_slice() {
        return judged;
    }
    match judged {
        Judged::Nothing => read_valid(number, text),
        _ => Judged::Several,
    }
}

// Whether a line with this keyword was seen, with one more that has the keyword.
fn or_has(seen: bool, keyword: &[u8], wanted: &[u8]) -> bool
    ensures { result ≡ (seen || bytes_eq keyword.now wanted.now) }
{
    seen || keyword == wanted
}

impl Seen {
    /// No line is seen yet.
    pub const NOTHING: Seen = Seen {
        bad: false,
        unchecked: false,
        no_key: false,
        no_data: false,
        valid: Judged::Nothing,
    };

    // What is seen with a status line, of which this follows the mark.
    fn with_status(self, number: u64, text: &[u8]) -> Seen
        ensures { result ≡ with_line self (line_of number (parts_at 32 text.now)) }
    {
        let keyword = keyword_of(text);
        Seen {
            bad: or_has(self.bad, keyword, b"BADSIG"),
            unchecked: or_has(self.unchecked, keyword, b"ERRSIG"),
            no_key: or_has(self.no_key, keyword, b"NO_PUBKEY"),
            no_data: or_has(self.no_data, keyword, b"NODATA"),
            valid: with_valid(self.valid, number, text),
        }
    }

    /// What is seen with one more line, which has this number.
    pub fn with(self, number: u64, line: &[u8]) -> Seen
        ensures { result ≡ with_lines self (status_lines_from number (line.now ∷ [])) }
    {
        match after(line, b"[GNUPG:] ") {
            Some(text) => self.with_status(number, text),
            None => self,
        }
    }

    /// What is judged of what is seen.
    pub fn judged(self) -> Judged
        ensures { result ≡ judged_by self }
    {
        if self.bad || (self.unchecked && !self.no_key) {
            Judged::Bad
        } else if self.no_key {
            Judged::NoKey
        } else if self.no_data {
            Judged::NoData
        } else {
            self.valid
        }
    }
}
