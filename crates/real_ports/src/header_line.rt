//! The header line of an answer, as its bytes go by.
ghost use Rattle.std.specs.Prelude.{◌≡◌, ◌↔◌, ◌≤◌, ◌+◌, ◌<◌, Bool, List, ℕ, ◌++◌, take, length, IsTrue};
ghost use Rattle.std.specs.Bool.{OnTrue};
ghost use Rattle.real_ports.specs.Rest.{IsLinePart};
ghost use Rattle.real_ports.specs.Goes.{Goes};

use crate::rest::{Rest, behind};
use byte_cuts::cut_at;

/// The longest header line: a name of 1,024 bytes, ` ambiguous` and a line feed.
const LONGEST: usize = 1035;

/// The part of a header line that was read so far, and the name that was asked.
#[derive(Drop)]
pub struct HeaderLine {
    bytes: [u8; LONGEST],
    len: usize,
    name: [u8; LONGEST],
    name_len: usize,
    ghost fits: { len ≤ 1035 },
    ghost name_fits: { name_len ≤ 1035 },
}

impl HeaderLine {
    pub fn new() -> HeaderLine
        ensures { result.len ≡ 0 }
    {
        HeaderLine {
            bytes: [0; LONGEST],
            len: 0,
            name: [0; LONGEST],
            name_len: 0,
        }
    }

    /// Begins a line that answers this name.
    pub fn begin(&mut self, name: &[u8])
        ensures line { self.new.len ≡ 0 }
        ensures name { take self.new.name_len self.new.name ≡ take 1035 name.now }
    {
        let len = name.len().min(LONGEST);
        let mut copy = [0; LONGEST];
        copy[..len].copy_from_slice(&name[..len]);
        self.len = 0;
        self.name = copy;
        self.name_len = len;
    }

    // Adds to the line, where it doesn't get too long.
    fn add(&mut self, part: &[u8]) -> bool
        ensures fits { IsTrue result ↔ (self.old.len + length part.now ≤ 1035) }
        ensures line { OnTrue result (take self.new.len self.new.bytes ≡ take self.old.len self.old.bytes ++ part.now) }
        ensures name { take self.new.name_len self.new.name ≡ take self.old.name_len self.old.name }
    {
        let len = self.len;
        if part.len() > LONGEST - len {
            return false;
        }
        let end = len + part.len();
        self.bytes[len..end].copy_from_slice(part);
        self.len = end;
        true
    }

    /// Follows the bytes of an answer: how many of them belong to the header line, and what is to come.
    pub fn follow(&mut self, input: &[u8]) -> (usize, Rest)
        ensures bound { result.0 ≤ length input.now }
        ensures name { take self.new.name_len self.new.name ≡ take self.old.name_len self.old.name }
        ensures exact { (part : List ℕ) × (ends : Bool) × IsLinePart input.now part ends × (result.0 ≡ length part) × Goes (take self.old.name_len self.old.name) (take self.old.len self.old.bytes) part ends result.1 (take self.new.len self.new.bytes) }
    {
        let (part, ends) = line_part(input);
        let used = part.len();
        if !self.add(part) {
            return (used, Rest::Unknown);
        }
        if !ends {
            return (used, Rest::Header);
        }
        let rest = behind(&self.name[..self.name_len], &self.bytes[..self.len]);
        (used, rest)
    }
}

// The part of the bytes that belongs to a line, and whether the line ends there.
fn line_part(bytes: &[u8]) -> (&[u8], bool)
    ensures { IsLinePart bytes.now result.0.now result.1 }
{
    match cut_at(bytes, b'\n') {
        Some((front, _)) => (&bytes[..front.len() + 1], true),
        None => (bytes, false),
    }
}
