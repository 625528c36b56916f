//! What is still to come of an answer.
ghost use Rattle.std.specs.Prelude.{◌≡◌, ◌↔◌, ◌++◌, IsTrue};
ghost use Rattle.real_ports.specs.Rest.{IsAbsence, IsBehind, body_after, rest_after, is_to_come};

use byte_cuts::after;
use child_ports::read_header;

/// What is still to come of an answer.
#[derive(Clone, Copy, PartialEq, Eq)]
pub enum Rest {
    /// Nothing: the answer was read whole, or none was asked for.
    Nothing,
    /// The header line, or what is left of it.
    Header,
    /// So many bytes: what is left of the content, and its line feed.
    Body(u64),
    /// It isn't known.
    Unknown,
}

impl Rest {
    /// Whether a read has to give bytes.
    pub fn is_to_come(self) -> bool
        ensures { result ≡ is_to_come self }
    {
        match self {
            Rest::Header | Rest::Body(_) => true,
            Rest::Nothing | Rest::Unknown => false,
        }
    }

    /// What is left once bytes beyond the header line were read.
    pub fn after(self, more: usize) -> Rest
        ensures { result ≡ rest_after self more }
    {
        match self {
            Rest::Body(left) => after_body(left, more),
            rest => { if more == 0 { rest } else { Rest::Unknown } }
        }
    }
}

/// What is left of the content and its line feed once so many bytes were read.
pub fn after_body(left: u64, count: usize) -> Rest
    ensures { result ≡ body_after left count }
{
    let count = count as u64;
    if count < left {
        Rest::Body(left - count)
    } else if count == left {
        Rest::Nothing
    } else {
        Rest::Unknown
    }
}

// Whether bytes are such a front and such an end.
fn is_joined(front: &[u8], end: &[u8], whole: &[u8]) -> bool
    ensures { IsTrue result ↔ (whole.now ≡ front.now ++ end.now) }
{
    match after(whole, front) {
        Some(rest) => rest == end,
        None => false,
    }
}

// Whether a line says that nothing is there, or more than one object.
fn is_absence(name: &[u8], line: &[u8]) -> bool
    ensures { IsTrue result ↔ IsAbsence name.now line.now }
{
    is_joined(name, b" missing\n", line) || is_joined(name, b" ambiguous\n", line)
}

/// What comes behind a whole line that answers a name.
pub fn behind(name: &[u8], line: &[u8]) -> Rest
    ensures { IsBehind name.now line.now result }
{
    if is_absence(name, line) {
        return Rest::Nothing;
    }
    match read_header(line) {
        Some(header) => Rest::Body(header.size.saturating_add(1)),
        None => Rest::Unknown,
    }
}
