//! The first line of an answer.
ghost use Rattle.std.specs.Prelude.{◌≡◌, ◌≢◌, ◌⊎◌, ◌≤◌, ◌<◌, ◌++◌, List, ℕ, length, IfOk, IsTrue, MatchBool, MatchOption, codes};
ghost use Rattle.child_ports.specs.Causes.{FailsByCount};
ghost use Rattle.child_ports.specs.Git.{IsName, answer};
ghost use Rattle.child_ports.specs.Framed.{IsFramed};
ghost use Rattle.child_ports.specs.Named.{NamedAtMost, is_full_id};
ghost use Rattle.object_frames.specs.Head.{IsHead, IsOddHead, IsSmallHead, StartsWith};

use crate::fronts::front_of;
use crate::header::{Header, header_of};
use crate::reads::read_line;
use byte_cuts::after;
use child_ports::{Failed, GitPort};

/// What the first line of an answer says.
#[derive(Clone, Copy, Drop)]
pub enum Head {
    Missing,
    Object(Header),
    /// It is no header line from this place on.
    Odd(u64),
    /// The answer ends in it, at this place.
    Cut(u64),
}

// Whether the line, without its end, says that nothing or more than one thing has the name.
fn is_missing(line: &[u8], name: &[u8]) -> bool
    ensures { MatchBool result ((line.now ≡ name.now ++ codes " missing") ⊎ (line.now ≡ name.now ++ codes " ambiguous"))
        ((line.now ≢ name.now ++ codes " missing") × (line.now ≢ name.now ++ codes " ambiguous")) }
{
    let Some(rest) = after(line, name) else {
        return false;
    };
    if rest == b" missing".as_slice() {
        return true;
    }
    if rest == b" ambiguous".as_slice() {
        return true;
    }
    false
}

// What stands before an end.
fn before<'x>(text: &'x [u8], end: &[u8]) -> Option<&'x [u8]>
    ensures { MatchOption result ((front : List ℕ) → text.now ≢ front ++ end.now) (λ front. text.now ≡ front.now ++ end.now) }
{
    text.strip_suffix(end)
}

// Where a piece that is no header line ceases to be the front of one.
fn odd_head(line: &[u8], name: &[u8]) -> Head
    ensures { IsOddHead name.now line.now result }
{
    let front = front_of(line, name);
    if front < line.len() {
        Head::Odd(front as u64)
    } else {
        Head::Cut(line.len() as u64)
    }
}

// What a whole line says, or a piece that is none.
fn head_of(line: &[u8], name: &[u8]) -> Head
    ensures { IsHead name.now line.now result }
{
    let Some(text) = before(line, b"\n") else {
        return odd_head(line, name);
    };
    if is_missing(text, name) {
        return Head::Missing;
    }
    match header_of(text) {
        Some(header) => Head::Object(header),
        None => odd_head(line, name),
    }
}

/// Asks a name and reads the first line of the answer.
pub fn read_head<G: GitPort>(git: &mut G, dir: &str, name: &[u8]) -> Result<Head, Failed>
    requires { IsName name.now }
    ensures told { G.tells git.new ≡ G.tells git.old }
    ensures table { G.table git.new ≡ G.table git.old }
    ensures named { NamedAtMost 1 (G.named git.old) (G.named git.new) }
    ensures by_id { IsTrue (is_full_id name.now) → G.named git.new ≡ G.named git.old }
    ensures head { IfOk result (λ head. IsTrue (G.tells git.old) → StartsWith name.now (answer (G.table git.old) dir.now name.now) head (G.pending git.new)) }
    ensures small { IfOk result IsSmallHead }
    ensures framed { IsTrue (G.tells git.old) → IsFramed name.now (answer (G.table git.old) dir.now name.now) }
    ensures cause { FailsByCount (G.faults git.old) (G.faults git.new) result }
{
    git.ask(dir, name)?;
    let mut line = [0u8; 1035];
    let room = (name.len() + 11).max(67);
    let n = read_line(git, &mut line, room)?;
    Ok(head_of(&line[..n], name))
}
