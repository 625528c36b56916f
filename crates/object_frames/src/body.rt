//! What follows a header line: a content and a line feed.
ghost use Rattle.std.specs.Prelude.{◌≡◌, ◌≤◌, ◌<◌, ◌∷◌, ◌++◌, List, ℕ, length, IfOk, IsTrue, MatchOption};
ghost use Rattle.child_ports.specs.Causes.{PortFailsByCount};
ghost use Rattle.object_frames.specs.Body.{body_of, IsWithin, Leaves, ReadsContent};

use crate::reads::{next_byte, read_full};
use child_ports::{Bytes, GitPort, PortFail};
use std::alloc::Global;

/// What follows a header line.
#[derive(Debug, Drop)]
pub enum Body {
    /// The content, and a line feed.
    Whole(Bytes),
    /// So many bytes, which are fewer than the content and its line feed.
    Cut(u64),
    /// The content, and a byte that isn't a line feed.
    Open,
}

// Reads a content of this size, or what there is of it.
fn read_content<G: GitPort>(
    alloc: Global,
    git: &mut G,
    size: u64,
) -> Result<(Bytes, usize), PortFail>
    ensures told { G.tells git.new ≡ G.tells git.old }
    ensures table { G.table git.new ≡ G.table git.old }
    ensures named { G.named git.new ≡ G.named git.old }
    ensures content { IfOk result (λ read. ReadsContent size (IsTrue (G.tells git.old)) (G.pending git.old) (G.pending git.new) read.0 read.1) }
    ensures cause { PortFailsByCount (G.faults git.old) (G.faults git.new) result }
{
    let mut bytes = vec![in alloc; 0u8; size as usize]?;
    let n = read_full(git, bytes.as_mut_slice())?;
    Ok((Bytes::from_vec(bytes), n))
}

/// Reads a content of this size and the line feed after it, or what there is of them.
pub fn read_body<G: GitPort>(alloc: Global, git: &mut G, size: u64) -> Result<Body, PortFail>
    ensures told { G.tells git.new ≡ G.tells git.old }
    ensures table { G.table git.new ≡ G.table git.old }
    ensures named { G.named git.new ≡ G.named git.old }
    ensures within { IfOk result (λ body. IsWithin size body) }
    ensures body { IfOk result (λ body. IsTrue (G.tells git.old) → body ≡ body_of size (G.pending git.old)) }
    ensures rest { IfOk result (λ body. IsTrue (G.tells git.old) → Leaves (G.pending git.old) (G.pending git.new) body) }
    ensures cause { PortFailsByCount (G.faults git.old) (G.faults git.new) result }
{
    let (content, n) = read_content(alloc, git, size)?;
    if n < content.len() {
        return Ok(Body::Cut(n as u64));
    }
    match next_byte(git)? {
        Some(b'\n') => Ok(Body::Whole(content)),
        Some(_) => Ok(Body::Open),
        None => Ok(Body::Cut(size)),
    }
}
