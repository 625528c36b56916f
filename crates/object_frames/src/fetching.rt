//! Fetching an object.
ghost use Rattle.std.specs.Prelude.{◌≡◌, [], IfOk, IfErr, OnOk, IsTrue};
ghost use Rattle.child_ports.specs.Git.{IsName, answer};
ghost use Rattle.child_ports.specs.Named.{NamedAtMost, is_full_id};
ghost use Rattle.hex.specs.Hex.{encode_lower};
ghost use Rattle.object_frames.specs.Fetched.{IsFetched, IsGenuine, IsOfId, fetched_of, is_other_id, object_of, Gives};
ghost use Rattle.object_frames.specs.Faults.{MayBlame, IsFrameFault, FetchFailsByCount};

use crate::body::{Body, read_body};
use crate::head::{Head, read_head};
use crate::header::Header;
use crate::{Fetched, FrameFail, Id, Object, id_of};
use child_ports::{Bytes, GitPort, is_full_id};
use std::alloc::Global;

#[tactic(auto, unfolding(crate::specs::Fetched::is_other_id))]
// Whether a name is an id in full, and another one.
fn is_other_id(id: &Id, name: &[u8]) -> bool
    ensures { result ≡ is_other_id name.now id.now }
{
    if !is_full_id(name) {
        return false;
    }
    let mut digits = [0u8; 40];
    id.write_hex(&mut digits);
    name != digits.as_slice()
}

// The object of a content that was read whole.
fn object_of(header: Header, content: Bytes) -> Result<Fetched, FrameFail>
    ensures { result ≡ object_of header content }
{
    let computed = id_of(header.kind, content.as_slice());
    if computed != header.id {
        return Err(FrameFail::WrongId {
            claimed: header.id,
            computed,
        });
    }
    Ok(Fetched::Found(Object {
        id: header.id,
        kind: header.kind,
        content,
    }))
}

/// Asks a name once, and reads the one frame of its answer and no byte more.
///
/// An id of 40 lower-case digits as the name has to be the object's id. The content is at most `limit` bytes.
pub fn fetch<G: GitPort>(
    alloc: Global,
    git: &mut G,
    dir: &str,
    name: &[u8],
    limit: u64,
) -> Result<Fetched, FrameFail>
    requires { IsName name.now }
    ensures told { G.tells git.new ≡ G.tells git.old }
    ensures table { G.table git.new ≡ G.table git.old }
    // Where the port tells, the answer is that of the table, in whatever pieces it was read.
    ensures exact { IsTrue (G.tells git.old) → Gives result (fetched_of limit name.now (answer (G.table git.old) dir.now name.now)) }
    ensures end { OnOk result (IsTrue (G.tells git.old) → G.pending git.new ≡ []) }
    ensures found { IfOk result (λ fetched. IsTrue (G.tells git.old) → IsFetched limit name.now (answer (G.table git.old) dir.now name.now) fetched) }
    ensures fault { IfErr result (λ fail. IsTrue (G.tells git.old) → MayBlame (IsFrameFault limit name.now (answer (G.table git.old) dir.now name.now)) fail) }
    // Over any port: what is given is an object, a name is asked once at most, and an id in full isn't counted as one.
    ensures genuine { IfOk result (λ fetched. IsGenuine limit name.now fetched) }
    ensures named { NamedAtMost 1 (G.named git.old) (G.named git.new) }
    ensures by_id { IsTrue (is_full_id name.now) → G.named git.new ≡ G.named git.old }
    ensures cause { FetchFailsByCount (G.faults git.old) (G.faults git.new) result }
{
    let header = match read_head(git, dir, name)? {
        Head::Missing => return Ok(Fetched::Missing),
        Head::Odd(at) => return Err(FrameFail::Header(at)),
        Head::Cut(at) => return Err(FrameFail::Truncated(at)),
        Head::Object(header) => header,
    };
    if is_other_id(&header.id, name) {
        return Err(FrameFail::OtherId(header.id));
    }
    if header.size > limit {
        return Err(FrameFail::TooLarge(header.size));
    }
    match read_body(alloc, git, header.size)? {
        Body::Whole(content) => object_of(header, content),
        Body::Cut(n) => Err(FrameFail::Truncated(header.len + n)),
        Body::Open => Err(FrameFail::NoEnd),
    }
}

/// Asks for the object of an id, by its digits.
pub fn fetch_by_id<G: GitPort>(
    alloc: Global,
    git: &mut G,
    dir: &str,
    id: &Id,
    limit: u64,
) -> Result<Fetched, FrameFail>
    ensures told { G.tells git.new ≡ G.tells git.old }
    ensures table { G.table git.new ≡ G.table git.old }
    ensures exact { IsTrue (G.tells git.old) → Gives result (fetched_of limit (encode_lower id.now) (answer (G.table git.old) dir.now (encode_lower id.now))) }
    // Over any port: what is given is the object of this id, and no name is asked that can come to stand for another.
    ensures genuine { IfOk result (λ fetched. IsOfId limit id.now fetched) }
    ensures named { G.named git.new ≡ G.named git.old }
    ensures cause { FetchFailsByCount (G.faults git.old) (G.faults git.new) result }
{
    let mut name = [0u8; 40];
    id.write_hex(&mut name);
    fetch(alloc, git, dir, &name, limit)
}
