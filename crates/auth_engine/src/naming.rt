//! Commits under names.
ghost use Rattle.std.specs.Prelude.{◌≡◌, length, IfOk, IsTrue};
ghost use Rattle.std.specs.List.{AllByRecursion};
ghost use Rattle.child_ports.specs.Causes.{PortFailsByCount};
ghost use Rattle.child_ports.specs.Git.{IsName};
ghost use Rattle.child_ports.specs.Named.{NamedAtMost, is_full_id};
ghost use Rattle.hex.specs.Hex.{encode_lower};
ghost use Rattle.auth_engine.specs.Reading.{commit_named, first_named};

use auth_rules::What;
use child_ports::{Bytes, GitPort, PortFail};
use object_frames::{Fetched, FrameFail, Id, Kind, Object, fetch};
use std::alloc::Global;

/// The most bytes that a commit object may have.
const COMMIT_LIMIT: u64 = 1_048_576;

// The commit that a name stands for.
fn name_commit<G: GitPort>(
    alloc: Global,
    git: &mut G,
    dir: &str,
    name: &[u8],
) -> Result<Result<Object, What>, PortFail>
    requires { IsName name.now }
    ensures told { G.tells git.new ≡ G.tells git.old }
    ensures table { G.table git.new ≡ G.table git.old }
    ensures named { NamedAtMost 1 (G.named git.old) (G.named git.new) }
    ensures by_id { IsTrue (is_full_id name.now) → G.named git.new ≡ G.named git.old }
    ensures found { IfOk result (λ found. IsTrue (G.tells git.old) → found ≡ commit_named (G.table git.old) dir.now name.now) }
    ensures cause { PortFailsByCount (G.faults git.old) (G.faults git.new) result }
{
    match fetch(alloc, git, dir, name, COMMIT_LIMIT) {
        Ok(Fetched::Missing) => Ok(Err(What::Missing)),
        Ok(Fetched::Found(object)) => match object.kind {
            Kind::Commit => Ok(Ok(object)),
            kind => Ok(Err(What::Kind(kind))),
        },
        Err(FrameFail::Failed) => Err(PortFail::Failed),
        Err(FrameFail::Memory) => Err(PortFail::Memory),
        Err(fail) => Ok(Err(What::Frame(fail))),
    }
}

/// The commit of an id.
pub fn commit_by_id<G: GitPort>(
    alloc: Global,
    git: &mut G,
    dir: &str,
    id: &Id,
) -> Result<Result<Object, What>, PortFail>
    ensures told { G.tells git.new ≡ G.tells git.old }
    ensures table { G.table git.new ≡ G.table git.old }
    ensures named { G.named git.new ≡ G.named git.old }
    ensures found { IfOk result (λ found. IsTrue (G.tells git.old) → found ≡ commit_named (G.table git.old) dir.now (encode_lower id.now)) }
    ensures cause { PortFailsByCount (G.faults git.old) (G.faults git.new) result }
{
    let mut name = [0u8; 40];
    id.write_hex(&mut name);
    name_commit(alloc, git, dir, &name)
}

/// The commit that names stand for: the first that isn't missing has to be one.
pub fn name_first_commit<G: GitPort>(
    alloc: Global,
    git: &mut G,
    dir: &str,
    names: &[Bytes],
) -> Result<Result<Object, What>, PortFail>
    requires { AllByRecursion IsName names.now }
    ensures told { G.tells git.new ≡ G.tells git.old }
    ensures table { G.table git.new ≡ G.table git.old }
    ensures named { NamedAtMost (length names.now) (G.named git.old) (G.named git.new) }
    ensures found { IfOk result (λ found. IsTrue (G.tells git.old) → found ≡ first_named (G.table git.old) dir.now names.now) }
    ensures cause { PortFailsByCount (G.faults git.old) (G.faults git.new) result }
{
    for name in names {
        match name_commit(alloc, git, dir, name.as_slice())? {
            Err(What::Missing) => {}
            named => return Ok(named),
        }
    }
    Ok(Err(What::Missing))
}
