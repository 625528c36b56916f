//! Objects, read by their ids.
ghost use Rattle.std.specs.Prelude.{◌≡◌, false, IsTrue};
ghost use Rattle.child_ports.specs.Causes.{RoseWhen};
ghost use Rattle.auth_rules.specs.World.{content_at, commit_at, file_at, listing_at, is_kind, blob_of, file_in};
ghost use Rattle.auth_rules.specs.Answers.{Reads, is_read_fault};

use crate::limits::{COMMIT_LIMIT, FILE_LIMIT, TREE_LIMIT};
use crate::{ReadFail, What};
use authorizations::{AuthFail, KeySet, read_authorizations};
use child_ports::{Bytes, GitPort};
use commit_objects::{Commit, CommitFail, read_commit};
use object_frames::{Fetched, FrameFail, Id, Kind, fetch_by_id};
use std::alloc::Global;
use tree_entries::{Entry, TreeFail, find};

// Whether a kind is the wanted one.
fn is_kind(kind: Kind, wanted: Kind) -> bool
    ensures { result ≡ is_kind kind wanted }
{
    kind == wanted
}

/// The content of the object of this id, which has to be of the wanted kind and at most so many bytes long; or why it can't
/// be read.
pub fn read_content<G: GitPort>(
    alloc: Global,
    git: &mut G,
    dir: &str,
    wanted: Kind,
    limit: u64,
    id: Id,
) -> Result<Bytes, ReadFail>
    ensures told { G.tells git.new ≡ G.tells git.old }
    ensures table { G.table git.new ≡ G.table git.old }
    ensures named { G.named git.new ≡ G.named git.old }
    ensures exact { IsTrue (G.tells git.old) → Reads result (content_at (G.table git.old) dir.now wanted limit id) }
    ensures cause { RoseWhen (is_read_fault result) (G.faults git.old) (G.faults git.new) }
{
    match fetch_by_id(alloc, git, dir, &id, limit) {
        Ok(Fetched::Missing) => Err(ReadFail::Unreadable(What::Missing)),
        Ok(Fetched::Found(object)) => {
            if is_kind(object.kind, wanted) {
                Ok(object.content)
            } else {
                Err(ReadFail::Unreadable(What::Kind(object.kind)))
            }
        }
        Err(FrameFail::Failed) => Err(ReadFail::GitFault),
        Err(FrameFail::Memory) => Err(ReadFail::Memory),
        Err(fail) => Err(ReadFail::Unreadable(What::Frame(fail))),
    }
}

/// The commit of this id, or why it can't be read.
pub fn read_commit_at<G: GitPort>(
    alloc: Global,
    git: &mut G,
    dir: &str,
    id: Id,
) -> Result<Commit, ReadFail>
    ensures told { G.tells git.new ≡ G.tells git.old }
    ensures table { G.table git.new ≡ G.table git.old }
    ensures named { G.named git.new ≡ G.named git.old }
    // It is what git's answer stands for, unless a call failed or memory is wanting.
    ensures exact { IsTrue (G.tells git.old) → Reads result (commit_at (G.table git.old) dir.now id) }
    // A fault comes exactly where a call of git failed.
    ensures cause { RoseWhen (is_read_fault result) (G.faults git.old) (G.faults git.new) }
{
    let content = read_content(alloc, git, dir, Kind::Commit, COMMIT_LIMIT, id)?;
    match read_commit(alloc, content.as_slice()) {
        Ok(commit) => Ok(commit),
        Err(CommitFail::Memory) => Err(ReadFail::Memory),
        Err(fail) => Err(ReadFail::Unreadable(What::Commit(fail))),
    }
}

/// The blob of an entry, where the entry is a file.
pub fn blob_of(entry: &Entry) -> Option<Id>
    ensures { result ≡ blob_of entry.now }
{
    if entry.mode.is_file() {
        Some(entry.id)
    } else {
        None
    }
}

// The file of authorisations in the content of a tree.
fn file_in(alloc: Global, content: &[u8]) -> Result<Option<Id>, ReadFail>
    ensures exact { Reads result (file_in content.now) }
    ensures no_fault { is_read_fault result ≡ false }
{
    match find(alloc, content, b".guix-authorizations") {
        Ok(Some(entry)) => Ok(blob_of(&entry)),
        Ok(None) => Ok(None),
        Err(TreeFail::Memory) => Err(ReadFail::Memory),
        Err(fail) => Err(ReadFail::Unreadable(What::Tree(fail))),
    }
}

/// The file of authorisations in the tree of this id, where it has one, or why the tree can't be read.
pub fn read_file_at<G: GitPort>(
    alloc: Global,
    git: &mut G,
    dir: &str,
    id: Id,
) -> Result<Option<Id>, ReadFail>
    ensures told { G.tells git.new ≡ G.tells git.old }
    ensures table { G.table git.new ≡ G.table git.old }
    ensures named { G.named git.new ≡ G.named git.old }
    ensures exact { IsTrue (G.tells git.old) → Reads result (file_at (G.table git.old) dir.now id) }
    ensures cause { RoseWhen (is_read_fault result) (G.faults git.old) (G.faults git.new) }
{
    let content = read_content(alloc, git, dir, Kind::Tree, TREE_LIMIT, id)?;
    file_in(alloc, content.as_slice())
}

/// The keys that the blob of this id lists, or why it is no file of authorisations; or why it can't be read.
pub fn read_listing_at<G: GitPort>(
    alloc: Global,
    git: &mut G,
    dir: &str,
    id: Id,
) -> Result<Result<KeySet, AuthFail>, ReadFail>
    ensures told { G.tells git.new ≡ G.tells git.old }
    ensures table { G.table git.new ≡ G.table git.old }
    ensures named { G.named git.new ≡ G.named git.old }
    ensures exact { IsTrue (G.tells git.old) → Reads result (listing_at (G.table git.old) dir.now id) }
    ensures cause { RoseWhen (is_read_fault result) (G.faults git.old) (G.faults git.new) }
{
    let content = read_content(alloc, git, dir, Kind::Blob, FILE_LIMIT, id)?;
    match read_authorizations(alloc, content.as_slice()) {
        Ok(keys) => Ok(Ok(keys)),
        Err(AuthFail::Memory) => Err(ReadFail::Memory),
        Err(fail) => Ok(Err(fail)),
    }
}
