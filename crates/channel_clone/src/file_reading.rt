//! A file of a commit.
ghost use Rattle.std.specs.Prelude.{◌≡◌, false, Err, IsTrue};
ghost use Rattle.child_ports.specs.Causes.{RoseWhen};
ghost use Rattle.auth_rules.specs.World.{Id as Name};
ghost use Rattle.auth_rules.specs.Answers.{Reads, is_read_fault};
ghost use Rattle.auth_engine.specs.Answers.{Gives, is_git_fault, is_sig_fault, is_keep_fault};
ghost use Rattle.channel_clone.specs.Files.{unread, blob_in, blob_named, content_of, file_of};

use auth_engine::EngineFail;
use auth_rules::{FILE_LIMIT, ReadFail, TREE_LIMIT, What, blob_of, read_commit_at, read_content};
use child_ports::{Bytes, GitPort};
use object_frames::{Id, Kind};
use std::alloc::Global;
use tree_entries::{TreeFail, find};

// What follows from it that an object isn't read.
fn unread(id: Id, fail: ReadFail) -> EngineFail
    ensures fail { result ≡ unread id fail }
    ensures no_sig_fault { is_sig_fault {T = Name} (Err result) ≡ false }
    ensures no_keep_fault { is_keep_fault {T = Name} (Err result) ≡ false }
{
    match fail {
        ReadFail::Unreadable(what) => EngineFail::Object { id, what },
        ReadFail::GitFault => EngineFail::GitFault,
        ReadFail::Memory => EngineFail::Memory,
    }
}

// The blob of the file of a name in the content of a tree.
fn blob_in(alloc: Global, name: &[u8], content: &[u8]) -> Result<Option<Id>, ReadFail>
    ensures exact { Reads result (blob_in name.now content.now) }
    ensures no_fault { is_read_fault result ≡ false }
{
    match find(alloc, content, name) {
        Ok(Some(entry)) => Ok(blob_of(&entry)),
        Ok(None) => Ok(None),
        Err(TreeFail::Memory) => Err(ReadFail::Memory),
        Err(fail) => Err(ReadFail::Unreadable(What::Tree(fail))),
    }
}

// The blob of the file of a name in a tree.
fn read_blob_named<G: GitPort>(
    alloc: Global,
    git: &mut G,
    dir: &str,
    name: &[u8],
    tree: Id,
) -> Result<Option<Id>, ReadFail>
    ensures told { G.tells git.new ≡ G.tells git.old }
    ensures table { G.table git.new ≡ G.table git.old }
    ensures named { G.named git.new ≡ G.named git.old }
    ensures exact { IsTrue (G.tells git.old) → Reads result (blob_named (G.table git.old) dir.now name.now tree) }
    ensures cause { RoseWhen (is_read_fault result) (G.faults git.old) (G.faults git.new) }
{
    let content = read_content(alloc, git, dir, Kind::Tree, TREE_LIMIT, tree)?;
    blob_in(alloc, name, content.as_slice())
}

// The content of a blob, if there is one.
fn read_blob<G: GitPort>(
    alloc: Global,
    git: &mut G,
    dir: &str,
    blob: Option<Id>,
) -> Result<Option<Bytes>, EngineFail>
    ensures told { G.tells git.new ≡ G.tells git.old }
    ensures table { G.table git.new ≡ G.table git.old }
    ensures named { G.named git.new ≡ G.named git.old }
    ensures exact { IsTrue (G.tells git.old) → Gives result (content_of (G.table git.old) dir.now blob) }
    ensures cause { RoseWhen (is_git_fault result) (G.faults git.old) (G.faults git.new) }
    ensures no_sig_fault { is_sig_fault result ≡ false }
    ensures no_keep_fault { is_keep_fault result ≡ false }
{
    let Some(blob) = blob else {
        return Ok(None);
    };
    match read_content(alloc, git, dir, Kind::Blob, FILE_LIMIT, blob) {
        Ok(content) => Ok(Some(content)),
        Err(fail) => Err(unread(blob, fail)),
    }
}

/// The content of the file of a name in the root tree of a commit, of at most 1,048,576 bytes; or none, where no entry of this
/// name is a file.
pub fn read_file<G: GitPort>(
    alloc: Global,
    git: &mut G,
    dir: &str,
    commit: Id,
    name: &[u8],
) -> Result<Option<Bytes>, EngineFail>
    // What git's answers give, or `Object` with the first that can't be read of commit, tree and blob.
    ensures exact { IsTrue (G.tells git.old) → Gives result (file_of (G.table git.old) dir.now commit name.now) }

    // A fault comes exactly where a call of git failed.
    ensures cause { RoseWhen (is_git_fault result) (G.faults git.old) (G.faults git.new) }
    ensures no_sig_fault { is_sig_fault result ≡ false }
    ensures no_keep_fault { is_keep_fault result ≡ false }
    ensures told { G.tells git.new ≡ G.tells git.old }
    ensures table { G.table git.new ≡ G.table git.old }
    ensures named { G.named git.new ≡ G.named git.old }
{
    let tree = match read_commit_at(alloc, git, dir, commit) {
        Ok(found) => found.tree,
        Err(fail) => return Err(unread(commit, fail)),
    };
    let blob = match read_blob_named(alloc, git, dir, name, tree) {
        Ok(blob) => blob,
        Err(fail) => return Err(unread(tree, fail)),
    };
    read_blob(alloc, git, dir, blob)
}
