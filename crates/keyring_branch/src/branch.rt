//! Reading the keyring of a branch.
ghost use Rattle.std.specs.Prelude.{◌≡◌, ◌≢◌, length, codes, Ok, Err, IfOk, IfErr, OnOk, IsTrue};
ghost use Rattle.std.specs.FinSet.{union};
ghost use Rattle.std.specs.List.{AllByRecursion};
ghost use Rattle.child_ports.specs.Causes.{PortFailsByCount};
ghost use Rattle.child_ports.specs.Git.{IsName};
ghost use Rattle.child_ports.specs.Named.{NamedAtMost};
ghost use Rattle.keyring_branch.specs.Genuine.{IsTreeOfItsId, IsPartOf, IsAddedTo, IsOfItsTree};
ghost use Rattle.keyring_branch.specs.Keyring.{IsKeyring};
ghost use Rattle.keyring_branch.specs.KeyringFaults.{IsPlainBad, IsPlain, KeyringFailsByCount};
ghost use Rattle.keyring_branch.specs.KeyringReading.{tree_by_kind, root_of, part_by_kind, file_of, with_part, with_files, key_files, keyring_of, Gives};
ghost use Rattle.tree_entries.specs.Asked.{AreFiles};
ghost use Rattle.tree_entries.specs.Reading.{files_of};
ghost use Rattle.keyring_branch.specs.declared.keyring.Keyring.{Keyring};

#[cfg(test)]
mod tests;

use crate::key_file::{KeyPart, read_part};
use crate::{FileBad, KeyFail, Keyring, KeyringFail};
use child_ports::{Bytes, GitPort, KeySet, Names, PortFail};
use object_frames::{Fetched, FrameFail, Id, Kind, Object, fetch, fetch_by_id};
use std::alloc::{AllocError, Global};
use tree_entries::{Entries, Entry, TreeFail, files_ending};

/// The most bytes that a branch's root tree may have.
const TREE_LIMIT: u64 = 16_777_216;

/// The most bytes that a key file may have.
const KEY_FILE_LIMIT: u64 = 4_194_304;

/// The most bytes that the packets of all key files may have.
const KEYRING_LIMIT: usize = 67_108_864;

// The object, if it is a tree.
fn as_tree(object: Object) -> Result<Object, KeyringFail>
    ensures exact { result ≡ tree_by_kind object.kind object }
    ensures plain { IfErr result (λ fault. IsPlain fault) }
{
    match object.kind {
        Kind::Tree => Ok(object),
        kind => Err(KeyringFail::Kind(kind)),
    }
}

// The branch's root tree: the first of the names that isn't missing.
fn fetch_root<G: GitPort>(
    alloc: Global,
    git: &mut G,
    dir: &str,
    names: &[Bytes],
) -> Result<Object, KeyringFail>
    requires { AllByRecursion IsName names.now }
    ensures told { G.tells git.new ≡ G.tells git.old }
    ensures table { G.table git.new ≡ G.table git.old }
    ensures named { NamedAtMost (length names.now) (G.named git.old) (G.named git.new) }
    ensures exact { IsTrue (G.tells git.old) → Gives result (root_of (G.table git.old) dir.now names.now) }
    ensures genuine { IfOk result (λ root. IsTreeOfItsId root) }
    ensures cause { KeyringFailsByCount (G.faults git.old) (G.faults git.new) result }
    ensures plain { IfErr result (λ fault. IsPlain fault) }
{
    for name in names {
        match fetch(alloc, git, dir, name.as_slice(), TREE_LIMIT) {
            Ok(Fetched::Missing) => {}
            Ok(Fetched::Found(object)) => return as_tree(object),
            Err(FrameFail::Failed) => return Err(KeyringFail::GitFault),
            Err(FrameFail::Memory) => return Err(KeyringFail::Memory),
            Err(fail) => return Err(KeyringFail::Frame(fail)),
        }
    }
    Err(KeyringFail::NoBranch)
}

// What an object gives as a key file.
fn part_of(alloc: Global, object: &Object) -> Result<Result<KeyPart, FileBad>, AllocError>
    ensures exact { IfOk result (λ part. part ≡ part_by_kind object.now.kind object.now) }
    ensures plain { IfOk result (λ part. IfErr part (λ fault. IsPlainBad fault)) }
{
    match object.kind {
        Kind::Blob => match read_part(alloc, object.content.as_slice()) {
            Ok(part) => Ok(Ok(part)),
            Err(KeyFail::Memory) => Err(AllocError),
            Err(fail) => Ok(Err(FileBad::Key(fail))),
        },
        kind => Ok(Err(FileBad::Kind(kind))),
    }
}

// What the key file with this id gives.
fn read_file<G: GitPort>(
    alloc: Global,
    git: &mut G,
    dir: &str,
    id: &Id,
) -> Result<Result<KeyPart, FileBad>, PortFail>
    ensures told { G.tells git.new ≡ G.tells git.old }
    ensures table { G.table git.new ≡ G.table git.old }
    ensures named { G.named git.new ≡ G.named git.old }
    ensures exact { IfOk result (λ part. IsTrue (G.tells git.old) → part ≡ file_of (G.table git.old) dir.now id.now) }
    ensures genuine { IfOk result (λ part. IfOk part (IsPartOf id.now)) }
    ensures cause { PortFailsByCount (G.faults git.old) (G.faults git.new) result }
    ensures plain { IfOk result (λ part. IfErr part (λ fault. IsPlainBad fault)) }
{
    match fetch_by_id(alloc, git, dir, id, KEY_FILE_LIMIT) {
        Ok(Fetched::Missing) => Ok(Err(FileBad::Missing)),
        Ok(Fetched::Found(object)) => {
            let part = part_of(alloc, &object)?;
            Ok(part)
        }
        Err(FrameFail::Failed) => Err(PortFail::Failed),
        Err(FrameFail::Memory) => Err(PortFail::Memory),
        Err(fail) => Ok(Err(FileBad::Frame(fail))),
    }
}

// Adds all keys of one set to another.
fn add_keys(keys: &mut KeySet, more: &KeySet) -> Result<(), AllocError>
    ensures { OnOk result (keys.new ≡ union keys.old more.now) }
{
    for key in more.as_slice() {
        keys.insert(*key)?;
    }
    Ok(())
}

// The keyring with one file more.
fn with_part(keyring: Keyring, part: &KeyPart) -> Result<Keyring, KeyringFail>
    ensures exact { Gives result (with_part keyring part.now) }
    ensures no_call { result ≢ Err KeyringFail.GitFault }
    ensures plain { IfErr result (λ fault. IsPlain fault) }
{
    let Keyring {
        tree,
        mut bytes,
        mut keys,
    } = keyring;
    bytes.extend(part.bytes.as_slice())?;
    if bytes.len() > KEYRING_LIMIT {
        return Err(KeyringFail::TooLarge);
    }
    add_keys(&mut keys, &part.keys)?;
    Ok(Keyring { tree, bytes, keys })
}

// The keyring with these files more.
fn with_files<G: GitPort>(
    alloc: Global,
    git: &mut G,
    dir: &str,
    start: Keyring,
    files: &[Entry],
) -> Result<Keyring, KeyringFail>
    ensures told { G.tells git.new ≡ G.tells git.old }
    ensures table { G.table git.new ≡ G.table git.old }
    ensures named { G.named git.new ≡ G.named git.old }
    ensures exact { IsTrue (G.tells git.old) → Gives result (with_files (G.table git.old) dir.now start files.now) }
    ensures genuine { IfOk result (λ keyring. IsAddedTo start files.now keyring) }
    ensures cause { KeyringFailsByCount (G.faults git.old) (G.faults git.new) result }
    ensures plain { IfErr result (λ fault. IsPlain fault) }
{
    let mut keyring = start;
    for file in files {
        let part = match read_file(alloc, git, dir, &file.id)? {
            Ok(part) => part,
            Err(bad) => {
                return Err(KeyringFail::File {
                    name: Bytes::from_slice(alloc, file.name.as_slice())?,
                    bad,
                });
            }
        };
        keyring = with_part(keyring, &part)?;
    }
    Ok(keyring)
}

// The key files of a tree.
fn key_files(alloc: Global, content: &[u8]) -> Result<Entries, KeyringFail>
    ensures files { IfOk result (λ files. AreFiles 20 content.now (codes ".key") files) }
    ensures exact { Gives result (key_files (files_of content.now (codes ".key"))) }
    ensures no_call { result ≢ Err KeyringFail.GitFault }
    ensures plain { IfErr result (λ fault. IsPlain fault) }
{
    match files_ending(alloc, content, b".key") {
        Ok(files) => Ok(files),
        Err(TreeFail::Memory) => Err(KeyringFail::Memory),
        Err(fail) => Err(KeyringFail::Tree(fail)),
    }
}

/// Reads the keyring of a branch. The first of the names that isn't missing is its root tree, and the tree's files whose
/// names end in `.key` are its key files.
#[tactic(auto, unfolding(crate::specs::KeyringReading::keyring_of))]
pub fn read_keyring<G: GitPort>(
    alloc: Global,
    git: &mut G,
    dir: &str,
    names: &Names,
) -> Result<Keyring, KeyringFail>
    requires { AllByRecursion IsName names.now }
    ensures told { G.tells git.new ≡ G.tells git.old }
    ensures table { G.table git.new ≡ G.table git.old }
    // Where the port tells, the answer is what the reading of its table gives, in whatever pieces it comes.
    ensures exact { IsTrue (G.tells git.old) → Gives result (keyring_of (G.table git.old) dir.now names.now) }
    // What is read is the keyring that the names stand for, and what they stand for is the reading.
    ensures found { IfOk result (λ keyring. IsTrue (G.tells git.old) → IsKeyring (G.table git.old) dir.now names.now keyring) }
    ensures only { (keyring : Keyring) → IsKeyring (G.table git.old) dir.now names.now keyring → keyring_of (G.table git.old) dir.now names.now ≡ Ok keyring }
    // Over any port, what is read is the keyring of a tree that has its id, and no more names are asked than
    // there are.
    ensures genuine { IfOk result (λ keyring. IsOfItsTree keyring) }
    ensures named { NamedAtMost (length names.now) (G.named git.old) (G.named git.new) }
    // Over any port, `GitFault` comes exactly where a call failed. It is told as such, and so is want of memory.
    ensures cause { KeyringFailsByCount (G.faults git.old) (G.faults git.new) result }
    ensures plain { IfErr result (λ fault. IsPlain fault) }
{
    let root = fetch_root(alloc, git, dir, names.as_slice())?;
    let files = key_files(alloc, root.content.as_slice())?;
    let empty = Keyring {
        tree: root.id,
        bytes: Bytes::new(alloc),
        keys: KeySet::new(alloc),
    };
    with_files(alloc, git, dir, empty, files.as_slice())
}
