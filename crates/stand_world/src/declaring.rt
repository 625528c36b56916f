//! What a line adds to what is declared.
ghost use Rattle.std.specs.Prelude.{◌≡◌, ◌≤◌, length, IfOk};
ghost use Rattle.std.specs.List.{insert};
ghost use Rattle.stand_world.specs.Script.{each_of, id_named, listed_named, parents_in, listed_in, signing_key, precedes, put_key, with_key, with_meta, commit_in, add_commit, with_commit, add_branch, branch_at, branch_in, with_branch, after_statement, after_line};

use crate::commit::{Commit, SigningKey, make_commit};
use crate::declared::{Branch, Declared, find_branch, find_commit, find_key};
use crate::files::{Listed, ListedKeys, make_files};
use crate::key::Key;
use crate::line::{BranchLine, CommitLine, Signer, Statement, read_line};
use child_ports::{Bytes, Items, Names};
use object_frames::{Id, IdList};
use std::alloc::{AllocError, Global};

// Whether the name of a key's file comes before that of another's.
fn precedes(key: &Key, other: &Key) -> bool
    ensures { result ≡ precedes key.now other.now }
{
    key.file.as_slice().cmp(other.file.as_slice()).is_lt()
}

// Where a key stands among keys that are ascending by the names of their files.
fn place_of(key: &Key, keys: &[Key]) -> usize
    ensures within { result ≤ length keys.now }
    ensures place { insert keys.now result key.now ≡ put_key key.now keys.now }
{
    let mut place = 0;
    while place < keys.len() {
        if precedes(key, &keys[place]) {
            return place;
        }
        place += 1;
    }
    place
}

fn put_key(keys: Items<Key>, key: Key) -> Result<Items<Key>, AllocError>
    ensures { IfOk result (λ more. more ≡ put_key key keys) }
{
    let place = place_of(&key, keys.as_slice());
    let mut list = keys.into_vec();
    list.insert(place, key)?;
    Ok(Items::from_vec(list))
}

fn declare_key(before: Declared, key: Key) -> Result<Option<Declared>, AllocError>
    ensures { IfOk result (λ after. after ≡ with_key before key) }
{
    if find_key(before.keys.as_slice(), key.name.as_slice()).is_some() {
        return Ok(None);
    }
    let Declared {
        keys,
        meta,
        commits,
        branches,
    } = before;
    let keys = put_key(keys, key)?;
    Ok(Some(Declared {
        keys,
        meta,
        commits,
        branches,
    }))
}

fn declare_meta(before: Declared, text: Option<Bytes>) -> Declared
    ensures { result ≡ with_meta before text }
{
    let Declared {
        keys,
        meta: _,
        commits,
        branches,
    } = before;
    Declared {
        keys,
        meta: text,
        commits,
        branches,
    }
}

// The id of the commit of this name.
fn id_named(commits: &[Commit], name: &[u8]) -> Option<Id>
    ensures { result ≡ id_named commits.now name.now }
{
    let commit = find_commit(commits, name)?;
    Some(commit.object.id)
}

// The ids of the commits of these names.
fn ids_named(
    alloc: Global,
    commits: &[Commit],
    names: &[Bytes],
) -> Result<Option<IdList>, AllocError>
    ensures { IfOk result (λ ids. ids ≡ each_of (id_named commits.now) names.now) }
{
    let mut ids = IdList::new(alloc);
    for name in names {
        let Some(id) = id_named(commits, name.as_slice()) else {
            return Ok(None);
        };
        ids.push(id)?;
    }
    Ok(Some(ids))
}

// The parents of a line.
fn parents_in(
    alloc: Global,
    commits: &[Commit],
    names: &Option<Names>,
) -> Result<Option<IdList>, AllocError>
    ensures { IfOk result (λ parents. parents ≡ parents_in commits.now names.now) }
{
    match names {
        Some(names) => ids_named(alloc, commits, names.as_slice()),
        None => Ok(Some(IdList::new(alloc))),
    }
}

// The key of this name, as a file of authorisations lists it.
fn listed_named(alloc: Global, keys: &[Key], name: &[u8]) -> Result<Option<Listed>, AllocError>
    ensures { IfOk result (λ listed. listed ≡ listed_named keys.now name.now) }
{
    let Some(key) = find_key(keys, name) else {
        return Ok(None);
    };
    let print = key.print;
    let name = Bytes::from_slice(alloc, name)?;
    Ok(Some(Listed { name, print }))
}

// The keys of these names.
fn each_listed(
    alloc: Global,
    keys: &[Key],
    names: &[Bytes],
) -> Result<Option<ListedKeys>, AllocError>
    ensures { IfOk result (λ listed. listed ≡ each_of (listed_named keys.now) names.now) }
{
    let mut all = ListedKeys::new(alloc);
    for name in names {
        let Some(listed) = listed_named(alloc, keys, name.as_slice())? else {
            return Ok(None);
        };
        all.push(listed)?;
    }
    Ok(Some(all))
}

// The keys that a line's file lists.
fn listed_in(
    alloc: Global,
    keys: &[Key],
    names: &Option<Names>,
) -> Result<Option<Option<ListedKeys>>, AllocError>
    ensures { IfOk result (λ listed. listed ≡ listed_in keys.now names.now) }
{
    let Some(names) = names else {
        return Ok(Some(None));
    };
    match each_listed(alloc, keys, names.as_slice())? {
        Some(listed) => Ok(Some(Some(listed))),
        None => Ok(None),
    }
}

// The key that signs.
fn signing_key(keys: &[Key], signer: &Option<Signer>) -> Option<Option<SigningKey>>
    ensures { result ≡ signing_key keys.now signer.now }
{
    let Some(signer) = signer else {
        return Some(None);
    };
    let key = find_key(keys, signer.key.as_slice())?;
    Some(Some(SigningKey {
        print: key.print,
        hash: signer.hash,
    }))
}

// The commit of a line.
#[tactic(auto, unfolding(crate::specs::Script::commit_in))]
fn commit_in(
    alloc: Global,
    before: &Declared,
    line: &CommitLine,
) -> Result<Option<Commit>, AllocError>
    ensures { IfOk result (λ commit. commit ≡ commit_in before.now line.now) }
{
    let Some(parents) = parents_in(alloc, before.commits.as_slice(), &line.parents)? else {
        return Ok(None);
    };
    let Some(signer) = signing_key(before.keys.as_slice(), &line.signer) else {
        return Ok(None);
    };
    let Some(listed) = listed_in(alloc, before.keys.as_slice(), &line.file)? else {
        return Ok(None);
    };
    let files = make_files(alloc, &listed, &before.meta)?;
    let name = line.name.as_slice();
    let commit = make_commit(alloc, name, files, parents.as_slice(), &signer)?;
    Ok(Some(commit))
}

fn add_commit(before: Declared, commit: Commit) -> Result<Declared, AllocError>
    ensures { IfOk result (λ after. after ≡ add_commit before commit) }
{
    let Declared {
        keys,
        meta,
        mut commits,
        branches,
    } = before;
    commits.push(commit)?;
    Ok(Declared {
        keys,
        meta,
        commits,
        branches,
    })
}

fn declare_commit(
    alloc: Global,
    before: Declared,
    line: &CommitLine,
) -> Result<Option<Declared>, AllocError>
    ensures { IfOk result (λ after. after ≡ with_commit before line.now) }
{
    if find_commit(before.commits.as_slice(), line.name.as_slice()).is_some() {
        return Ok(None);
    }
    match commit_in(alloc, &before, line)? {
        Some(commit) => Ok(Some(add_commit(before, commit)?)),
        None => Ok(None),
    }
}

fn add_branch(before: Declared, branch: Branch) -> Result<Declared, AllocError>
    ensures { IfOk result (λ after. after ≡ add_branch before branch) }
{
    let Declared {
        keys,
        meta,
        commits,
        mut branches,
    } = before;
    branches.push(branch)?;
    Ok(Declared {
        keys,
        meta,
        commits,
        branches,
    })
}

// A branch of this name at a commit.
fn branch_at(alloc: Global, name: &[u8], commit: &Commit) -> Result<Branch, AllocError>
    ensures { IfOk result (λ branch. branch ≡ branch_at name.now commit.now) }
{
    let name = Bytes::from_slice(alloc, name)?;
    let frame = Bytes::from_slice(alloc, commit.object.frame.as_slice())?;
    Ok(Branch { name, frame })
}

// The branch of a line.
fn branch_in(
    alloc: Global,
    before: &Declared,
    line: &BranchLine,
) -> Result<Option<Branch>, AllocError>
    ensures { IfOk result (λ branch. branch ≡ branch_in before.now line.now) }
{
    match find_commit(before.commits.as_slice(), line.commit.as_slice()) {
        Some(commit) => Ok(Some(branch_at(alloc, line.name.as_slice(), commit)?)),
        None => Ok(None),
    }
}

fn declare_branch(
    alloc: Global,
    before: Declared,
    line: &BranchLine,
) -> Result<Option<Declared>, AllocError>
    ensures { IfOk result (λ after. after ≡ with_branch before line.now) }
{
    if find_branch(before.branches.as_slice(), line.name.as_slice()).is_some() {
        return Ok(None);
    }
    match branch_in(alloc, &before, line)? {
        Some(branch) => Ok(Some(add_branch(before, branch)?)),
        None => Ok(None),
    }
}

// What is declared after a statement.
fn declare(alloc: Global, before: Declared, said: Statement) -> Result<Option<Declared>, AllocError>
    ensures { IfOk result (λ after. after ≡ after_statement before said) }
{
    match said {
        Statement::Nothing => Ok(Some(before)),
        Statement::Key(key) => declare_key(before, key),
        Statement::Meta(text) => Ok(Some(declare_meta(before, text))),
        Statement::Commit(line) => declare_commit(alloc, before, &line),
        Statement::Branch(line) => declare_branch(alloc, before, &line),
    }
}

/// What is declared after a line, unless it is at fault.
#[tactic(auto, unfolding(crate::specs::Script::after_line))]
pub fn after_line(
    alloc: Global,
    before: Declared,
    line: &[u8],
) -> Result<Option<Declared>, AllocError>
    ensures { IfOk result (λ after. after ≡ after_line before line.now) }
{
    match read_line(alloc, line)? {
        Some(said) => declare(alloc, before, said),
        None => Ok(None),
    }
}
