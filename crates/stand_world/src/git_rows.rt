//! What git answers in the world of a script.
ghost use Rattle.std.specs.Prelude.{◌≡◌, ◌++◌, ◌∷◌, [], codes, IfOk, OnOk};
ghost use Rattle.std.specs.List.{flat_map};
ghost use Rattle.stand_world.specs.World.{branch_name, remote_name, commit_name, row, object_row, file_rows, files_rows, commit_rows, head_rows, last_of, three_rows, branch_rows, key_object, key_rows, key_entry, keyring_tree, tree_rows, keyring_rows, rows_of};

use crate::commit::Commit;
use crate::declared::{Branch, Declared};
use crate::files::{Files, push_entry};
use crate::framed::{Framed, make_object};
use crate::key::Key;
use crate::texts::push_id;
use child_ports::{Bytes, GitRow, GitRows, Text};
use object_frames::Kind;
use std::alloc::{AllocError, Global};

// Adds a row for this name.
fn push_row(
    alloc: Global,
    rows: &mut GitRows,
    dir: &str,
    name: Bytes,
    frame: &[u8],
) -> Result<(), AllocError>
    ensures { OnOk result (rows.new ≡ rows.old ++ row dir.now name frame.now ∷ []) }
{
    let mut text = Text::new(alloc);
    text.push(dir)?;
    let answer = Bytes::from_slice(alloc, frame)?;
    rows.push(GitRow {
        dir: text,
        name,
        answer,
    })
}

// Adds an object under its id.
fn push_object(
    alloc: Global,
    rows: &mut GitRows,
    dir: &str,
    object: &Framed,
) -> Result<(), AllocError>
    ensures { OnOk result (rows.new ≡ rows.old ++ object_row dir.now object.now ∷ []) }
{
    let mut name = Bytes::new(alloc);
    push_id(&mut name, &object.id)?;
    push_row(alloc, rows, dir, name, object.frame.as_slice())
}

// Adds a file that is there.
fn push_file(
    alloc: Global,
    rows: &mut GitRows,
    dir: &str,
    file: &Option<Framed>,
) -> Result<(), AllocError>
    ensures { OnOk result (rows.new ≡ rows.old ++ file_rows dir.now file.now) }
{
    match file {
        Some(file) => push_object(alloc, rows, dir, file),
        None => Ok(()),
    }
}

// Adds a commit's files and root tree.
fn push_files(alloc: Global, rows: &mut GitRows, dir: &str, files: &Files) -> Result<(), AllocError>
    ensures { OnOk result (rows.new ≡ rows.old ++ files_rows dir.now files.now) }
{
    push_file(alloc, rows, dir, &files.authorizations)?;
    push_file(alloc, rows, dir, &files.channel)?;
    push_object(alloc, rows, dir, &files.root)
}

// Adds a commit with its objects.
fn push_commit(
    alloc: Global,
    rows: &mut GitRows,
    dir: &str,
    commit: &Commit,
) -> Result<(), AllocError>
    ensures { OnOk result (rows.new ≡ rows.old ++ commit_rows dir.now commit.now) }
{
    push_files(alloc, rows, dir, &commit.files)?;
    push_object(alloc, rows, dir, &commit.object)?;
    let mut id = Bytes::new(alloc);
    push_id(&mut id, &commit.object.id)?;
    let name = commit_name(alloc, id.as_slice())?;
    push_row(alloc, rows, dir, name, commit.object.frame.as_slice())
}

fn push_commits(
    alloc: Global,
    rows: &mut GitRows,
    dir: &str,
    commits: &[Commit],
) -> Result<(), AllocError>
    ensures { OnOk result (rows.new ≡ rows.old ++ flat_map (commit_rows dir.now) commits.now) }
{
    for commit in commits {
        push_commit(alloc, rows, dir, commit)?;
    }
    Ok(())
}

// Adds HEAD, at the last commit.
fn push_head(
    alloc: Global,
    rows: &mut GitRows,
    dir: &str,
    commits: &[Commit],
) -> Result<(), AllocError>
    ensures { OnOk result (rows.new ≡ rows.old ++ head_rows dir.now (last_of commits.now)) }
{
    match commits.last() {
        Some(commit) => {
            let name = commit_name(alloc, b"HEAD")?;
            push_row(alloc, rows, dir, name, commit.object.frame.as_slice())?;
            Ok(())
        }
        None => Ok(()),
    }
}

// The name of a branch, in full.
#[tactic(auto, unfolding(crate::specs::World::branch_name))]
fn branch_name(alloc: Global, name: &[u8]) -> Result<Bytes, AllocError>
    ensures { IfOk result (λ whole. whole ≡ branch_name name.now) }
{
    let mut whole = Bytes::from_slice(alloc, b"refs/heads/")?;
    whole.extend(name)?;
    Ok(whole)
}

// The name of a branch at the remote, in full.
#[tactic(auto, unfolding(crate::specs::World::remote_name))]
fn remote_name(alloc: Global, name: &[u8]) -> Result<Bytes, AllocError>
    ensures { IfOk result (λ whole. whole ≡ remote_name name.now) }
{
    let mut whole = Bytes::from_slice(alloc, b"refs/remotes/origin/")?;
    whole.extend(name)?;
    Ok(whole)
}

// The name of a commit.
#[tactic(auto, unfolding(crate::specs::World::commit_name))]
fn commit_name(alloc: Global, name: &[u8]) -> Result<Bytes, AllocError>
    ensures { IfOk result (λ whole. whole ≡ commit_name name.now) }
{
    let mut whole = Bytes::from_slice(alloc, name)?;
    whole.extend(b"^{commit}")?;
    Ok(whole)
}

// Adds what stands under a name, that of its branch, and that of its branch at the remote.
fn push_three(
    alloc: Global,
    rows: &mut GitRows,
    dir: &str,
    name: &[u8],
    frame: &[u8],
) -> Result<(), AllocError>
    ensures { OnOk result (rows.new ≡ rows.old ++ three_rows dir.now name.now frame.now) }
{
    push_row(alloc, rows, dir, Bytes::from_slice(alloc, name)?, frame)?;
    push_row(alloc, rows, dir, branch_name(alloc, name)?, frame)?;
    push_row(alloc, rows, dir, remote_name(alloc, name)?, frame)?;
    Ok(())
}

fn push_branch(
    alloc: Global,
    rows: &mut GitRows,
    dir: &str,
    branch: &Branch,
) -> Result<(), AllocError>
    ensures { OnOk result (rows.new ≡ rows.old ++ branch_rows dir.now branch.now) }
{
    let name = commit_name(alloc, branch.name.as_slice())?;
    push_three(alloc, rows, dir, name.as_slice(), branch.frame.as_slice())
}

fn push_branches(
    alloc: Global,
    rows: &mut GitRows,
    dir: &str,
    branches: &[Branch],
) -> Result<(), AllocError>
    ensures { OnOk result (rows.new ≡ rows.old ++ flat_map (branch_rows dir.now) branches.now) }
{
    for branch in branches {
        push_branch(alloc, rows, dir, branch)?;
    }
    Ok(())
}

// The file of a key.
fn key_object(alloc: Global, key: &Key) -> Result<Framed, AllocError>
    ensures { IfOk result (λ object. object ≡ key_object key.now) }
{
    make_object(alloc, Kind::Blob, key.packet.as_slice())
}

fn push_key(alloc: Global, rows: &mut GitRows, dir: &str, key: &Key) -> Result<(), AllocError>
    ensures { OnOk result (rows.new ≡ rows.old ++ key_rows dir.now key.now) }
{
    let object = key_object(alloc, key)?;
    push_object(alloc, rows, dir, &object)
}

fn push_keys(alloc: Global, rows: &mut GitRows, dir: &str, keys: &[Key]) -> Result<(), AllocError>
    ensures { OnOk result (rows.new ≡ rows.old ++ flat_map (key_rows dir.now) keys.now) }
{
    for key in keys {
        push_key(alloc, rows, dir, key)?;
    }
    Ok(())
}

fn push_key_entry(alloc: Global, tree: &mut Bytes, key: &Key) -> Result<(), AllocError>
    ensures { OnOk result (tree.new ≡ tree.old ++ key_entry key.now) }
{
    let object = key_object(alloc, key)?;
    push_entry(tree, key.file.as_slice(), &object.id)
}

fn push_key_entries(alloc: Global, tree: &mut Bytes, keys: &[Key]) -> Result<(), AllocError>
    ensures { OnOk result (tree.new ≡ tree.old ++ flat_map key_entry keys.now) }
{
    for key in keys {
        push_key_entry(alloc, tree, key)?;
    }
    Ok(())
}

// The tree of the keys' files.
#[tactic(auto, unfolding(crate::specs::World::keyring_tree))]
fn keyring_tree(alloc: Global, keys: &[Key]) -> Result<Framed, AllocError>
    ensures { IfOk result (λ tree. tree ≡ keyring_tree keys.now) }
{
    let mut tree = Bytes::new(alloc);
    push_key_entries(alloc, &mut tree, keys)?;
    make_object(alloc, Kind::Tree, tree.as_slice())
}

// Adds the keyring's tree.
fn push_tree(alloc: Global, rows: &mut GitRows, dir: &str, tree: &Framed) -> Result<(), AllocError>
    ensures { OnOk result (rows.new ≡ rows.old ++ tree_rows dir.now tree.now) }
{
    push_object(alloc, rows, dir, tree)?;
    push_three(alloc, rows, dir, b"keyring^{tree}", tree.frame.as_slice())?;
    Ok(())
}

fn push_keyring(
    alloc: Global,
    rows: &mut GitRows,
    dir: &str,
    keys: &[Key],
) -> Result<(), AllocError>
    ensures { OnOk result (rows.new ≡ rows.old ++ keyring_rows dir.now keys.now) }
{
    push_keys(alloc, rows, dir, keys)?;
    let tree = keyring_tree(alloc, keys)?;
    push_tree(alloc, rows, dir, &tree)
}

/// What git answers where this is declared.
pub fn git_rows_of(alloc: Global, dir: &str, declared: &Declared) -> Result<GitRows, AllocError>
    ensures { IfOk result (λ rows. rows ≡ rows_of dir.now declared.now) }
{
    let mut rows = GitRows::new(alloc);
    push_commits(alloc, &mut rows, dir, declared.commits.as_slice())?;
    push_head(alloc, &mut rows, dir, declared.commits.as_slice())?;
    push_branches(alloc, &mut rows, dir, declared.branches.as_slice())?;
    push_keyring(alloc, &mut rows, dir, declared.keys.as_slice())?;
    Ok(rows)
}
