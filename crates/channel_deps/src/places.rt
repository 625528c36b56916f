//! Where a channel stands, and under which names and keys.
ghost use Rattle.std.specs.Prelude.{◌≡◌, [], ◌∷◌, ◌++◌, codes, unwrap_or, true, IsTrue, IfOk, IfSome};
ghost use Rattle.std.specs.List.{AllByRecursion};
ghost use Rattle.hex.specs.Hex.{encode_lower};
ghost use Rattle.child_ports.specs.Git.{IsName};
ghost use Rattle.name_limits.specs.Limits.{is_reference};
ghost use Rattle.object_frames.specs.Id.{IsId};
ghost use Rattle.auth_engine.specs.Limits.{task_fits};
ghost use Rattle.channel_file.specs.Limits.{IsFit};
ghost use Rattle.channel_deps.specs.Places.{clone_of, branch_names, target_names, cache_key, deployed_key, task_of};

use auth_engine::Task;
use authorizations::KeySet;
use channel_file::{Channel, Introduction};
use child_ports::{Bytes, Names, Text};
use object_frames::Id;
use std::alloc::{AllocError, Global};

/// A copy of a text.
pub fn copied(alloc: Global, text: &Text) -> Result<Text, AllocError>
    ensures { IfOk result (λ copy. copy ≡ text.now) }
{
    let mut copy = Text::new(alloc);
    copy.push(text.as_str())?;
    Ok(copy)
}

// Two texts, one behind the other.
fn joined(alloc: Global, front: &str, back: &str) -> Result<Text, AllocError>
    ensures { IfOk result (λ text. text ≡ front.now ++ back.now) }
{
    let mut text = Text::new(alloc);
    text.push(front)?;
    text.push(back)?;
    Ok(text)
}

/// The clone of a channel.
pub fn clone_of(alloc: Global, clones: &Text, channel: &Channel) -> Result<Text, AllocError>
    ensures { IfOk result (λ dir. dir ≡ clone_of clones.now channel.now) }
{
    let mut dir = joined(alloc, clones.as_str(), "/")?;
    dir.push(channel.name.as_str())?;
    Ok(dir)
}

/// The key of a channel's cache.
pub fn cache_key(alloc: Global, channel: &Channel) -> Result<Text, AllocError>
    ensures { IfOk result (λ key. key ≡ cache_key channel.now) }
{
    joined(alloc, "channels/", channel.name.as_str())
}

/// The key of a channel's deployed commit.
pub fn deployed_key(alloc: Global, channel: &Channel) -> Result<Text, AllocError>
    ensures { IfOk result (λ key. key ≡ deployed_key channel.now) }
{
    joined(alloc, "deployed/", channel.name.as_str())
}

// A name of git: a branch between these bytes.
fn branch_name(alloc: Global, front: &[u8], branch: &str, kind: &[u8]) -> Result<Bytes, AllocError>
    ensures { IfOk result (λ name. name ≡ front.now ++ (branch.now ++ kind.now)) }
{
    let mut name = Bytes::new(alloc);
    name.extend(front)?;
    name.extend(branch.as_bytes())?;
    name.extend(kind)?;
    Ok(name)
}

// The names of a branch: as its origin has it, and then its own.
fn branch_names(alloc: Global, branch: &str, kind: &[u8]) -> Result<Names, AllocError>
    ensures { IfOk result (λ names. names ≡ branch_names branch.now kind.now) }
{
    let mut names = Names::new(alloc);
    names.push(branch_name(alloc, b"refs/remotes/origin/", branch, kind)?)?;
    names.push(branch_name(alloc, b"refs/heads/", branch, kind)?)?;
    Ok(names)
}

// The one name of an id: its digits, with this behind them.
fn id_names(alloc: Global, id: Id, kind: &[u8]) -> Result<Names, AllocError>
    ensures names { IfOk result (λ names. names ≡ (encode_lower id ++ kind.now) ∷ []) }
    ensures id { IfOk result (λ _. IsId id) }
{
    let mut digits = [0u8; 40];
    id.write_hex(&mut digits);
    let mut name = Bytes::new(alloc);
    name.extend(&digits)?;
    name.extend(kind)?;
    let mut names = Names::new(alloc);
    names.push(name)?;
    Ok(names)
}

/// The names of a channel's target.
pub fn target_names(alloc: Global, channel: &Channel) -> Result<Names, AllocError>
    requires { IsFit channel.now }
    ensures names { IfOk result (λ names. names ≡ target_names channel.now) }
    ensures asked { IfOk result (λ names. AllByRecursion IsName names) }
{
    match channel.commit {
        Some(commit) => id_names(alloc, commit, b"^{commit}"),
        None => branch_names(alloc, channel.branch.as_str(), b"^{commit}"),
    }
}

// The branch of keys that metadata names.
fn reference_of(reference: &Option<Text>) -> &str
    ensures { result.now ≡ unwrap_or reference.now (codes "keyring") }
{
    match reference {
        Some(reference) => reference.as_str(),
        None => "keyring",
    }
}

/// The task of a channel.
pub fn make_task(
    alloc: Global,
    clones: &Text,
    channel: &Channel,
    introduction: Introduction,
    reference: &Option<Text>,
    target: Id,
) -> Result<Task, AllocError>
    requires fit { IsFit channel.now }
    requires reference { IfSome reference.now (λ name. is_reference name ≡ true) }
    ensures task { IfOk result (λ task. task ≡ task_of clones.now channel.now introduction reference.now target) }
    ensures fits { IfOk result (λ task. IsTrue (task_fits task)) }
{
    let dir = clone_of(alloc, clones, channel)?;
    let names = id_names(alloc, target, b"")?;
    let keyring = branch_names(alloc, reference_of(reference), b"^{tree}")?;
    let cache_key = cache_key(alloc, channel)?;
    Ok(Task {
        dir,
        target: names,
        intro: introduction.commit,
        signer: introduction.signer,
        historical: KeySet::new(alloc),
        keyring,
        cache_key,
    })
}
