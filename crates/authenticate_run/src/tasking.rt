//! The task of a plan.
ghost use Rattle.std.specs.Prelude.{◌≡◌, ◌++◌, [], ◌∷◌, codes, IsTrue, IfOk};
ghost use Rattle.auth_engine.specs.Limits.{task_fits};
ghost use Rattle.auth_words.specs.Words.{IsFitting};
ghost use Rattle.authenticate_run.specs.Outside.{task_for};

use auth_engine::Task;
use auth_words::Plan;
use authorizations::KeySet;
use child_ports::{Bytes, Names, Text};
use std::alloc::{AllocError, Global};

// A copy of a text.
fn copied(alloc: Global, text: &Text) -> Result<Text, AllocError>
    ensures { IfOk result (λ copy. copy ≡ text.now) }
{
    let mut copy = Text::new(alloc);
    copy.push(text.as_str())?;
    Ok(copy)
}

// A name of git between these bytes.
fn named(alloc: Global, before: &[u8], name: &Text, after: &[u8]) -> Result<Bytes, AllocError>
    ensures { IfOk result (λ bytes. bytes ≡ before.now ++ (name.now ++ after.now)) }
{
    let mut bytes = Bytes::new(alloc);
    bytes.extend(before)?;
    bytes.extend(name.as_str().as_bytes())?;
    bytes.extend(after)?;
    Ok(bytes)
}

// The names of the target.
fn target_names(alloc: Global, end: &Text) -> Result<Names, AllocError>
    ensures { IfOk result (λ names. names ≡ (end.now ++ codes "^{commit}") ∷ []) }
{
    let mut names = Names::new(alloc);
    names.push(named(alloc, b"", end, b"^{commit}")?)?;
    Ok(names)
}

// The names of the keyring branch's root tree.
fn keyring_names(alloc: Global, keyring: &Text) -> Result<Names, AllocError>
    ensures { IfOk result (λ names. names ≡ (keyring.now ++ codes "^{tree}") ∷ (codes "refs/remotes/origin/" ++ (keyring.now ++ codes "^{tree}")) ∷ []) }
{
    let mut names = Names::new(alloc);
    names.push(named(alloc, b"", keyring, b"^{tree}")?)?;
    names.push(named(alloc, b"refs/remotes/origin/", keyring, b"^{tree}")?)?;
    Ok(names)
}

/// The task of a plan, with these historical keys.
pub fn make_task(alloc: Global, plan: &Plan, historical: KeySet) -> Result<Task, AllocError>
    requires { IsFitting plan.now }
    ensures task { IfOk result (λ task. task ≡ task_for plan.now historical) }
    ensures fits { IfOk result (λ task. IsTrue (task_fits task)) }
{
    let dir = copied(alloc, &plan.repository)?;
    let target = target_names(alloc, &plan.end)?;
    let keyring = keyring_names(alloc, &plan.keyring)?;
    let cache_key = copied(alloc, &plan.cache_key)?;
    Ok(Task {
        dir,
        target,
        intro: plan.intro,
        signer: plan.signer,
        historical,
        keyring,
        cache_key,
    })
}
