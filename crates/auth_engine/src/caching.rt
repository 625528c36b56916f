//! What is kept of earlier checks, and what is to be kept of this one.
ghost use Rattle.std.specs.Prelude.{◌≡◌, Some, IfOk, IfSome, IsTrue, false};
ghost use Rattle.std.specs.FinMap as map;
ghost use Rattle.child_ports.specs.Causes.{RoseWhen};
ghost use Rattle.auth_cache.specs.Entries.{with_id};
ghost use Rattle.auth_cache.specs.Found.{CanBeRecorded};
ghost use Rattle.auth_engine.specs.Answers.{Gives, is_git_fault, is_sig_fault, is_keep_fault};
ghost use Rattle.auth_engine.specs.Outcome.{pair_of};
ghost use Rattle.auth_engine.specs.Starting.{cached_of};
ghost use Rattle.auth_engine.specs.Steps.{store_of};

use crate::{EngineFail, Task};
use auth_cache::{CacheFail, Entries, read_cache, write_cache};
use authorizations::Scope;
use child_ports::{Keeper, Pair, PortFail, Text};
use object_frames::{Id, IdList};
use std::alloc::{AllocError, Global};

// The entries of a kept text under the scope.
fn entries_in(alloc: Global, text: &[u8], scope: &Scope) -> Result<Entries, EngineFail>
    ensures entries { Gives result (cached_of scope.now (Some text.now)) }
    ensures no_git_fault { is_git_fault result ≡ false }
    ensures no_sig_fault { is_sig_fault result ≡ false }
    ensures no_keep_fault { is_keep_fault result ≡ false }
{
    match read_cache(alloc, text, scope) {
        Ok(entries) => Ok(entries),
        Err(CacheFail::Memory) => Err(EngineFail::Memory),
        Err(fail) => Err(EngineFail::Cache(fail)),
    }
}

/// The entries that are kept under a key for the scope.
pub fn load_entries<K: Keeper>(
    alloc: Global,
    keeper: &mut K,
    key: &str,
    scope: &Scope,
) -> Result<Entries, EngineFail>
    ensures entries { IsTrue (K.tells keeper.old) → Gives result (cached_of scope.now (map.get (K.kept keeper.old) key.now)) }
    ensures keep_fault { RoseWhen (is_keep_fault result) (K.faults keeper.old) (K.faults keeper.new) }
    ensures told { K.tells keeper.new ≡ K.tells keeper.old }
    ensures kept { K.kept keeper.new ≡ K.kept keeper.old }
    ensures stores { K.stores keeper.new ≡ K.stores keeper.old }
    ensures no_git_fault { is_git_fault result ≡ false }
    ensures no_sig_fault { is_sig_fault result ≡ false }
{
    match keeper.load(alloc, key) {
        Ok(Some(text)) => entries_in(alloc, text.as_slice(), scope),
        Ok(None) => Ok(Entries::new(alloc)),
        Err(PortFail::Failed) => Err(EngineFail::KeepFault),
        Err(PortFail::Memory) => Err(EngineFail::Memory),
    }
}

// A copy of a text.
fn copied(alloc: Global, text: &str) -> Result<Text, AllocError>
    ensures { IfOk result (λ copy. copy ≡ text.now) }
{
    let mut copy = Text::new(alloc);
    copy.push(text)?;
    Ok(copy)
}

// The target before the entries that were read, as a value to be kept.
fn make_pair(
    alloc: Global,
    task: &Task,
    scope: &Scope,
    target: Id,
    entries: &Entries,
) -> Result<Pair, AllocError>
    ensures pair { IfOk result (λ pair. pair ≡ pair_of task.now scope.now target entries.now) }
    ensures recorded { IfOk result (λ _. CanBeRecorded scope.now (with_id target entries.now)) }
{
    let with_target = entries.with(alloc, target)?;
    let value = write_cache(alloc, scope, &with_target)?;
    let key = copied(alloc, task.cache_key.as_str())?;
    Ok(Pair { key, value })
}

/// What is to be kept once these commits were judged: nothing where none was left.
pub fn make_store(
    alloc: Global,
    task: &Task,
    scope: &Scope,
    target: Id,
    entries: &Entries,
    commits: &IdList,
) -> Result<Option<Pair>, AllocError>
    ensures store { IfOk result (λ store. store ≡ store_of task.now scope.now target entries.now commits.now) }
    ensures recorded { IfOk result (λ store. IfSome store (λ _. CanBeRecorded scope.now (with_id target entries.now))) }
{
    if commits.len() == 0 {
        return Ok(None);
    }
    let pair = make_pair(alloc, task, scope, target, entries)?;
    Ok(Some(pair))
}
