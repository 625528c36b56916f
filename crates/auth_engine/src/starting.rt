//! What a task needs before its history is read: target, introduction and keyring.
ghost use Rattle.std.specs.Prelude.{◌≡◌, ◌+◌, length, IsTrue, false};
ghost use Rattle.std.specs.List.{AllByRecursion};
ghost use Rattle.child_ports.specs.Causes.{RoseWhen};
ghost use Rattle.child_ports.specs.Git.{IsName};
ghost use Rattle.child_ports.specs.Named.{NamedAtMost};
ghost use Rattle.auth_engine.specs.Starting.{target_of, intro_of, ring_of, start_of};
ghost use Rattle.auth_engine.specs.Answers.{Gives, is_git_fault, is_sig_fault, is_keep_fault};
ghost use Rattle.auth_engine.specs.Limits.{task_fits};

use crate::naming::{commit_by_id, name_first_commit};
use crate::{EngineFail, Task, Which};
use child_ports::{GitPort, PortFail};
use keyring_branch::{Keyring, KeyringFail, read_keyring};
use object_frames::{Id, Object};
use std::alloc::Global;

/// What a task needs before its history is read.
#[derive(Debug, Drop)]
pub struct Start {
    pub target: Id,
    pub ring: Keyring,
}

// Reads the target by its names.
fn find_target<G: GitPort>(alloc: Global, git: &mut G, task: &Task) -> Result<Object, EngineFail>
    requires { AllByRecursion IsName task.now.target }
    ensures told { G.tells git.new ≡ G.tells git.old }
    ensures table { G.table git.new ≡ G.table git.old }
    ensures named { NamedAtMost (length task.now.target) (G.named git.old) (G.named git.new) }
    ensures target { IsTrue (G.tells git.old) → Gives result (target_of (G.table git.old) task.now) }
    ensures git_fault { RoseWhen (is_git_fault result) (G.faults git.old) (G.faults git.new) }
    ensures no_sig_fault { is_sig_fault result ≡ false }
    ensures no_keep_fault { is_keep_fault result ≡ false }
{
    match name_first_commit(alloc, git, task.dir.as_str(), task.target.as_slice()) {
        Ok(Ok(object)) => Ok(object),
        Ok(Err(what)) => Err(EngineFail::Name {
            which: Which::Target,
            what,
        }),
        Err(PortFail::Failed) => Err(EngineFail::GitFault),
        Err(PortFail::Memory) => Err(EngineFail::Memory),
    }
}

// Reads the introduction by its id.
fn find_intro<G: GitPort>(alloc: Global, git: &mut G, task: &Task) -> Result<Object, EngineFail>
    ensures told { G.tells git.new ≡ G.tells git.old }
    ensures table { G.table git.new ≡ G.table git.old }
    ensures named { G.named git.new ≡ G.named git.old }
    ensures intro { IsTrue (G.tells git.old) → Gives result (intro_of (G.table git.old) task.now) }
    ensures git_fault { RoseWhen (is_git_fault result) (G.faults git.old) (G.faults git.new) }
    ensures no_sig_fault { is_sig_fault result ≡ false }
    ensures no_keep_fault { is_keep_fault result ≡ false }
{
    match commit_by_id(alloc, git, task.dir.as_str(), &task.intro) {
        Ok(Ok(object)) => Ok(object),
        Ok(Err(what)) => Err(EngineFail::Name {
            which: Which::Introduction,
            what,
        }),
        Err(PortFail::Failed) => Err(EngineFail::GitFault),
        Err(PortFail::Memory) => Err(EngineFail::Memory),
    }
}

// Reads the keyring of its branch.
fn find_ring<G: GitPort>(alloc: Global, git: &mut G, task: &Task) -> Result<Keyring, EngineFail>
    requires { AllByRecursion IsName task.now.keyring }
    ensures told { G.tells git.new ≡ G.tells git.old }
    ensures table { G.table git.new ≡ G.table git.old }
    ensures named { NamedAtMost (length task.now.keyring) (G.named git.old) (G.named git.new) }
    ensures ring { IsTrue (G.tells git.old) → Gives result (ring_of (G.table git.old) task.now) }
    ensures git_fault { RoseWhen (is_git_fault result) (G.faults git.old) (G.faults git.new) }
    ensures no_sig_fault { is_sig_fault result ≡ false }
    ensures no_keep_fault { is_keep_fault result ≡ false }
{
    match read_keyring(alloc, git, task.dir.as_str(), &task.keyring) {
        Ok(ring) => Ok(ring),
        Err(KeyringFail::GitFault) => Err(EngineFail::GitFault),
        Err(KeyringFail::Memory) => Err(EngineFail::Memory),
        Err(fail) => Err(EngineFail::Keyring(fail)),
    }
}

/// Reads target, introduction and keyring: the first that can't be had is the answer.
pub fn find_start<G: GitPort>(alloc: Global, git: &mut G, task: &Task) -> Result<Start, EngineFail>
    requires fits { IsTrue (task_fits task.now) }
    ensures told { G.tells git.new ≡ G.tells git.old }
    ensures table { G.table git.new ≡ G.table git.old }
    ensures named { NamedAtMost (length task.now.target + length task.now.keyring) (G.named git.old) (G.named git.new) }
    ensures start { IsTrue (G.tells git.old) → Gives result (start_of (G.table git.old) task.now) }
    ensures git_fault { RoseWhen (is_git_fault result) (G.faults git.old) (G.faults git.new) }
    ensures no_sig_fault { is_sig_fault result ≡ false }
    ensures no_keep_fault { is_keep_fault result ≡ false }
{
    let target = find_target(alloc, git, task)?;
    let _ = find_intro(alloc, git, task)?;
    let ring = find_ring(alloc, git, task)?;
    Ok(Start {
        target: target.id,
        ring,
    })
}
