//! The scope of a task, and its keyring in gpgv's hands.
ghost use Rattle.std.specs.Prelude.{◌≡◌, IfOk, IfErr, OnOk, false};
ghost use Rattle.child_ports.specs.Causes.{RoseWhen};
ghost use Rattle.auth_engine.specs.Answers.{IsStop, is_git_fault, is_sig_fault, is_keep_fault};
ghost use Rattle.auth_engine.specs.Starting.{scope_of};

use crate::{EngineFail, Task};
use authorizations::{Scope, meet};
use child_ports::{PortFail, SigPort};
use keyring_branch::Keyring;
use std::alloc::{AllocError, Global};

/// The scope of a task under its keyring.
pub fn make_scope(alloc: Global, task: &Task, ring: &Keyring) -> Result<Scope, AllocError>
    ensures { IfOk result (λ scope. scope ≡ scope_of task.now ring.now) }
{
    // A set meets itself in a copy of it.
    let historical = meet(alloc, &task.historical, &task.historical)?;
    Ok(Scope {
        intro: task.intro,
        signer: task.signer,
        keyring_tree: ring.tree,
        historical,
    })
}

/// Has gpgv take the keyring for the questions that follow.
pub fn load_ring<V: SigPort>(sig: &mut V, ring: &Keyring) -> Result<(), EngineFail>
    ensures loaded { OnOk result (V.loaded sig.new ≡ ring.now.bytes) }
    ensures told { V.tells sig.new ≡ V.tells sig.old }
    ensures table { V.table sig.new ≡ V.table sig.old }
    ensures asked { V.asked sig.new ≡ V.asked sig.old }
    ensures sig_fault { RoseWhen (is_sig_fault result) (V.faults sig.old) (V.faults sig.new) }
    ensures no_git_fault { is_git_fault result ≡ false }
    ensures no_keep_fault { is_keep_fault result ≡ false }
    ensures stop { IfErr result IsStop }
{
    match sig.load(ring.bytes.as_slice()) {
        Ok(()) => Ok(()),
        Err(PortFail::Failed) => Err(EngineFail::SigFault),
        Err(PortFail::Memory) => Err(EngineFail::Memory),
    }
}
