//! The judging of the commits that are left.
ghost use Rattle.std.specs.Prelude.{◌≡◌, length, All, IsTrue, IfOk, false};
ghost use Rattle.child_ports.specs.Causes.{RoseWhen};
ghost use Rattle.auth_rules.specs.Answers.{HoldsFamily, ListsParents};
ghost use Rattle.auth_rules.specs.World.{world_of};
ghost use Rattle.auth_engine.specs.Answers.{is_git_fault, is_sig_fault, is_keep_fault};
ghost use Rattle.auth_engine.specs.Judging.{JudgesOne, AsksOne, JudgesAll, AsksAll, AskedAtMost};

use crate::EngineFail;
use auth_rules::{RuleFail, check_commit};
use authorizations::{Fingerprint, KeySet, Scope};
use child_ports::{GitPort, Items, SigPort};
use commit_graph::Graph;
use object_frames::{Id, IdList};
use std::alloc::Global;

// Judges one commit: its signer, or its cause.
fn judge_commit<G: GitPort, V: SigPort>(
    alloc: Global,
    git: &mut G,
    sig: &mut V,
    dir: &str,
    scope: &Scope,
    keys: &KeySet,
    graph: &Graph,
    id: Id,
) -> Result<Fingerprint, EngineFail>
    requires held { HoldsFamily graph.now.held id }
    ensures answer { IsTrue (G.tells git.old) → IsTrue (V.tells sig.old) →
        let w = world_of (G.table git.old) dir.now (V.table sig.old) (V.loaded sig.old) in
        ListsParents w graph.now.held → JudgesOne w scope.now keys.now id result }
    ensures asked { IsTrue (G.tells git.old) → IsTrue (V.tells sig.old) →
        let w = world_of (G.table git.old) dir.now (V.table sig.old) (V.loaded sig.old) in
        ListsParents w graph.now.held → AsksOne w id result (V.asked sig.old) (V.asked sig.new) }
    ensures at_most { AskedAtMost 1 (V.asked sig.old) (V.asked sig.new) }
    ensures git_fault { RoseWhen (is_git_fault result) (G.faults git.old) (G.faults git.new) }
    ensures sig_fault { RoseWhen (is_sig_fault result) (V.faults sig.old) (V.faults sig.new) }
    ensures no_keep_fault { is_keep_fault result ≡ false }
    ensures git_told { G.tells git.new ≡ G.tells git.old }
    ensures git_table { G.table git.new ≡ G.table git.old }
    ensures named { G.named git.new ≡ G.named git.old }
    ensures sig_told { V.tells sig.new ≡ V.tells sig.old }
    ensures sig_table { V.table sig.new ≡ V.table sig.old }
    ensures loaded { V.loaded sig.new ≡ V.loaded sig.old }
{
    match check_commit(alloc, git, sig, dir, scope, keys, graph, id) {
        Ok(key) => Ok(key),
        Err(RuleFail::Refused(cause)) => Err(EngineFail::Commit { id, cause }),
        Err(RuleFail::GitFault) => Err(EngineFail::GitFault),
        Err(RuleFail::SigFault) => Err(EngineFail::SigFault),
        Err(RuleFail::Memory) => Err(EngineFail::Memory),
    }
}

/// Judges commits in their order: their signers, or the first that is refused.
pub fn judge_commits<G: GitPort, V: SigPort>(
    alloc: Global,
    git: &mut G,
    sig: &mut V,
    dir: &str,
    scope: &Scope,
    keys: &KeySet,
    graph: &Graph,
    commits: &IdList,
) -> Result<Items<Fingerprint>, EngineFail>
    requires held { All (HoldsFamily graph.now.held) commits.now }

    // Where the graph lists what the commits name: Ok with the signers exactly where no commit has a cause against it, else
    // the first that has one.
    ensures answer { IsTrue (G.tells git.old) → IsTrue (V.tells sig.old) →
        let w = world_of (G.table git.old) dir.now (V.table sig.old) (V.loaded sig.old) in
        ListsParents w graph.now.held → JudgesAll w scope.now keys.now commits.now result }

    // gpgv is asked once for each commit up to the first that is refused, and for that one at most once.
    ensures asked { IsTrue (G.tells git.old) → IsTrue (V.tells sig.old) →
        let w = world_of (G.table git.old) dir.now (V.table sig.old) (V.loaded sig.old) in
        ListsParents w graph.now.held → AsksAll w scope.now keys.now commits.now result (V.asked sig.old) (V.asked sig.new) }

    // Over any port there is a signer for each commit, and gpgv is asked at most once for each.
    ensures each { IfOk result (λ signers. length signers ≡ length commits.now) }
    ensures at_most { AskedAtMost (length commits.now) (V.asked sig.old) (V.asked sig.new) }

    // A fault of a port comes exactly where a call on it failed.
    ensures git_fault { RoseWhen (is_git_fault result) (G.faults git.old) (G.faults git.new) }
    ensures sig_fault { RoseWhen (is_sig_fault result) (V.faults sig.old) (V.faults sig.new) }
    ensures no_keep_fault { is_keep_fault result ≡ false }

    ensures git_told { G.tells git.new ≡ G.tells git.old }
    ensures git_table { G.table git.new ≡ G.table git.old }
    ensures named { G.named git.new ≡ G.named git.old }
    ensures sig_told { V.tells sig.new ≡ V.tells sig.old }
    ensures sig_table { V.table sig.new ≡ V.table sig.old }
    ensures loaded { V.loaded sig.new ≡ V.loaded sig.old }
{
    let mut signers = Items::new(alloc);
    for id in commits.as_slice() {
        let key = judge_commit(alloc, git, sig, dir, scope, keys, graph, *id)?;
        if signers.push(key).is_err() {
            return Err(EngineFail::Memory);
        }
    }
    Ok(signers)
}
