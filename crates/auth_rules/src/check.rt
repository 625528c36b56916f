//! The checks of one commit, and of the introduction.
ghost use Rattle.std.specs.Prelude.{◌≡◌, Some, IsTrue, false};
ghost use Rattle.child_ports.specs.Causes.{AtMostOnce, RoseWhen};
ghost use Rattle.auth_rules.specs.Answers.{HoldsFamily, ListsParents, AnswersBy, Asks, is_asked, is_intro_asked, is_git_fault, is_sig_fault};
ghost use Rattle.auth_rules.specs.Rules.{cause, intro_cause, other_signer, signer};
ghost use Rattle.auth_rules.specs.World.{world_of};

use crate::family::{judge_family, read_family};
use crate::root::read_root;
use crate::signed::judge_signed;
use crate::{Cause, RuleFail};
use authorizations::{Fingerprint, KeySet, Scope};
use child_ports::{GitPort, SigPort};
use commit_graph::Graph;
use object_frames::Id;
use std::alloc::Global;

/// Judges one commit, under the keyring that is loaded and whose keys are given. The answer is its signer.
pub fn check_commit<G: GitPort, V: SigPort>(
    alloc: Global,
    git: &mut G,
    sig: &mut V,
    dir: &str,
    scope: &Scope,
    keys: &KeySet,
    graph: &Graph,
    id: Id,
) -> Result<Fingerprint, RuleFail>
    requires held { HoldsFamily graph.now.held id }

    // Where the graph lists what the commits name: Ok with the signer exactly where there is no cause, else the cause.
    ensures answer { IsTrue (G.tells git.old) → IsTrue (V.tells sig.old) →
        let w = world_of (G.table git.old) dir.now (V.table sig.old) (V.loaded sig.old) in
        ListsParents w graph.now.held →
        AnswersBy (cause w scope.now keys.now id) (λ key. signer w id ≡ Some key) result }

    // gpgv is asked once for a commit of which all that is consulted can be read, and which is signed; else not.
    ensures asked { IsTrue (G.tells git.old) → IsTrue (V.tells sig.old) →
        let w = world_of (G.table git.old) dir.now (V.table sig.old) (V.loaded sig.old) in
        ListsParents w graph.now.held →
        Asks (is_asked w id) result (V.asked sig.old) (V.asked sig.new) }

    // Over any port it is asked at most once.
    ensures once { AtMostOnce (V.asked sig.old) (V.asked sig.new) }

    // A fault of a port comes exactly where a call on it failed.
    ensures git_fault { RoseWhen (is_git_fault result) (G.faults git.old) (G.faults git.new) }
    ensures sig_fault { RoseWhen (is_sig_fault result) (V.faults sig.old) (V.faults sig.new) }

    ensures git_told { G.tells git.new ≡ G.tells git.old }
    ensures git_table { G.table git.new ≡ G.table git.old }
    ensures named { G.named git.new ≡ G.named git.old }
    ensures sig_told { V.tells sig.new ≡ V.tells sig.old }
    ensures sig_table { V.table sig.new ≡ V.table sig.old }
    ensures loaded { V.loaded sig.new ≡ V.loaded sig.old }
{
    let family = read_family(alloc, git, dir, graph, id)?;
    let key = judge_signed(alloc, sig, &family.root, keys)?;
    judge_family(scope, &family, key)
}

// Refuses another signer than the scope's.
fn require_signer(scope: &Scope, key: Fingerprint) -> Result<(), RuleFail>
    ensures answer { AnswersBy (other_signer scope.now key) (λ _. Unit {0}) result }
    ensures no_git_fault { is_git_fault result ≡ false }
    ensures no_sig_fault { is_sig_fault result ≡ false }
{
    if key.0 != scope.signer.0 {
        return Err(RuleFail::Refused(Cause::WrongSigner {
            found: key,
            wanted: scope.signer,
        }));
    }
    Ok(())
}

/// Judges the introduction, under the keyring that is loaded and whose keys are given. Its parents aren't looked at.
pub fn check_intro<G: GitPort, V: SigPort>(
    alloc: Global,
    git: &mut G,
    sig: &mut V,
    dir: &str,
    scope: &Scope,
    keys: &KeySet,
) -> Result<(), RuleFail>
    // Ok exactly where there is no cause, else the cause.
    ensures answer { IsTrue (G.tells git.old) → IsTrue (V.tells sig.old) →
        let w = world_of (G.table git.old) dir.now (V.table sig.old) (V.loaded sig.old) in
        AnswersBy (intro_cause w scope.now keys.now) (λ _. Unit {0}) result }

    // gpgv is asked once for an introduction that can be read and is signed; else not.
    ensures asked { IsTrue (G.tells git.old) → IsTrue (V.tells sig.old) →
        let w = world_of (G.table git.old) dir.now (V.table sig.old) (V.loaded sig.old) in
        Asks (is_intro_asked w scope.now.intro) result (V.asked sig.old) (V.asked sig.new) }

    // Over any port it is asked at most once.
    ensures once { AtMostOnce (V.asked sig.old) (V.asked sig.new) }

    // A fault of a port comes exactly where a call on it failed.
    ensures git_fault { RoseWhen (is_git_fault result) (G.faults git.old) (G.faults git.new) }
    ensures sig_fault { RoseWhen (is_sig_fault result) (V.faults sig.old) (V.faults sig.new) }

    ensures git_told { G.tells git.new ≡ G.tells git.old }
    ensures git_table { G.table git.new ≡ G.table git.old }
    ensures named { G.named git.new ≡ G.named git.old }
    ensures sig_told { V.tells sig.new ≡ V.tells sig.old }
    ensures sig_table { V.table sig.new ≡ V.table sig.old }
    ensures loaded { V.loaded sig.new ≡ V.loaded sig.old }
{
    let root = read_root(alloc, git, dir, scope.intro)?;
    let key = judge_signed(alloc, sig, &root, keys)?;
    require_signer(scope, key)
}
