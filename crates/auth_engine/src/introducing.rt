//! The introduction's judgement.
ghost use Rattle.std.specs.Prelude.{◌≡◌, IsTrue, false};
ghost use Rattle.child_ports.specs.Causes.{AtMostOnce, RoseWhen};
ghost use Rattle.auth_rules.specs.World.{world_of};
ghost use Rattle.auth_engine.specs.Answers.{is_git_fault, is_sig_fault, is_keep_fault};
ghost use Rattle.auth_engine.specs.Asked.{AsksIntro};
ghost use Rattle.auth_engine.specs.Steps.{JudgesIntro};

use crate::EngineFail;
use auth_rules::{RuleFail, check_intro};
use authorizations::{KeySet, Scope};
use child_ports::{GitPort, SigPort};
use std::alloc::Global;

/// Judges the introduction, under the keyring that is loaded and whose keys are given.
pub fn judge_intro<G: GitPort, V: SigPort>(
    alloc: Global,
    git: &mut G,
    sig: &mut V,
    dir: &str,
    scope: &Scope,
    keys: &KeySet,
) -> Result<(), EngineFail>
    ensures answer { IsTrue (G.tells git.old) → IsTrue (V.tells sig.old) →
        JudgesIntro (world_of (G.table git.old) dir.now (V.table sig.old) (V.loaded sig.old)) scope.now keys.now result }
    ensures asked { IsTrue (G.tells git.old) → IsTrue (V.tells sig.old) →
        AsksIntro (world_of (G.table git.old) dir.now (V.table sig.old) (V.loaded sig.old)) scope.now.intro result (V.asked sig.old) (V.asked sig.new) }
    ensures once { AtMostOnce (V.asked sig.old) (V.asked sig.new) }
    ensures git_fault { RoseWhen (is_git_fault result) (G.faults git.old) (G.faults git.new) }
    ensures sig_fault { RoseWhen (is_sig_fault result) (V.faults sig.old) (V.faults sig.new) }
    ensures no_keep_fault { is_keep_fault result ≡ false }
    ensures git_told { G.tells git.new ≡ G.tells git.old }
    ensures git_table { G.table git.new ≡ G.table git.old }
    ensures named { G.named git.new ≡ G.named git.old }
    ensures sig_told { V.tells sig.new ≡ V.tells sig.old }
    ensures sig_table { V.table sig.new ≡ V.table sig.old }
    ensures loaded { V.loaded sig.new ≡ V.loaded sig.old }
{
    match check_intro(alloc, git, sig, dir, scope, keys) {
        Ok(()) => Ok(()),
        Err(RuleFail::Refused(cause)) => Err(EngineFail::Intro {
            id: scope.intro,
            cause,
        }),
        Err(RuleFail::GitFault) => Err(EngineFail::GitFault),
        Err(RuleFail::SigFault) => Err(EngineFail::SigFault),
        Err(RuleFail::Memory) => Err(EngineFail::Memory),
    }
}
