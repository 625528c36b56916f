//! How two commits stand to each other.
ghost use Rattle.std.specs.Prelude.{◌≡◌, ℕ, List, IsTrue, false};
ghost use Rattle.child_ports.specs.Causes.{RoseWhen};
ghost use Rattle.child_ports.specs.declared.sig.SigRow.{SigRow};
ghost use Rattle.auth_rules.specs.World.{world_of};
ghost use Rattle.auth_engine.specs.Answers.{is_git_fault, is_sig_fault, is_keep_fault};
ghost use Rattle.channel_clone.specs.Relations.{IsRelationAnswer};

use auth_engine::EngineFail;
use child_ports::GitPort;
use commit_graph::Relation;
use commit_history::read_history;
use object_frames::Id;
use std::alloc::Global;

/// How the old commit stands to the new one, in the repository of this directory.
pub fn relate<G: GitPort>(
    alloc: Global,
    git: &mut G,
    dir: &str,
    old: Id,
    new: Id,
) -> Result<Relation, EngineFail>
    // The relation, where all that the two reach can be read and ranked; else the first refusal. gpgv's verdicts don't matter.
    ensures answer { IsTrue (G.tells git.old) → (sigs : List SigRow) (keyring : List ℕ) →
        IsRelationAnswer (world_of (G.table git.old) dir.now sigs keyring) old new result }

    // A fault comes exactly where a call of git failed.
    ensures cause { RoseWhen (is_git_fault result) (G.faults git.old) (G.faults git.new) }
    ensures no_sig_fault { is_sig_fault result ≡ false }
    ensures no_keep_fault { is_keep_fault result ≡ false }
    ensures told { G.tells git.new ≡ G.tells git.old }
    ensures table { G.table git.new ≡ G.table git.old }
    ensures named { G.named git.new ≡ G.named git.old }
{
    match read_history(alloc, git, dir, old, new) {
        Ok(mut graph) => Ok(graph.relation(old, new)),
        Err(fail) => Err(EngineFail::of_history(fail)),
    }
}
