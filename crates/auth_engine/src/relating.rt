//! How target and introduction stand to each other, and what is new between them.
ghost use Rattle.std.specs.Prelude.{◌≡◌, ◌≤◌, length, All, IfOk, IfErr, IsTrue, false};
ghost use Rattle.commit_graph.specs.Covers.{AreUncovered, HasGeneration};
ghost use Rattle.commit_graph.specs.History.{Holds, IsParent, IsWhole};
ghost use Rattle.auth_rules.specs.Answers.{HoldsFamily};
ghost use Rattle.commit_history.specs.Members.{AtMost};
ghost use Rattle.auth_engine.specs.Answers.{IsStop, is_git_fault, is_sig_fault, is_keep_fault};
ghost use Rattle.auth_engine.specs.Steps.{Relates};

use crate::EngineFail;
use auth_cache::Entries;
use commit_graph::{Graph, Relation};
use object_frames::{Id, IdList};
use std::alloc::Global;

/// Whether the target is an ancestor of the introduction, where one of them reaches the other.
pub fn relate(graph: &mut Graph, target: Id, intro: Id) -> Option<bool>
    requires ranked { IsTrue graph.old.ranked }
    requires holds_target { Holds graph.old.held target }
    requires holds_intro { Holds graph.old.held intro }
    requires acyclic { HasGeneration (IsParent graph.old.held) target }
    ensures same { graph.new ≡ graph.old }
    ensures relates { Relates (IsParent graph.old.held) target intro result }
{
    match graph.relation(target, intro) {
        Relation::Same => Some(false),
        Relation::Ancestor => Some(true),
        Relation::Descendant => Some(false),
        Relation::Unrelated => None,
    }
}

/// The commits that the target reaches and that neither the introduction nor an entry covers, by generation and then id.
pub fn uncovered_commits(
    alloc: Global,
    graph: &Graph,
    target: Id,
    intro: Id,
    entries: &Entries,
) -> Result<IdList, EngineFail>
    requires ranked { IsTrue graph.now.ranked }
    requires holds_target { Holds graph.now.held target }
    requires holds_intro { Holds graph.now.held intro }
    requires whole { IsWhole graph.now.held }
    requires few { AtMost 1000000 (Holds graph.now.held) }
    ensures few { IfOk result (λ commits. length commits ≤ 1000000) }
    ensures families { IfOk result (λ commits. All (HoldsFamily graph.now.held) commits) }
    ensures uncovered { IfOk result (λ commits. AreUncovered (IsParent graph.now.held) target intro entries.now commits) }
    ensures stop { IfErr result IsStop }
    ensures no_git_fault { is_git_fault result ≡ false }
    ensures no_keep_fault { is_keep_fault result ≡ false }
    ensures no_sig_fault { is_sig_fault result ≡ false }
{
    match graph.uncovered(alloc, target, intro, entries.as_list()) {
        Ok(commits) => Ok(commits),
        Err(_) => Err(EngineFail::Memory),
    }
}
