//! The decision over a history that was read.
ghost use Rattle.std.specs.Prelude.{◌≡◌, ◌≤◌, length, All, IfOk, IfSome, IsTrue, false};
ghost use Rattle.child_ports.specs.Causes.{RoseWhen};
ghost use Rattle.auth_cache.specs.Entries.{with_id};
ghost use Rattle.auth_cache.specs.Found.{CanBeRecorded};
ghost use Rattle.commit_graph.specs.History.{IsParent};
ghost use Rattle.commit_history.specs.Members.{IsWhole};
ghost use Rattle.commit_history.specs.Answers.{HoldsHistory, IsUsable};
ghost use Rattle.auth_rules.specs.Answers.{ListsParents};
ghost use Rattle.auth_rules.specs.World.{world_of};
ghost use Rattle.auth_engine.specs.Answers.{OnFinding, is_git_fault, is_sig_fault, is_keep_fault};
ghost use Rattle.auth_engine.specs.Asked.{AsksNew, AsksFor};
ghost use Rattle.auth_engine.specs.Outcome.{IsFinding, IsJudgedVerdict};
ghost use Rattle.auth_engine.specs.SoundCache.{IsSoundEntry};
ghost use Rattle.auth_engine.specs.Starting.{scope_of, world_in};
ghost use Rattle.auth_engine.specs.Steps.{JudgesNew, store_of};
ghost use Rattle.auth_engine.specs.Tally.{IsTally};

use crate::caching::make_store;
use crate::counting::tally;
use crate::introducing::judge_intro;
use crate::judging::judge_commits;
use crate::relating::{relate, uncovered_commits};
use crate::scoping::load_ring;
use crate::starting::Start;
use crate::{EngineFail, Task, Verdict};
use auth_cache::Entries;
use authorizations::{Fingerprint, Scope};
use child_ports::{GitPort, SigPort};
use commit_graph::Graph;
use object_frames::{Id, IdList};
use std::alloc::{AllocError, Global};

// The verdict on commits that have these signers.
fn make_verdict(
    alloc: Global,
    task: &Task,
    scope: &Scope,
    target: Id,
    entries: &Entries,
    commits: &IdList,
    signers: &[Fingerprint],
    older: bool,
) -> Result<Verdict, AllocError>
    requires few_commits { length commits.now ≤ 1000000 }
    requires few_signers { length signers.now ≤ 1000000 }
    ensures target { IfOk result (λ verdict. verdict.target ≡ target) }
    ensures older { IfOk result (λ verdict. verdict.older ≡ older) }
    ensures judged { IfOk result (λ verdict. verdict.judged ≡ length commits.now) }
    ensures tally { IfOk result (λ verdict. IsTally signers.now verdict.signers) }
    ensures store { IfOk result (λ verdict. verdict.store ≡ store_of task.now scope.now target entries.now commits.now) }
    ensures recorded { IfOk result (λ verdict. IfSome verdict.store (λ _. CanBeRecorded scope.now (with_id target entries.now))) }
{
    let signers = tally(alloc, signers)?;
    let store = make_store(alloc, task, scope, target, entries, commits)?;
    Ok(Verdict {
        target,
        older,
        judged: commits.len() as u32,
        signers,
        store,
    })
}

// Judges what neither the introduction nor an entry covers of the target's history.
fn judge_new<G: GitPort, V: SigPort>(
    alloc: Global,
    git: &mut G,
    sig: &mut V,
    task: &Task,
    start: &Start,
    scope: &Scope,
    entries: &Entries,
    graph: &Graph,
    older: bool,
) -> Result<Verdict, EngineFail>
    requires usable { IsUsable start.now.target scope.now.intro graph.now }
    ensures answer { IsTrue (G.tells git.old) → IsTrue (V.tells sig.old) →
        let w = world_of (G.table git.old) task.now.dir (V.table sig.old) (V.loaded sig.old) in
        ListsParents w graph.now.held → JudgesNew w task.now scope.now start.now.ring.keys graph.now.held start.now.target entries.now older result }
    ensures asked { IsTrue (G.tells git.old) → IsTrue (V.tells sig.old) →
        let w = world_of (G.table git.old) task.now.dir (V.table sig.old) (V.loaded sig.old) in
        ListsParents w graph.now.held → AsksNew w (IsParent graph.now.held) start.now.target scope.now.intro entries.now result (V.asked sig.old) (V.asked sig.new) }
    ensures git_fault { RoseWhen (is_git_fault result) (G.faults git.old) (G.faults git.new) }
    ensures sig_fault { RoseWhen (is_sig_fault result) (V.faults sig.old) (V.faults sig.new) }
    ensures no_keep_fault { is_keep_fault result ≡ false }
    ensures git_told { G.tells git.new ≡ G.tells git.old }
    ensures git_table { G.table git.new ≡ G.table git.old }
    ensures named { G.named git.new ≡ G.named git.old }
    ensures sig_told { V.tells sig.new ≡ V.tells sig.old }
    ensures sig_table { V.table sig.new ≡ V.table sig.old }
{
    let commits = uncovered_commits(alloc, graph, start.target, scope.intro, entries)?;
    let dir = task.dir.as_str();
    let keys = &start.ring.keys;
    let signers = judge_commits(alloc, git, sig, dir, scope, keys, graph, &commits)?;
    match make_verdict(
        alloc,
        task,
        scope,
        start.target,
        entries,
        &commits,
        signers.as_slice(),
        older,
    ) {
        Ok(verdict) => Ok(verdict),
        Err(_) => Err(EngineFail::Memory),
    }
}

/// Decides over a history that was read: the introduction, how the two stand, and what is left of the target's history.
pub fn decide<G: GitPort, V: SigPort>(
    alloc: Global,
    git: &mut G,
    sig: &mut V,
    task: &Task,
    start: &Start,
    scope: &Scope,
    entries: &Entries,
    graph: &mut Graph,
) -> Result<Verdict, EngineFail>
    requires scope_is { scope.now ≡ scope_of task.now start.now.ring }
    requires usable { IsUsable start.now.target task.now.intro graph.old }
    ensures answer { IsTrue (G.tells git.old) → IsTrue (V.tells sig.old) →
        let w = world_in (G.table git.old) (V.table sig.old) task.now start.now.ring in
        IsWhole w start.now.target task.now.intro → HoldsHistory w start.now.target task.now.intro graph.old →
        All (IsSoundEntry w scope.now start.now.ring.keys) entries.now →
        OnFinding result (IsFinding w task.now start.now entries.now result) }
    ensures verdict { IsTrue (G.tells git.old) → IsTrue (V.tells sig.old) →
        let w = world_in (G.table git.old) (V.table sig.old) task.now start.now.ring in
        IsWhole w start.now.target task.now.intro → HoldsHistory w start.now.target task.now.intro graph.old →
        IfOk result (IsJudgedVerdict w task.now start.now entries.now) }
    ensures asked { IsTrue (G.tells git.old) → IsTrue (V.tells sig.old) →
        let w = world_in (G.table git.old) (V.table sig.old) task.now start.now.ring in
        IsWhole w start.now.target task.now.intro → HoldsHistory w start.now.target task.now.intro graph.old →
        AsksFor w task.now start.now entries.now result (V.asked sig.old) (V.asked sig.new) }
    ensures git_fault { RoseWhen (is_git_fault result) (G.faults git.old) (G.faults git.new) }
    ensures sig_fault { RoseWhen (is_sig_fault result) (V.faults sig.old) (V.faults sig.new) }
    ensures no_keep_fault { is_keep_fault result ≡ false }
    ensures git_told { G.tells git.new ≡ G.tells git.old }
    ensures git_table { G.table git.new ≡ G.table git.old }
    ensures named { G.named git.new ≡ G.named git.old }
    ensures sig_told { V.tells sig.new ≡ V.tells sig.old }
    ensures sig_table { V.table sig.new ≡ V.table sig.old }
{
    load_ring(sig, &start.ring)?;
    judge_intro(alloc, git, sig, task.dir.as_str(), scope, &start.ring.keys)?;
    let Some(older) = relate(graph, start.target, task.intro) else {
        return Err(EngineFail::Unrelated {
            target: start.target,
            intro: task.intro,
        });
    };
    judge_new(alloc, git, sig, task, start, scope, entries, graph, older)
}
