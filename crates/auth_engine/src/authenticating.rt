//! The check of one target.
ghost use Rattle.std.specs.Prelude.{◌≡◌, ◌↔◌, ◌+◌, length, IsOk, IfOk, IsTrue, false};
ghost use Rattle.std.specs.FinMap as map;
ghost use Rattle.child_ports.specs.Causes.{RoseWhen};
ghost use Rattle.child_ports.specs.Named.{NamedAtMost};
ghost use Rattle.auth_engine.specs.Answers.{OnFinding, is_git_fault, is_sig_fault, is_keep_fault};
ghost use Rattle.auth_engine.specs.Asked.{Asks};
ghost use Rattle.auth_engine.specs.Limits.{task_fits};
ghost use Rattle.auth_engine.specs.Outcome.{HasAuthenticTarget, IsOutcome, IsVerdictOver};
ghost use Rattle.auth_engine.specs.SoundCache.{IsSoundCache, IsSoundOrNone};

use crate::caching::load_entries;
use crate::deciding::decide;
use crate::scoping::make_scope;
use crate::starting::find_start;
use crate::{EngineFail, Task, Verdict};
use child_ports::{GitPort, Keeper, SigPort};
use commit_history::read_history;
use std::alloc::Global;

// What a task comes to, step by step.
fn check<G: GitPort, V: SigPort, K: Keeper>(
    alloc: Global,
    git: &mut G,
    sig: &mut V,
    keeper: &mut K,
    task: &Task,
) -> Result<Verdict, EngineFail>
    requires fits { IsTrue (task_fits task.now) }
    ensures outcome { IsTrue (G.tells git.old) → IsTrue (V.tells sig.old) → IsTrue (K.tells keeper.old) →
        let kept = map.get (K.kept keeper.old) task.now.cache_key in
        IsSoundOrNone (G.table git.old) (V.table sig.old) task.now kept →
        OnFinding result (IsOutcome (G.table git.old) (V.table sig.old) task.now kept result) }
    ensures verdict { IsTrue (G.tells git.old) → IsTrue (V.tells sig.old) → IsTrue (K.tells keeper.old) →
        IfOk result (IsVerdictOver (G.table git.old) (V.table sig.old) task.now (map.get (K.kept keeper.old) task.now.cache_key)) }
    ensures asked { IsTrue (G.tells git.old) → IsTrue (V.tells sig.old) → IsTrue (K.tells keeper.old) →
        Asks (G.table git.old) (V.table sig.old) task.now (map.get (K.kept keeper.old) task.now.cache_key) result (V.asked sig.old) (V.asked sig.new) }
    ensures git_fault { RoseWhen (is_git_fault result) (G.faults git.old) (G.faults git.new) }
    ensures sig_fault { RoseWhen (is_sig_fault result) (V.faults sig.old) (V.faults sig.new) }
    ensures keep_fault { RoseWhen (is_keep_fault result) (K.faults keeper.old) (K.faults keeper.new) }
    ensures git_told { G.tells git.new ≡ G.tells git.old }
    ensures git_table { G.table git.new ≡ G.table git.old }
    ensures named { NamedAtMost (length task.now.target + length task.now.keyring) (G.named git.old) (G.named git.new) }
    ensures sig_told { V.tells sig.new ≡ V.tells sig.old }
    ensures sig_table { V.table sig.new ≡ V.table sig.old }
    ensures keeper_told { K.tells keeper.new ≡ K.tells keeper.old }
    ensures kept { K.kept keeper.new ≡ K.kept keeper.old }
    ensures stores { K.stores keeper.new ≡ K.stores keeper.old }
{
    let start = find_start(alloc, git, task)?;
    let Ok(scope) = make_scope(alloc, task, &start.ring) else {
        return Err(EngineFail::Memory);
    };
    let entries = load_entries(alloc, keeper, task.cache_key.as_str(), &scope)?;
    let mut graph = match read_history(alloc, git, task.dir.as_str(), start.target, task.intro) {
        Ok(graph) => graph,
        Err(fail) => return Err(EngineFail::of_history(fail)),
    };
    decide(alloc, git, sig, task, &start, &scope, &entries, &mut graph)
}

/// Authenticates one target. Nothing is stored: the verdict says what is to be kept.
pub fn authenticate<G: GitPort, V: SigPort, K: Keeper>(
    alloc: Global,
    git: &mut G,
    sig: &mut V,
    keeper: &mut K,
    task: &Task,
) -> Result<Verdict, EngineFail>
    requires fits { IsTrue (task_fits task.now) }

    // Over a sound cache it accepts exactly where the target is authentic.
    ensures authentic { IsTrue (G.tells git.old) → IsTrue (V.tells sig.old) → IsTrue (K.tells keeper.old) →
        IsSoundCache (G.table git.old) (V.table sig.old) task.now (map.get (K.kept keeper.old) task.now.cache_key) →
        OnFinding result (IsOk result ↔ HasAuthenticTarget (G.table git.old) (V.table sig.old) task.now) }

    // Each answer is the outcome: the first refusal that applies, or the verdict. What is kept may be no cache text: that is one
    // of the refusals.
    ensures outcome { IsTrue (G.tells git.old) → IsTrue (V.tells sig.old) → IsTrue (K.tells keeper.old) →
        let kept = map.get (K.kept keeper.old) task.now.cache_key in
        IsSoundOrNone (G.table git.old) (V.table sig.old) task.now kept →
        OnFinding result (IsOutcome (G.table git.old) (V.table sig.old) task.now kept result) }

    // Whatever is kept, sound or not, an accepted target has a verdict: the history is whole, the introduction stands, the two are
    // related, each commit that the entries don't cover was judged, and only what that says is to be kept.
    ensures verdict { IsTrue (G.tells git.old) → IsTrue (V.tells sig.old) → IsTrue (K.tells keeper.old) →
        IfOk result (IsVerdictOver (G.table git.old) (V.table sig.old) task.now (map.get (K.kept keeper.old) task.now.cache_key)) }

    // The questions to gpgv, whatever is kept: one for the introduction, and one for each commit that isn't covered, up to the
    // first that is refused.
    ensures asked { IsTrue (G.tells git.old) → IsTrue (V.tells sig.old) → IsTrue (K.tells keeper.old) →
        Asks (G.table git.old) (V.table sig.old) task.now (map.get (K.kept keeper.old) task.now.cache_key) result (V.asked sig.old) (V.asked sig.new) }

    // Any name but an id in full can come to stand for something else. Whatever the answer, no more such names are asked than
    // the task has: what is told of target and keyring comes from the question that was judged.
    ensures named { NamedAtMost (length task.now.target + length task.now.keyring) (G.named git.old) (G.named git.new) }

    // A fault of a port comes exactly where a call on it failed.
    ensures git_fault { RoseWhen (is_git_fault result) (G.faults git.old) (G.faults git.new) }
    ensures sig_fault { RoseWhen (is_sig_fault result) (V.faults sig.old) (V.faults sig.new) }
    ensures keep_fault { RoseWhen (is_keep_fault result) (K.faults keeper.old) (K.faults keeper.new) }

    ensures git_told { G.tells git.new ≡ G.tells git.old }
    ensures git_table { G.table git.new ≡ G.table git.old }
    ensures sig_told { V.tells sig.new ≡ V.tells sig.old }
    ensures sig_table { V.table sig.new ≡ V.table sig.old }
    ensures keeper_told { K.tells keeper.new ≡ K.tells keeper.old }
    ensures kept { K.kept keeper.new ≡ K.kept keeper.old }
    ensures stores { K.stores keeper.new ≡ K.stores keeper.old }
{
    check(alloc, git, sig, keeper, task)
}
