//! The walk over a history, and its ranks.
ghost use Rattle.std.specs.Prelude.{◌≡◌, ◌≤◌, ℕ, List, IfOk, IsTrue};
ghost use Rattle.std.specs.FinMap as map;
ghost use Rattle.child_ports.specs.Causes.{RoseWhen};
ghost use Rattle.child_ports.specs.declared.sig.SigRow.{SigRow};
ghost use Rattle.auth_rules.specs.Consulting.{git_world};
ghost use Rattle.auth_rules.specs.World.{world_of};
ghost use Rattle.commit_graph.specs.History.{IsWhole, Holds};
ghost use Rattle.commit_history.specs.Answers.{IsHistoryAnswer, IsUsable, is_git_fault};
ghost use Rattle.commit_history.specs.Walk.{IsWalked, IsRankFail, RankAnswers, unranked};

use crate::HistoryFail;
use crate::walk::{Walk, next_absent, read_parents, start, take};
use child_ports::GitPort;
use commit_graph::{Graph, GraphFail};
use object_frames::Id;
use std::alloc::Global;

// Reads all that the target or the introduction reaches.
fn read_members<G: GitPort>(
    alloc: Global,
    git: &mut G,
    dir: &str,
    target: Id,
    intro: Id,
) -> Result<Walk, HistoryFail>
    ensures told { G.tells git.new ≡ G.tells git.old }
    ensures table { G.table git.new ≡ G.table git.old }
    ensures named { G.named git.new ≡ G.named git.old }
    ensures whole { IfOk result (λ walk. IsWhole walk.graph.held) }
    ensures few { IfOk result (λ walk. map.len walk.graph.held ≤ 1000000) }
    ensures both { IfOk result (λ walk. Holds walk.graph.held target × Holds walk.graph.held intro) }
    ensures exact { IsTrue (G.tells git.old) → IsWalked (git_world (G.table git.old) dir.now) target intro result }
    ensures cause { RoseWhen (is_git_fault result) (G.faults git.old) (G.faults git.new) }
{
    let mut walk = start(alloc, target, intro)?;
    let mut i = next_absent(&walk.graph, walk.met.as_slice(), 0);
    while i < walk.met.len() {
        let id = walk.met.as_slice()[i];
        let parents = read_parents(alloc, git, dir, id, &mut walk.unread)?;
        take(&mut walk, id, &parents)?;
        i = next_absent(&walk.graph, walk.met.as_slice(), i + 1);
    }
    Ok(walk)
}

// What follows from it that a whole graph isn't ranked.
fn unranked(fail: &GraphFail) -> HistoryFail
    requires whole { IsRankFail fail.now }
    ensures { result ≡ unranked fail.now }
{
    match fail {
        GraphFail::Cycle(id) => HistoryFail::Cycle(*id),
        GraphFail::Memory => HistoryFail::Memory,
        GraphFail::Present | GraphFail::Full | GraphFail::Open(_) => unreachable!(),
    }
}

// Ranks a graph in which no parent is missing.
fn ranked(mut graph: Graph) -> Result<Graph, HistoryFail>
    requires whole { IsWhole graph.held }
    ensures { RankAnswers graph.held result }
{
    match graph.rank() {
        Ok(()) => Ok(graph),
        Err(fail) => Err(unranked(&fail)),
    }
}

/// Reads every commit that the target or the introduction reaches, in the repository of this directory, and ranks them.
pub fn read_history<G: GitPort>(
    alloc: Global,
    git: &mut G,
    dir: &str,
    target: Id,
    intro: Id,
) -> Result<Graph, HistoryFail>
    // The graph, where all of the history can be judged; else the first refusal that applies. gpgv's verdicts don't matter.
    ensures answer { IsTrue (G.tells git.old) → (sigs : List SigRow) (keyring : List ℕ) →
        IsHistoryAnswer (world_of (G.table git.old) dir.now sigs keyring) target intro result }

    // Over any port the graph can be asked how the two stand, and what is uncovered.
    ensures usable { IfOk result (λ graph. IsUsable target intro graph) }

    // A fault comes exactly where a call of git failed.
    ensures cause { RoseWhen (is_git_fault result) (G.faults git.old) (G.faults git.new) }
    ensures told { G.tells git.new ≡ G.tells git.old }
    ensures table { G.table git.new ≡ G.table git.old }
    ensures named { G.named git.new ≡ G.named git.old }
{
    let Walk { graph, unread, .. } = read_members(alloc, git, dir, target, intro)?;
    if let Some(unread) = unread {
        return Err(HistoryFail::Object {
            id: unread.id,
            what: unread.what,
        });
    }
    ranked(graph)
}
