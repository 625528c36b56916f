//! What is read of a history so far, and what lies ahead.
ghost use Rattle.std.specs.Prelude.{◌≡◌, ◌≤◌, ◌<◌, ◌++◌, [], ◌∷◌, ℕ, false, None, OnOk, IfErr, IfOk, IsTrue, length, slice_index_or};
ghost use Rattle.std.specs.FinMap as map;
ghost use Rattle.child_ports.specs.Causes.{RoseWhen};
ghost use Rattle.auth_rules.specs.Consulting.{git_world};
ghost use Rattle.auth_rules.specs.Rules.{parents_of};
ghost use Rattle.auth_rules.specs.World.{commit_at};
ghost use Rattle.commit_graph.specs.Fail.{HasRoom};
ghost use Rattle.commit_graph.specs.History.{Holds, Name};
ghost use Rattle.commit_history.specs.Walk.{lesser, noted, IsReadFail, TakeFails};
ghost use Rattle.commit_history.specs.Answers.{is_git_fault};

use crate::HistoryFail;
use auth_rules::{ReadFail, What, read_commit_at};
use child_ports::GitPort;
use commit_graph::{Graph, GraphFail};
use object_frames::{Id, IdList};
use std::alloc::Global;

/// A commit that can't be read, and why.
#[derive(Clone, Copy, Debug)]
pub struct Unread {
    pub id: Id,
    pub what: What,
}

/// The commits that were read, and the ids that were met.
#[derive(Drop)]
pub struct Walk {
    pub graph: Graph,
    /// Target and introduction, and the parents of what was read. An id may be there twice.
    pub met: IdList,
    /// The least commit that can't be read.
    pub unread: Option<Unread>,
}

// The lesser of two commits that can't be read.
fn lesser(least: &Option<Unread>, unread: Unread) -> Option<Unread>
    ensures { result ≡ lesser least.now unread }
{
    match least {
        Some(other) => {
            if other.id.cmp(&unread.id).is_gt() {
                Some(unread)
            } else {
                Some(*other)
            }
        }
        None => Some(unread),
    }
}

/// The first place, from this one on, of an id that isn't held; the length of the list where there is none.
pub fn next_absent(graph: &Graph, ids: &[Id], from: usize) -> usize
    requires { from ≤ length ids.now }
    ensures from { from ≤ result }
    ensures within { result ≤ length ids.now }
    ensures held { (k : ℕ) (d : Name) → from ≤ k → k < result → Holds graph.now.held (slice_index_or ids.now k d) }
    ensures absent { (d : Name) → result < length ids.now → map.get graph.now.held (slice_index_or ids.now result d) ≡ None }
{
    for i in from..ids.len() {
        if !graph.holds(ids[i]) {
            return i;
        }
    }
    ids.len()
}

/// Nothing is read yet.
pub fn start(alloc: Global, target: Id, intro: Id) -> Result<Walk, HistoryFail>
    ensures ok { IfOk result (λ walk. (walk.graph.held ≡ map.empty) × (walk.met ≡ target ∷ intro ∷ []) × (walk.unread ≡ None)) }
    ensures err { IfErr result IsReadFail }
    ensures no_fault { is_git_fault result ≡ false }
{
    let Ok(met) = IdList::from_slice(alloc, &[target, intro]) else {
        return Err(HistoryFail::Memory);
    };
    Ok(Walk {
        graph: Graph::new(alloc),
        met,
        unread: None,
    })
}

/// The parents that a commit names, none where it can't be read, which is noted.
pub fn read_parents<G: GitPort>(
    alloc: Global,
    git: &mut G,
    dir: &str,
    id: Id,
    least: &mut Option<Unread>,
) -> Result<IdList, HistoryFail>
    ensures told { G.tells git.new ≡ G.tells git.old }
    ensures table { G.table git.new ≡ G.table git.old }
    ensures named { G.named git.new ≡ G.named git.old }
    ensures parents { IsTrue (G.tells git.old) → IfOk result (λ parents. parents ≡ parents_of (git_world (G.table git.old) dir.now) id) }
    ensures noted { IsTrue (G.tells git.old) → OnOk result (least.new ≡ noted least.old id (commit_at (G.table git.old) dir.now id)) }
    ensures err { IfErr result IsReadFail }
    ensures cause { RoseWhen (is_git_fault result) (G.faults git.old) (G.faults git.new) }
{
    match read_commit_at(alloc, git, dir, id) {
        Ok(commit) => Ok(commit.parents),
        Err(ReadFail::Unreadable(what)) => {
            *least = lesser(least, Unread { id, what });
            Ok(IdList::new(alloc))
        }
        Err(ReadFail::GitFault) => Err(HistoryFail::GitFault),
        Err(ReadFail::Memory) => Err(HistoryFail::Memory),
    }
}

/// Holds a commit with these parents, which are met.
pub fn take(walk: &mut Walk, id: Id, parents: &IdList) -> Result<(), HistoryFail>
    requires absent { map.get walk.old.graph.held id ≡ None }
    ensures room { OnOk result (HasRoom walk.old.graph.held id) }
    ensures held { OnOk result (walk.new.graph.held ≡ map.insert walk.old.graph.held id parents.now) }
    ensures met { OnOk result (walk.new.met ≡ walk.old.met ++ parents.now) }
    ensures unread { OnOk result (walk.new.unread ≡ walk.old.unread) }
    ensures err { IfErr result (TakeFails walk.old.graph.held id) }
{
    match walk.graph.add(id, parents) {
        Ok(()) => {}
        Err(GraphFail::Full) => return Err(HistoryFail::TooMany),
        Err(GraphFail::Memory) => return Err(HistoryFail::Memory),
        Err(GraphFail::Present | GraphFail::Open(_) | GraphFail::Cycle(_)) => unreachable!(),
    }
    match walk.met.extend(parents.as_slice()) {
        Ok(()) => Ok(()),
        Err(_) => Err(HistoryFail::Memory),
    }
}
