//! The commits of a graph in an ordered map, and what is kept of each.
ghost use Rattle.std.specs.Prelude.{◌≡◌, fold, Some, IfOk, IfSome};
ghost use Rattle.std.specs.BTreeMap.{keys, IsOrdered};
ghost use Rattle.commit_graph.specs.History.{name_cmp, IsParent};
ghost use Rattle.commit_graph.specs.Node.{held_of};
ghost use Rattle.commit_graph.specs.Level.{level_at, node_at, place_after, SetsLevel, IsStep, AreSmall, lower, forgotten, IsFirstEndless};

use crate::level::{Level, Step};
use object_frames::{Id, IdList};
use std::alloc::{AllocError, Global};
use std::collections::BTreeMap;

/// What is kept of a commit.
#[derive(Drop)]
pub struct Node {
    pub parents: IdList,
    pub level: Level,
    /// Its place in the list of work, if it is there.
    pub place: usize,
    /// Its place among the parents of the commit from which it was entered.
    pub place_as_parent: usize,
}

pub type Nodes = BTreeMap<Id, Node>;

/// How far the generation of a commit is known, where it is held.
pub fn level(nodes: &Nodes, id: Id) -> Option<Level>
    ensures { result ≡ level_at nodes.now.entries id }
{
    match nodes.get(&id) {
        Some(node) => Some(node.level),
        None => None,
    }
}

pub fn set_level(nodes: &mut Nodes, id: Id, to: Level)
    ensures { SetsLevel nodes.old.entries nodes.new.entries id to }
{
    if let Some(node) = nodes.get_mut(&id) {
        node.level = to;
    }
}

/// The commit's ancestors are looked at from now on. It was entered as the parent at this place.
pub fn enter_at(nodes: &mut Nodes, id: Id, place: usize)
    ensures { SetsLevel nodes.old.entries nodes.new.entries id Level.Entered }
{
    if let Some(node) = nodes.get_mut(&id) {
        node.level = Level::Entered;
        node.place_as_parent = place;
    }
}

/// The place after that at which the commit was entered. It saves time alone: no answer rests on it.
pub fn place_after(nodes: &Nodes, id: Id) -> usize
    ensures { result ≡ place_after (node_at nodes.now.entries id) }
{
    match nodes.get(&id) {
        Some(node) => node.place_as_parent.saturating_add(1),
        None => 0,
    }
}

// The first parent from this place on that isn't looked at yet, and its place.
fn next_unknown(nodes: &Nodes, id: Id, from: usize) -> Option<(Id, usize)>
    ensures { IfSome result (λ found. IsParent (held_of nodes.now.entries) id found.0 × (level_at nodes.now.entries found.0 ≡ Some Level.Unknown)) }
{
    let Some(node) = nodes.get(&id) else {
        return None;
    };
    let parents = node.parents.as_slice();
    for i in from..parents.len() {
        let parent = parents[i];
        if level(nodes, parent) == Some(Level::Unknown) {
            return Some((parent, i));
        }
    }
    None
}

/// What the levels of its parents say of a commit. The place tells where to look first, and the answer doesn't rest on it.
pub fn next_step(nodes: &Nodes, id: Id, from: usize) -> Step<Id>
    requires { AreSmall nodes.now.entries }
    ensures { IsStep nodes.now.entries id result }
{
    match next_unknown(nodes, id, from) {
        Some((parent, place)) => Step::Enter(parent, place),
        None => step_by_all(nodes, id),
    }
}

// What the levels of all its parents say of a commit.
fn step_by_all(nodes: &Nodes, id: Id) -> Step<Id>
    requires { AreSmall nodes.now.entries }
    ensures { IsStep nodes.now.entries id result }
{
    let Some(node) = nodes.get(&id) else {
        return Step::Settle(1);
    };
    let mut greatest: u32 = 0;
    for parent in node.parents.as_slice() {
        match level(nodes, *parent) {
            // There is none where the place to look first was right.
            Some(Level::Unknown) => return Step::Enter(*parent, 0),
            Some(Level::Entered) => return Step::GiveUp,
            Some(Level::Known(n)) => greatest = greatest.max(n),
            Some(Level::Endless) => return Step::GiveUp,
            None => {}
        }
    }
    Step::Settle(greatest + 1)
}

// The least of the ids that aren't held.
fn lesser(nodes: &Nodes, least: Option<Id>, id: Id) -> Option<Id>
    ensures { result ≡ lower nodes.now.entries least id }
{
    if nodes.contains_key(&id) {
        return least;
    }
    match least {
        Some(other) => {
            if other.cmp(&id).is_gt() {
                Some(id)
            } else {
                Some(other)
            }
        }
        None => Some(id),
    }
}

/// The least of the ids that aren't held.
pub fn least_absent(nodes: &Nodes, mut least: Option<Id>, ids: &[Id]) -> Option<Id>
    ensures { result ≡ fold (lower nodes.now.entries) least ids.now }
{
    for id in ids {
        least = lesser(nodes, least, *id);
    }
    least
}

/// No commit is looked at yet.
pub fn forget_levels(nodes: &mut Nodes)
    ensures { nodes.new.entries ≡ forgotten nodes.old.entries }
{
    nodes.retain(|_, node| {
        node.level = Level::Unknown;
        true
    });
}

/// The first of the commits that has no generation.
pub fn first_endless(nodes: &Nodes, ids: &[Id]) -> Option<Id>
    ensures { IsFirstEndless nodes.now.entries ids.now result }
{
    for id in ids {
        if level(nodes, *id) == Some(Level::Endless) {
            return Some(*id);
        }
    }
    None
}

/// The ids in their order.
pub fn ids_held(alloc: Global, nodes: &Nodes) -> Result<Vec<Id>, AllocError>
    ensures ids { IfOk result (λ ids. ids.items ≡ keys nodes.now) }
    ensures ordered { IsOrdered name_cmp nodes.now }
{
    nodes.keys().copied().collect(alloc)
}
