//! Whether one commit reaches another, in a list of work that has room for each commit.
ghost use Rattle.std.specs.Prelude.{◌≡◌, ◌<◌, ◌≤◌, false, cond, length, slice_get, IsSome, MatchBool, vec_len, vec_capacity};
ghost use Rattle.commit_graph.specs.Level.{node_at};
ghost use Rattle.commit_graph.specs.Reaching.{AreInPlace, HasSpace, OnlyPlaces, place_of};
ghost use Rattle.commit_graph.specs.Walk.{is_in, parents_in, put_all, put_new, same_name};
ghost use Rattle.std.specs.Option.{option_map};
ghost use Rattle.commit_graph.specs.Chains.{Reaches};
ghost use Rattle.commit_graph.specs.History.{Name, Holds, IsParent, IsWhole};
ghost use Rattle.commit_graph.specs.Node.{held_of};

use crate::node::Nodes;
use object_frames::Id;

// Whether the commit is in the list of work.
fn is_marked(nodes: &Nodes, work: &Vec<Id>, id: Id) -> bool
    requires { AreInPlace nodes.now.entries work.now.items }
    ensures { result ≡ is_in work.now.items id }
{
    match nodes.get(&id) {
        Some(node) => node.place < work.len() && work[node.place].cmp(&id).is_eq(),
        None => false,
    }
}

fn set_place(nodes: &mut Nodes, id: Id, place: usize)
    requires { IsSome (node_at nodes.old.entries id) }
    ensures places { (q : Name) → option_map place_of (node_at nodes.new.entries q) ≡ option_map (λ before. cond (same_name id q) place before) (option_map place_of (node_at nodes.old.entries q)) }
    ensures nodes { OnlyPlaces nodes.old.entries nodes.new.entries }
{
    if let Some(node) = nodes.get_mut(&id) {
        node.place = place;
    }
}

// Adds the commit to the list of work, unless it is there.
fn mark(nodes: &mut Nodes, work: &mut Vec<Id>, id: Id)
    requires places { AreInPlace nodes.old.entries work.old.items }
    requires held { IsSome (node_at nodes.old.entries id) }
    requires room { is_in work.old.items id ≡ false → vec_len work.old < vec_capacity work.old }
    ensures work { work.new.items ≡ put_new work.old.items id }
    ensures places { AreInPlace nodes.new.entries work.new.items }
    ensures nodes { OnlyPlaces nodes.old.entries nodes.new.entries }
    ensures capacity { vec_capacity work.new ≡ vec_capacity work.old }
{
    if is_marked(nodes, work, id) {
        return;
    }
    let place = work.len();
    work.push_reserved(id);
    set_place(nodes, id, place);
}

// The parents of a commit, none where it isn't held.
fn parents_of(nodes: &Nodes, id: Id) -> &[Id]
    ensures { result.now ≡ parents_in (held_of nodes.now.entries) id }
{
    match nodes.get(&id) {
        Some(node) => node.parents.as_slice(),
        None => &[],
    }
}

fn parent_at(nodes: &Nodes, id: Id, i: usize) -> Option<Id>
    ensures { result ≡ slice_get (parents_in (held_of nodes.now.entries) id) i }
{
    parents_of(nodes, id).get(i).copied()
}

// Adds the commit's parents to the list of work.
fn mark_parents(nodes: &mut Nodes, work: &mut Vec<Id>, id: Id)
    requires whole { IsWhole (held_of nodes.old.entries) }
    requires places { AreInPlace nodes.old.entries work.old.items }
    requires space { HasSpace nodes.old.entries work.old.items (vec_capacity work.old) }
    ensures work { work.new.items ≡ put_all work.old.items (parents_in (held_of nodes.old.entries) id) }
    ensures places { AreInPlace nodes.new.entries work.new.items }
    ensures nodes { OnlyPlaces nodes.old.entries nodes.new.entries }
    ensures capacity { vec_capacity work.new ≡ vec_capacity work.old }
{
    for i in 0..parents_of(nodes, id).len() {
        if let Some(parent) = parent_at(nodes, id, i) {
            mark(nodes, work, parent);
        }
    }
}

/// Whether the one commit reaches the other.
pub fn reaches(nodes: &mut Nodes, work: &mut Vec<Id>, from: Id, to: Id) -> bool
    requires whole { IsWhole (held_of nodes.old.entries) }
    requires holds { Holds (held_of nodes.old.entries) from }
    requires room { length nodes.old.entries ≤ vec_capacity work.old }
    ensures nodes { OnlyPlaces nodes.old.entries nodes.new.entries }
    ensures capacity { vec_capacity work.new ≡ vec_capacity work.old }
    ensures is { MatchBool result (Reaches (IsParent (held_of nodes.old.entries)) from to)
        (Reaches (IsParent (held_of nodes.old.entries)) from to → ⊥) }
{
    work.clear();
    mark(nodes, work, from);
    let mut i = 0;
    while i < work.len() {
        let id = work[i];
        mark_parents(nodes, work, id);
        i += 1;
    }
    is_marked(nodes, work, to)
}
