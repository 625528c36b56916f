//! What is consulted of the parents of a commit.
ghost use Rattle.std.specs.Prelude.{◌≡◌, false, IsTrue};
ghost use Rattle.child_ports.specs.Causes.{RoseWhen};
ghost use Rattle.commit_graph.specs.Walk.{parents_in};
ghost use Rattle.auth_rules.specs.Answers.{is_git_fault, is_sig_fault};
ghost use Rattle.auth_rules.specs.Consulting.{Gives, git_world, offer_in, any_of, listing_offer, offer_of, parent_of, parents_read};

use crate::RuleFail;
use crate::reading::read_listing_at;
use crate::root::{read_root, unread};
use authorizations::{AuthFail, KeySet};
use child_ports::{GitPort, Items};
use commit_graph::Graph;
use object_frames::Id;
use std::alloc::Global;

/// What a parent offers its children.
#[derive(Debug, Drop)]
pub enum Offer {
    /// Its file lists these keys.
    Listed(KeySet),
    /// Its file is no file of authorisations, for this reason.
    Faulty(AuthFail),
    /// It has no file, and a parent of it has one.
    Removed,
    /// It has no file, and no parent of it has one.
    Absent,
}

/// A parent that was read.
#[derive(Debug, Drop)]
pub struct Parent {
    pub id: Id,
    pub offer: Offer,
}

/// Parents, in the commit's order.
pub type Parents = Items<Parent>;

/// The parents that the graph lists for a commit: none where it doesn't hold the commit.
pub fn listed_parents(graph: &Graph, id: Id) -> &[Id]
    ensures { result.now ≡ parents_in graph.now.held id }
{
    match graph.parents(id) {
        Some(parents) => parents,
        None => &[],
    }
}

// Whether one of the commits has the file.
fn any_has_file<G: GitPort>(
    alloc: Global,
    git: &mut G,
    dir: &str,
    ids: &[Id],
) -> Result<bool, RuleFail>
    ensures told { G.tells git.new ≡ G.tells git.old }
    ensures table { G.table git.new ≡ G.table git.old }
    ensures named { G.named git.new ≡ G.named git.old }
    ensures exact { IsTrue (G.tells git.old) → Gives result (any_of (git_world (G.table git.old) dir.now) ids.now) }
    ensures git_fault { RoseWhen (is_git_fault result) (G.faults git.old) (G.faults git.new) }
    ensures no_sig_fault { is_sig_fault result ≡ false }
{
    let mut any = false;
    for id in ids {
        let root = read_root(alloc, git, dir, *id)?;
        any = any || root.file.is_some();
    }
    Ok(any)
}

// What a parent offers whose file is this blob.
fn read_listing<G: GitPort>(
    alloc: Global,
    git: &mut G,
    dir: &str,
    blob: Id,
) -> Result<Offer, RuleFail>
    ensures told { G.tells git.new ≡ G.tells git.old }
    ensures table { G.table git.new ≡ G.table git.old }
    ensures named { G.named git.new ≡ G.named git.old }
    ensures exact { IsTrue (G.tells git.old) → Gives result (listing_offer (git_world (G.table git.old) dir.now) blob) }
    ensures git_fault { RoseWhen (is_git_fault result) (G.faults git.old) (G.faults git.new) }
    ensures no_sig_fault { is_sig_fault result ≡ false }
{
    match read_listing_at(alloc, git, dir, blob) {
        Ok(Ok(keys)) => Ok(Offer::Listed(keys)),
        Ok(Err(fail)) => Ok(Offer::Faulty(fail)),
        Err(fail) => Err(unread(blob, fail)),
    }
}

// What a parent offers, by its file.
fn read_offer<G: GitPort>(
    alloc: Global,
    git: &mut G,
    dir: &str,
    graph: &Graph,
    id: Id,
    file: Option<Id>,
) -> Result<Offer, RuleFail>
    ensures told { G.tells git.new ≡ G.tells git.old }
    ensures table { G.table git.new ≡ G.table git.old }
    ensures named { G.named git.new ≡ G.named git.old }
    ensures exact { IsTrue (G.tells git.old) → Gives result (offer_of (git_world (G.table git.old) dir.now) (parents_in graph.now.held id) file) }
    ensures git_fault { RoseWhen (is_git_fault result) (G.faults git.old) (G.faults git.new) }
    ensures no_sig_fault { is_sig_fault result ≡ false }
{
    match file {
        Some(blob) => read_listing(alloc, git, dir, blob),
        None => {
            if any_has_file(alloc, git, dir, listed_parents(graph, id))? {
                Ok(Offer::Removed)
            } else {
                Ok(Offer::Absent)
            }
        }
    }
}

// Reads a parent: its root tree, and then its file, or the root trees of its own parents.
fn read_parent<G: GitPort>(
    alloc: Global,
    git: &mut G,
    dir: &str,
    graph: &Graph,
    id: Id,
) -> Result<Parent, RuleFail>
    ensures told { G.tells git.new ≡ G.tells git.old }
    ensures table { G.table git.new ≡ G.table git.old }
    ensures named { G.named git.new ≡ G.named git.old }
    ensures exact { IsTrue (G.tells git.old) → Gives result (parent_of (git_world (G.table git.old) dir.now) (parents_in graph.now.held) id) }
    ensures git_fault { RoseWhen (is_git_fault result) (G.faults git.old) (G.faults git.new) }
    ensures no_sig_fault { is_sig_fault result ≡ false }
{
    let root = read_root(alloc, git, dir, id)?;
    let offer = read_offer(alloc, git, dir, graph, id, root.file)?;
    Ok(Parent { id, offer })
}

/// Reads parents, in their order.
pub fn read_parents<G: GitPort>(
    alloc: Global,
    git: &mut G,
    dir: &str,
    graph: &Graph,
    ids: &[Id],
) -> Result<Parents, RuleFail>
    ensures told { G.tells git.new ≡ G.tells git.old }
    ensures table { G.table git.new ≡ G.table git.old }
    ensures named { G.named git.new ≡ G.named git.old }
    ensures exact { IsTrue (G.tells git.old) → Gives result (parents_read (git_world (G.table git.old) dir.now) (parents_in graph.now.held) ids.now) }
    ensures git_fault { RoseWhen (is_git_fault result) (G.faults git.old) (G.faults git.new) }
    ensures no_sig_fault { is_sig_fault result ≡ false }
{
    let mut parents = Parents::new(alloc);
    for id in ids {
        let parent = read_parent(alloc, git, dir, graph, *id)?;
        if parents.push(parent).is_err() {
            return Err(RuleFail::Memory);
        }
    }
    Ok(parents)
}
