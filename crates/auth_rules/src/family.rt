//! A commit with its parents, and what they say of its signer.
ghost use Rattle.std.specs.Prelude.{◌≡◌, ◌∷◌, [], map, false, IsTrue, option_map};
ghost use Rattle.std.specs.FinSet as set;
ghost use Rattle.std.specs.List.{list_any, list_all, find};
ghost use Rattle.child_ports.specs.Causes.{RoseWhen};
ghost use Rattle.commit_graph.specs.Walk.{parents_in};
ghost use Rattle.auth_rules.specs.Answers.{AnswersBy, is_git_fault, is_sig_fault};
ghost use Rattle.auth_rules.specs.Consulting.{Gives, git_world, family_of, offers_file, is_removed, faulty, offered, parents_cause, allowed_among, family_cause};
ghost use Rattle.auth_rules.specs.Rules.{first};

use crate::parents::{Offer, Parent, Parents, listed_parents, read_parents};
use crate::root::{Root, read_root};
use crate::{Cause, RuleFail};
use authorizations::{Fingerprint, KeySet, Scope};
use child_ports::GitPort;
use commit_graph::Graph;
use object_frames::Id;
use std::alloc::Global;

/// A commit and its parents, with all that has to be consulted for it.
#[derive(Debug, Drop)]
pub struct Family {
    pub root: Root,
    pub parents: Parents,
}

/// Reads all that has to be consulted for a commit, in order.
pub fn read_family<G: GitPort>(
    alloc: Global,
    git: &mut G,
    dir: &str,
    graph: &Graph,
    id: Id,
) -> Result<Family, RuleFail>
    ensures told { G.tells git.new ≡ G.tells git.old }
    ensures table { G.table git.new ≡ G.table git.old }
    ensures named { G.named git.new ≡ G.named git.old }
    ensures exact { IsTrue (G.tells git.old) → Gives result (family_of (git_world (G.table git.old) dir.now) (parents_in graph.now.held) id) }
    ensures git_fault { RoseWhen (is_git_fault result) (G.faults git.old) (G.faults git.new) }
    ensures no_sig_fault { is_sig_fault result ≡ false }
{
    let root = read_root(alloc, git, dir, id)?;
    let parents = read_parents(alloc, git, dir, graph, listed_parents(graph, id))?;
    Ok(Family { root, parents })
}

// Whether a parent has the file.
fn offers_file(parent: &Parent) -> bool
    ensures { result ≡ offers_file parent.now }
{
    matches!(parent.offer, Offer::Listed(_) | Offer::Faulty(_))
}

// Whether a parent lacks the file and a parent of it has one.
fn is_removed(parent: &Parent) -> bool
    ensures { result ≡ is_removed parent.now }
{
    matches!(parent.offer, Offer::Removed)
}

// Why a parent's file is no file of authorisations.
fn faulty(parent: &Parent) -> Option<Cause>
    ensures { result ≡ faulty parent.now }
{
    match &parent.offer {
        Offer::Faulty(fail) => Some(Cause::ParentFile {
            parent: parent.id,
            fail: *fail,
        }),
        _ => None,
    }
}

// Whether one of the parents has the file.
fn any_offers_file(parents: &[Parent]) -> bool
    ensures { result ≡ list_any offers_file parents.now }
{
    for parent in parents {
        if offers_file(parent) {
            return true;
        }
    }
    false
}

// The first parent that lacks the file while a parent of it has one.
fn first_removed(parents: &[Parent]) -> Option<Id>
    ensures { result ≡ option_map (λ parent. parent.id) (find is_removed parents.now) }
{
    for parent in parents {
        if is_removed(parent) {
            return Some(parent.id);
        }
    }
    None
}

// The first parent whose file is no file of authorisations.
fn first_faulty(parents: &[Parent]) -> Option<Cause>
    ensures { result ≡ first (map faulty parents.now) }
{
    for parent in parents {
        if let Some(cause) = faulty(parent) {
            return Some(cause);
        }
    }
    None
}

// What stands against the files of a commit and its parents.
fn parents_cause(has_file: bool, parents: &[Parent]) -> Option<Cause>
    ensures { result ≡ parents_cause has_file parents.now }
{
    if !has_file && any_offers_file(parents) {
        return Some(Cause::RemovesFile);
    }
    if let Some(parent) = first_removed(parents) {
        return Some(Cause::ParentRemovedFile(parent));
    }
    first_faulty(parents)
}

// Whether a parent gives the key.
fn gives_key(historical: &KeySet, parent: &Parent, key: Fingerprint) -> bool
    ensures { result ≡ set.contains (offered historical.now parent.now) key }
{
    match &parent.offer {
        Offer::Listed(keys) => keys.contains(key),
        Offer::Faulty(_) => false,
        Offer::Removed | Offer::Absent => historical.contains(key),
    }
}

// Whether every parent gives the key.
fn all_give_key(historical: &KeySet, parents: &[Parent], key: Fingerprint) -> bool
    ensures { result ≡ list_all (λ parent. set.contains (offered historical.now parent) key) parents.now }
{
    for parent in parents {
        if !gives_key(historical, parent, key) {
            return false;
        }
    }
    true
}

// Whether the key is allowed for the commit of these parents.
fn is_allowed(historical: &KeySet, parents: &[Parent], key: Fingerprint) -> bool
    ensures { result ≡ allowed_among historical.now parents.now key }
{
    if parents.is_empty() {
        historical.contains(key)
    } else {
        all_give_key(historical, parents, key)
    }
}

/// Whether the family allows that the commit is signed by this key.
pub fn judge_family(
    scope: &Scope,
    family: &Family,
    key: Fingerprint,
) -> Result<Fingerprint, RuleFail>
    ensures answer { AnswersBy (family_cause scope.now.historical family.now key) (λ signer. signer ≡ key) result }
    ensures no_git_fault { is_git_fault result ≡ false }
    ensures no_sig_fault { is_sig_fault result ≡ false }
{
    let parents = family.parents.as_slice();
    if let Some(cause) = parents_cause(family.root.file.is_some(), parents) {
        return Err(RuleFail::Refused(cause));
    }
    if !is_allowed(&scope.historical, parents, key) {
        return Err(RuleFail::Refused(Cause::NotAuthorised(key)));
    }
    Ok(key)
}
