//! Commits that were found authentic.
ghost use Rattle.std.specs.Prelude.{◌≡◌, [], bytes_eq, IfOk, OnOk};
ghost use Rattle.std.specs.List.{list_any};
ghost use Rattle.auth_cache.specs.Entries.{AreEntries, with_id};
ghost use Rattle.auth_cache.specs.EntriesInside.{with_other};

use object_frames::{Id, IdList};
use std::alloc::{AllocError, Global};
use std::marker::Model;

/// How many commits there are at most.
pub const MOST: usize = 64;

/// Commits, distinct, the newest first, at most 64. Contracts see the list of their ids.
#[derive(Debug, Drop)]
pub struct Entries {
    ids: IdList,
}

impl Model for Entries {
    ghost use Rattle.std.specs.Prelude.{List, ℕ};
    ghost use Rattle.auth_cache.specs.Entries.{AreEntries};

    ghost Value = { List (List ℕ) };

    ghost view = { λ e. e.ids };

    ghost invariant = { λ e. AreEntries e.ids };
}

/// Whether the commit is one of these.
pub fn holds(ids: &[Id], id: Id) -> bool
    ensures { result ≡ list_any (bytes_eq id) ids.now }
{
    ids.contains(&id)
}

impl Entries {
    pub fn new(alloc: Global) -> Entries
        ensures { result ≡ [] }
    {
        Entries {
            ids: IdList::new(alloc),
        }
    }

    /// The commits of a list.
    pub(crate) fn of_list(ids: IdList) -> Entries
        requires { AreEntries ids }
        ensures { result ≡ ids }
    {
        Entries { ids }
    }

    pub fn as_slice(&self) -> &[Id]
        ensures ids { result.now ≡ self.now }
        ensures entries { AreEntries self.now }
    {
        self.as_list().as_slice()
    }

    pub fn as_list(&self) -> &IdList
        ensures ids { result.now ≡ self.now }
        ensures entries { AreEntries self.now }
    {
        &self.ids
    }

    /// These commits with one that comes first. Where there are 64 others, the oldest of them drops out.
    pub fn with(&self, alloc: Global, id: Id) -> Result<Entries, AllocError>
        ensures { IfOk result (λ entries. entries ≡ with_id id self.now) }
    {
        let ids = list_with(alloc, id, self.as_slice())?;
        Ok(Entries::of_list(ids))
    }
}

// Adds a commit, unless it is this one or there are 64.
fn push_other(ids: &mut IdList, id: Id, other: Id) -> Result<(), AllocError>
    ensures { OnOk result (ids.new ≡ with_other ids.old id other) }
{
    if other != id && ids.len() < MOST {
        ids.push(other)?;
    }
    Ok(())
}

// The commit, and behind it the others.
fn list_with(alloc: Global, id: Id, old: &[Id]) -> Result<IdList, AllocError>
    ensures { IfOk result (λ ids. ids ≡ with_id id old.now) }
{
    let mut ids = IdList::new(alloc);
    ids.push(id)?;
    for other in old {
        push_other(&mut ids, id, *other)?;
    }
    Ok(ids)
}
