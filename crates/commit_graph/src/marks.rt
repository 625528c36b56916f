//! A set of commits.
ghost use Rattle.std.specs.Prelude.{◌≡◌};
ghost use Rattle.std.specs.FinSet as set;

use object_frames::Id;
use std::collections::BTreeSet;
use std::marker::Model;

/// The commits that a closure marked.
#[derive(Drop)]
pub struct Marks {
    ids: BTreeSet<Id>,
}

impl Model for Marks {
    ghost use Rattle.std.specs.FinSet as set;
    ghost use Rattle.commit_graph.specs.History.{name_cmp, name_code};

    ghost Value = { set.FinSet name_cmp };

    ghost coded = { set.code name_code };

    ghost view = { λ a. set.from_list a.ids.keys };
}

impl Marks {
    pub(crate) fn of_set(ids: BTreeSet<Id>) -> Marks
        ensures { result ≡ set.from_list ids.keys }
    {
        Marks { ids }
    }

    /// Whether the commit is marked.
    pub fn has(&self, id: Id) -> bool
        ensures marked { result ≡ set.contains self.now id }
    {
        self.ids.contains(&id)
    }
}
