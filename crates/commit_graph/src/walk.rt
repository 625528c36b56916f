//! A list of distinct commits that grows, with a test of membership.
ghost use Rattle.std.specs.Prelude.{◌≡◌, ◌<◌, [], length, slice_index_or, OnOk, IfErr};
ghost use Rattle.std.specs.FinSet as set;
ghost use Rattle.commit_graph.specs.Walk.{put_new, put_all};

use crate::GraphFail;
use crate::marks::Marks;
use object_frames::Id;
use std::alloc::Global;
use std::collections::BTreeSet;
use std::marker::Model;

#[derive(Drop)]
pub struct Walk {
    order: Vec<Id>,
    seen: BTreeSet<Id>,
}

impl Model for Walk {
    ghost use Rattle.std.specs.Prelude.{List};
    ghost use Rattle.std.specs.Coded.{coded_list};
    ghost use Rattle.commit_graph.specs.History.{Name, name_code};
    ghost use Rattle.commit_graph.specs.Walk.{AreMarked};

    ghost Value = { List Name };

    ghost coded = { coded_list name_code };

    ghost view = { λ a. a.order.items };

    ghost invariant = { λ a. AreMarked a.order.items a.seen };
}

impl Walk {
    pub fn new(alloc: Global) -> Walk
        ensures { result ≡ [] }
    {
        Walk {
            order: Vec::new(alloc),
            seen: BTreeSet::new(alloc),
        }
    }

    pub fn len(&self) -> usize
        ensures { result ≡ length self.now }
    {
        self.order.len()
    }

    pub fn at(&self, i: usize) -> Id
        requires { i < length self.now }
        ensures { slice_index_or self.now i result ≡ result }
    {
        self.order[i]
    }

    /// Adds the commit, unless it is there.
    pub fn mark(&mut self, id: Id) -> Result<(), GraphFail>
        ensures ok { OnOk result (self.new ≡ put_new self.old id) }
        ensures err { IfErr result (λ e. e ≡ GraphFail.Memory) }
    {
        if self.seen.contains(&id) {
            return Ok(());
        }
        let Ok(_) = self.order.push(id) else {
            return Err(GraphFail::Memory);
        };
        let Ok(_) = self.seen.insert(id) else {
            let _ = self.order.pop();
            return Err(GraphFail::Memory);
        };
        Ok(())
    }

    /// Adds each of the commits.
    pub fn mark_all(&mut self, ids: &[Id]) -> Result<(), GraphFail>
        ensures ok { OnOk result (self.new ≡ put_all self.old ids.now) }
        ensures err { IfErr result (λ e. e ≡ GraphFail.Memory) }
    {
        for id in ids {
            self.mark(*id)?;
        }
        Ok(())
    }

    pub fn into_marks(self) -> Marks
        ensures { result ≡ set.from_list self }
    {
        let Walk { order, seen } = self;
        drop(order);
        Marks::of_set(seen)
    }
}
