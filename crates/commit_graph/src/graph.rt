//! The commits that are held, in an ordered map.
ghost use Rattle.std.specs.Prelude.{◌≡◌, ◌≤◌, ◌↔◌, ℕ, true, false, None, OnOk, OnErr, IfOk, IfErr, MatchResult, MatchOption, IsTrue, All};
ghost use Rattle.std.specs.Option.{option_copied};
ghost use Rattle.std.specs.FinMap as fin;
ghost use Rattle.std.specs.FinSet as set;
ghost use Rattle.commit_graph.specs.Chains.{Reaches, IsGeneration};
ghost use Rattle.commit_graph.specs.Covers.{HasGeneration, AreUncovered};
ghost use Rattle.commit_graph.specs.Fail.{AddFails, HasRoom, RankFails};
ghost use Rattle.commit_graph.specs.History.{Name, Holds, IsParent, IsWhole, IsMissing, IsLeast, IsReachedFrom};
ghost use Rattle.commit_graph.specs.Relation.{IsRelation};
ghost use Rattle.commit_graph.specs.Walk.{parents_in};

use crate::level::Level;
use crate::node::{Node, Nodes, first_endless, forget_levels, ids_held, least_absent, level};
use crate::ranking::settle;
use crate::reaching::reaches;
use crate::uncovering::{bare_rows, counted, ids_of};
use crate::walk::Walk;
use crate::{GraphFail, Marks, Relation};
use object_frames::{Id, IdList};
use std::alloc::Global;
use std::marker::Model;

/// The most commits that a graph holds.
const LIMIT: usize = 1_000_000;

/// Commits with their parents, at most 1,000,000. Contracts see a finite map from ids to parents, and whether it is ranked.
#[derive(Drop)]
pub struct Graph {
    nodes: Nodes,
    work: Vec<Id>,
    ranked: bool,
    alloc: Global,
}

impl Model for Graph {
    ghost use Rattle.std.specs.Prelude.{vec_capacity};
    ghost use Rattle.commit_graph.specs.History.{History, history_code};

    ghost Value = { History };

    ghost coded = { history_code };

    ghost use Rattle.commit_graph.specs.Node.{held_of};
    ghost use Rattle.commit_graph.specs.Level.{IsKept};

    ghost view = { λ a. record { held = held_of a.nodes.entries; ranked = a.ranked } };

    ghost invariant = { λ a. IsKept a.nodes.entries a.ranked (vec_capacity a.work) };
}

impl Graph {
    /// Holds nothing.
    pub fn new(alloc: Global) -> Graph
        ensures nothing { result ≡ record { held = fin.empty; ranked = false } }
    {
        Graph {
            nodes: Nodes::new(alloc),
            work: Vec::new(alloc),
            ranked: false,
            alloc,
        }
    }

    /// Holds the commit with these parents from now on. The graph isn't ranked then.
    ///
    /// `Present` where the commit is held; then `Full` where 1,000,000 are.
    pub fn add(&mut self, id: Id, parents: &IdList) -> Result<(), GraphFail>
        ensures ok { OnOk result (self.new ≡ record { held = fin.insert self.old.held id parents.now; ranked = false }) }
        ensures err { OnErr result (self.new ≡ self.old) }
        ensures cause { MatchResult result (λ _. HasRoom self.old.held id) (AddFails self.old.held id) }
    {
        if self.nodes.contains_key(&id) {
            return Err(GraphFail::Present);
        }
        if self.nodes.len() >= LIMIT {
            return Err(GraphFail::Full);
        }
        let Ok(parents) = IdList::from_slice(self.alloc, parents.as_slice()) else {
            return Err(GraphFail::Memory);
        };
        let node = Node {
            parents,
            level: Level::Unknown,
            place: 0,
            place_as_parent: 0,
        };
        let Ok(_) = self.nodes.insert(id, node) else {
            return Err(GraphFail::Memory);
        };
        self.ranked = false;
        Ok(())
    }

    /// Whether the commit is held.
    pub fn holds(&self, id: Id) -> bool
        ensures held { result ≡ fin.contains_key self.now.held id }
    {
        self.nodes.contains_key(&id)
    }

    /// How many commits are held.
    pub fn len(&self) -> usize
        ensures count { result ≡ fin.len self.now.held }
        ensures few { result ≤ 1000000 }
    {
        self.nodes.len()
    }

    /// The parents of a commit, in their order, where it is held.
    pub fn parents(&self, id: Id) -> Option<&[Id]>
        ensures given { option_copied result ≡ fin.get self.now.held id }
    {
        match self.nodes.get(&id) {
            Some(node) => Some(node.parents.as_slice()),
            None => None,
        }
    }

    // The parents, none where the commit isn't held.
    fn parents_or_none(&self, id: Id) -> &[Id]
        ensures { result.now ≡ parents_in self.now.held id }
    {
        match self.parents(id) {
            Some(parents) => parents,
            None => &[],
        }
    }

    /// Marks the commits and all their ancestors.
    pub fn closure(&self, alloc: Global, ids: &IdList) -> Result<Marks, GraphFail>
        requires held { All (Holds self.now.held) ids.now }
        requires whole { IsWhole self.now.held }
        ensures reached { IfOk result (λ marks. (id : Name)
            → IsTrue (set.contains marks id) ↔ IsReachedFrom self.now.held ids.now id) }
        ensures err { IfErr result (λ e. e ≡ GraphFail.Memory) }
    {
        let mut walk = Walk::new(alloc);
        walk.mark_all(ids.as_slice())?;
        let mut i = 0;
        while i < walk.len() {
            let parents = self.parents_or_none(walk.at(i));
            walk.mark_all(parents)?;
            i += 1;
        }
        Ok(walk.into_marks())
    }

    // Marks the commit and all its ancestors.
    fn history(&self, alloc: Global, id: Id) -> Result<Marks, GraphFail>
        requires held { Holds self.now.held id }
        requires whole { IsWhole self.now.held }
        ensures reached { IfOk result (λ marks. (q : Name)
            → IsTrue (set.contains marks q) ↔ Reaches (IsParent self.now.held) id q) }
        ensures err { IfErr result (λ e. e ≡ GraphFail.Memory) }
    {
        let Ok(ids) = IdList::from_slice(alloc, &[id]) else {
            return Err(GraphFail::Memory);
        };
        self.closure(alloc, &ids)
    }

    // The least parent that isn't held.
    fn least_missing(&self) -> Option<Id>
        ensures { MatchOption result (IsWhole self.now.held) (IsLeast (IsMissing self.now.held)) }
    {
        let mut least = None;
        for (_, node) in self.nodes.iter() {
            least = least_absent(&self.nodes, least, node.parents.as_slice());
        }
        least
    }

    /// A parent of a held commit that isn't held itself, where there is one.
    pub fn missing(&self) -> Option<Id>
        ensures missing { MatchOption result (IsWhole self.now.held) (IsMissing self.now.held) }
    {
        self.least_missing()
    }

    /// Finds the generation of each commit, and takes the memory for `relation`.
    ///
    /// `Open` with the least parent that isn't held; then `Cycle` with the least commit that has no generation.
    pub fn rank(&mut self) -> Result<(), GraphFail>
        ensures ok { OnOk result (self.new ≡ record { held = self.old.held; ranked = true }) }
        ensures whole { OnOk result (IsWhole self.old.held) }
        ensures acyclic { OnOk result ((id : Name) → Holds self.old.held id → HasGeneration (IsParent self.old.held) id) }
        ensures err { OnErr result (self.new ≡ self.old) }
        ensures cause { IfErr result (RankFails self.old.held) }
    {
        if self.ranked {
            return Ok(());
        }
        if let Some(id) = self.least_missing() {
            return Err(GraphFail::Open(id));
        }
        let Ok(ids) = ids_held(self.alloc, &self.nodes) else {
            return Err(GraphFail::Memory);
        };
        forget_levels(&mut self.nodes);
        self.work.clear();
        for id in &ids {
            settle(&mut self.nodes, &mut self.work, *id)?;
        }
        if let Some(id) = first_endless(&self.nodes, ids.as_slice()) {
            return Err(GraphFail::Cycle(id));
        }
        let Ok(_) = self.work.reserve(self.nodes.len()) else {
            return Err(GraphFail::Memory);
        };
        self.ranked = true;
        Ok(())
    }

    /// The greatest length of a chain that begins with the commit, where the graph is ranked and the commit is held.
    /// It is 1 for a root, and else 1 more than the greatest of the parents. Git calls it the topological level.
    pub fn generation(&self, id: Id) -> Option<u32>
        ensures generation { MatchOption result (IsTrue self.now.ranked → fin.get self.now.held id ≡ None)
            (λ n. IsTrue self.now.ranked × Holds self.now.held id × IsGeneration (IsParent self.now.held) id n) }
    {
        if !self.ranked {
            return None;
        }
        match level(&self.nodes, id) {
            Some(Level::Known(n)) => Some(n),
            _ => None,
        }
    }

    /// The commits that the target reaches and that neither the introduction nor a counted entry reaches, by generation and
    /// then id. An entry counts where the target or the introduction reaches it.
    pub fn uncovered(
        &self,
        alloc: Global,
        target: Id,
        intro: Id,
        entries: &IdList,
    ) -> Result<IdList, GraphFail>
        requires ranked { IsTrue self.now.ranked }
        requires holds_target { Holds self.now.held target }
        requires holds_intro { Holds self.now.held intro }
        ensures uncovered { IfOk result (AreUncovered (IsParent self.now.held) target intro entries.now) }
        ensures err { IfErr result (λ e. e ≡ GraphFail.Memory) }
    {
        let nodes = &self.nodes;
        let near = self.history(alloc, target)?;
        let far = self.history(alloc, intro)?;
        let kept = counted(alloc, &near, &far, intro, entries.as_slice())?;
        let covered = self.closure(alloc, &kept)?;
        let rows = bare_rows(alloc, nodes, &near, &covered)?;
        ids_of(alloc, &rows)
    }

    /// How the old commit stands to the new one. It takes no memory, since `rank` took it.
    pub fn relation(&mut self, old: Id, new: Id) -> Relation
        requires ranked { IsTrue self.old.ranked }
        requires holds_old { Holds self.old.held old }
        requires holds_new { Holds self.old.held new }
        ensures same { self.new ≡ self.old }
        ensures relation { IsRelation (IsParent self.old.held) old new result }
    {
        if old == new {
            return Relation::Same;
        }
        if reaches(&mut self.nodes, &mut self.work, new, old) {
            return Relation::Ancestor;
        }
        if reaches(&mut self.nodes, &mut self.work, old, new) {
            return Relation::Descendant;
        }
        Relation::Unrelated
    }
}
