//! What is left of a target's history, in the order of generations and ids.
ghost use Rattle.std.specs.Prelude.{◌≡◌, map, All, Contains, IfOk, IfErr};
ghost use Rattle.std.specs.BTreeSet.{IsOrdered};
ghost use Rattle.commit_graph.specs.Uncovering.{Row, row_cmp, row_of, IsRow, counted_ids};

use crate::GraphFail;
use crate::level::Level;
use crate::marks::Marks;
use crate::node::Nodes;
use object_frames::{Id, IdList};
use std::alloc::Global;
use std::collections::BTreeSet;

/// The introduction, and the entries that either history has.
pub fn counted(
    alloc: Global,
    near: &Marks,
    far: &Marks,
    intro: Id,
    entries: &[Id],
) -> Result<IdList, GraphFail>
    ensures ids { IfOk result (λ ids. ids ≡ counted_ids near.now far.now intro entries.now) }
    ensures err { IfErr result (λ e. e ≡ GraphFail.Memory) }
{
    let mut ids = IdList::new(alloc);
    let Ok(_) = ids.push(intro) else {
        return Err(GraphFail::Memory);
    };
    for entry in entries {
        if near.has(*entry) || far.has(*entry) {
            let Ok(_) = ids.push(*entry) else {
                return Err(GraphFail::Memory);
            };
        }
    }
    Ok(ids)
}

// The row of a commit that is near and isn't covered.
fn bare_row(near: &Marks, covered: &Marks, id: Id, level: Level) -> Option<(u32, Id)>
    ensures { result ≡ row_of near.now covered.now id level }
{
    let Level::Known(n) = level else {
        return None;
    };
    if near.has(id) && !covered.has(id) {
        Some((n, id))
    } else {
        None
    }
}

/// The commits that are near and aren't covered, by generation and then id.
pub fn bare_rows(
    alloc: Global,
    nodes: &Nodes,
    near: &Marks,
    covered: &Marks,
) -> Result<BTreeSet<(u32, Id)>, GraphFail>
    ensures sound { IfOk result (λ rows. All (IsRow nodes.now.entries near.now covered.now) rows.keys) }
    ensures complete { IfOk result (λ rows. (row : Row) → IsRow nodes.now.entries near.now covered.now row → Contains rows.keys row) }
    ensures err { IfErr result (λ e. e ≡ GraphFail.Memory) }
{
    let mut rows = BTreeSet::new(alloc);
    for (id, node) in nodes.iter() {
        if let Some(row) = bare_row(near, covered, *id, node.level) {
            let Ok(_) = rows.insert(row) else {
                return Err(GraphFail::Memory);
            };
        }
    }
    Ok(rows)
}

/// The ids in the order of the rows.
pub fn ids_of(alloc: Global, rows: &BTreeSet<(u32, Id)>) -> Result<IdList, GraphFail>
    ensures ids { IfOk result (λ ids. ids ≡ map (λ (row : Row). row.1) rows.now.keys) }
    ensures ordered { IsOrdered row_cmp rows.now }
    ensures err { IfErr result (λ e. e ≡ GraphFail.Memory) }
{
    let mut ids = IdList::new(alloc);
    for row in rows.iter() {
        let Ok(_) = ids.push(row.1) else {
            return Err(GraphFail::Memory);
        };
    }
    Ok(ids)
}
