//! Small histories, and a long line, with ample memory.
use crate::{Graph, GraphFail, Marks, Relation};
use object_frames::{Id, IdList};
use std::alloc::{AllocError, Global};
use std::process::Abort;
use std::test::Fail;

// The id that ends with this byte, after nineteen that are zero.
fn id(n: u8) -> Id {
    let mut bytes = [0u8; 20];
    bytes[19] = n;
    Id::of_bytes(bytes)
}

fn ids(alloc: Global, names: &[u8]) -> Result<IdList, AllocError> {
    let mut list = IdList::new(alloc);
    for n in names {
        list.push(id(*n))?;
    }
    Ok(list)
}

// Two lines of history that meet again: 4 and 3 have the parent 9, and 1 has the parents 4 and 3.
fn meeting(alloc: Global) -> Result<Graph, Fail> {
    let mut graph = Graph::new(alloc);
    graph.add(id(4), &ids(alloc, &[9])?)?;
    graph.add(id(3), &ids(alloc, &[9])?)?;
    graph.add(id(1), &ids(alloc, &[4, 3])?)?;
    Ok(graph)
}

// The same with its root.
fn rooted(alloc: Global) -> Result<Graph, Fail> {
    let mut graph = meeting(alloc)?;
    graph.add(id(9), &ids(alloc, &[])?)?;
    Ok(graph)
}

// What a commit reaches.
fn reached(rt: &impl Abort, alloc: Global, graph: &Graph, from: Id) -> Result<Marks, Fail> {
    let mut list = IdList::new(alloc);
    list.push(from)?;
    assert!(rt; graph.holds(from), "it is held");
    if let Some(_) = graph.missing() {
        panic!(rt; "a parent is missing");
    }
    Ok(graph.closure(alloc, &list)?)
}

// What is left of the target's history.
fn left(
    rt: &impl Abort,
    alloc: Global,
    graph: &mut Graph,
    target: Id,
    intro: Id,
    entries: &[u8],
) -> Result<IdList, Fail> {
    graph.rank()?;
    assert!(rt; graph.holds(target), "the target is held");
    assert!(rt; graph.holds(intro), "the introduction is held");
    Ok(graph.uncovered(alloc, target, intro, &ids(alloc, entries)?)?)
}

// How two commits stand to each other.
fn related(rt: &impl Abort, graph: &mut Graph, old: Id, new: Id) -> Result<Relation, Fail> {
    graph.rank()?;
    assert!(rt; graph.holds(old), "the old one is held");
    assert!(rt; graph.holds(new), "the new one is held");
    Ok(graph.relation(old, new))
}

#[test]
fn generations_count_from_the_root(rt: HostRuntime) -> Result<(), Fail> {
    let mut graph = rooted(rt.alloc())?;
    assert!(rt; graph.generation(id(1)) == None, "before it is ranked");
    graph.rank()?;
    assert!(rt; graph.generation(id(9)) == Some(1));
    assert!(rt; graph.generation(id(4)) == Some(2));
    assert!(rt; graph.generation(id(3)) == Some(2));
    assert!(rt; graph.generation(id(1)) == Some(3));
    assert!(rt;
        graph.generation(id(2)) == None,
        "of a commit that is not held"
    );
    Ok(())
}

#[test]
fn a_commit_is_held_with_its_parents(rt: HostRuntime) -> Result<(), Fail> {
    let alloc = rt.alloc();
    let mut graph = rooted(alloc)?;
    assert!(rt; graph.len() == 4);
    assert!(rt; graph.holds(id(9)) && !graph.holds(id(2)));
    assert!(rt; graph.parents(id(1)) == Some([id(4), id(3)].as_slice()));
    assert!(rt; graph.parents(id(2)) == None);
    assert!(rt; graph.missing() == None);
    graph.rank()?;
    let again = graph.add(id(9), &ids(alloc, &[1])?);
    assert!(rt; again == Err(GraphFail::Present));
    assert!(rt;
        graph.generation(id(9)) == Some(1),
        "after a commit that was refused"
    );
    Ok(())
}

#[test]
fn a_commit_reaches_itself_and_its_ancestors(rt: HostRuntime) -> Result<(), Fail> {
    let alloc = rt.alloc();
    let graph = rooted(alloc)?;
    let marks = reached(&rt, alloc, &graph, id(4))?;
    assert!(rt; marks.has(id(9)) && marks.has(id(4)));
    assert!(rt; !marks.has(id(3)) && !marks.has(id(1)));
    Ok(())
}

#[test]
fn a_parent_that_is_not_held_leaves_it_open(rt: HostRuntime) -> Result<(), Fail> {
    let mut graph = meeting(rt.alloc())?;
    assert_eq!(rt; graph.missing(), Some(id(9)));
    assert_eq!(rt; graph.rank(), Err(GraphFail::Open(id(9))));
    Ok(())
}

#[test]
fn descendants_of_a_cycle_have_no_generation_either(rt: HostRuntime) -> Result<(), Fail> {
    let alloc = rt.alloc();
    let mut graph = Graph::new(alloc);
    graph.add(id(6), &ids(alloc, &[5])?)?;
    graph.add(id(5), &ids(alloc, &[6])?)?;
    assert_eq!(rt; graph.rank(), Err(GraphFail::Cycle(id(5))));
    graph.add(id(2), &ids(alloc, &[6])?)?;
    assert_eq!(rt; graph.rank(), Err(GraphFail::Cycle(id(2))));
    Ok(())
}

// Two commits, and how the first stands to the second.
static RELATIONS: [(u8, u8, Relation); 5] = [
    (4, 1, Relation::Ancestor),
    (9, 1, Relation::Ancestor),
    (1, 4, Relation::Descendant),
    (4, 3, Relation::Unrelated),
    (1, 1, Relation::Same),
];

#[test]
fn commits_that_meet_later_are_unrelated(rt: HostRuntime) -> Result<(), Fail> {
    let mut graph = rooted(rt.alloc())?;
    for (old, new, want) in &RELATIONS {
        let relation = related(&rt, &mut graph, id(*old), id(*new))?;
        assert!(rt; relation == *want, "{old} to {new}");
    }
    assert!(rt; graph.generation(id(1)) == Some(3), "it is ranked still");
    Ok(())
}

// Target, introduction, entries of the cache, and what is left.
static LEFT: [(u8, u8, &[u8], &[u8]); 9] = [
    (1, 9, &[], &[3, 4, 1]),
    (1, 4, &[], &[3, 1]),
    (1, 9, &[4], &[3, 1]),
    (1, 9, &[4, 3], &[1]),
    // not reached, though it reaches the target; and not held
    (4, 9, &[1], &[4]),
    (1, 9, &[7], &[3, 4, 1]),
    // the introduction is on another line, is the target, is its descendant
    (4, 3, &[], &[4]),
    (4, 4, &[], &[]),
    (3, 1, &[], &[]),
];

#[test]
fn what_is_left_of_a_history_comes_by_generation_and_then_id(rt: HostRuntime) -> Result<(), Fail> {
    let alloc = rt.alloc();
    let mut graph = rooted(alloc)?;
    for (target, intro, entries, want) in &LEFT {
        let found = left(&rt, alloc, &mut graph, id(*target), id(*intro), entries)?;
        let want = ids(alloc, want)?;
        assert!(rt;
            found.as_slice() == want.as_slice(),
            "of {target} beyond {intro}"
        );
    }
    Ok(())
}

#[test]
fn a_parent_that_is_listed_twice_counts_once(rt: HostRuntime) -> Result<(), Fail> {
    let alloc = rt.alloc();
    let mut graph = rooted(alloc)?;
    graph.add(id(8), &ids(alloc, &[1, 9, 1])?)?;
    let found = left(&rt, alloc, &mut graph, id(8), id(4), &[])?;
    assert!(rt; found.as_slice() == [id(3), id(1), id(8)].as_slice());
    assert!(rt; graph.generation(id(8)) == Some(4));
    Ok(())
}

// The ids of a line: the first has the greatest, and each other has the one before as its parent.
fn on_the_line(n: u16) -> Id {
    let mut bytes = [0u8; 20];
    let number = (999 - n.min(999)).to_be_bytes();
    bytes[0] = number[0];
    bytes[1] = number[1];
    Id::of_bytes(bytes)
}

fn line(alloc: Global) -> Result<Graph, Fail> {
    let mut graph = Graph::new(alloc);
    graph.add(on_the_line(0), &IdList::new(alloc))?;
    for n in 1..1000 {
        let mut parents = IdList::new(alloc);
        parents.push(on_the_line(n - 1))?;
        graph.add(on_the_line(n), &parents)?;
    }
    Ok(graph)
}

#[test]
fn the_tip_of_a_line_has_its_length_as_generation(rt: HostRuntime) -> Result<(), Fail> {
    let mut graph = line(rt.alloc())?;
    graph.rank()?;
    assert_eq!(rt; graph.len(), 1000);
    assert_eq!(rt; graph.generation(on_the_line(999)), Some(1000));
    Ok(())
}
