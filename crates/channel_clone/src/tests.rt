//! What is asked of a clone, over the history of a script.
ghost use Rattle.std.specs.Prelude.{◌≡◌, [], ◌∷◌, IfOk};

use crate::{read_file, relate, resolve};
use auth_engine::{EngineFail, Which};
use auth_rules::What;
use child_ports::{Bytes, MemGit, Names, Numbers, is_name, rows_fit};
use commit_graph::Relation;
use object_frames::Id;
use stand_world::{World, build};
use std::alloc::{AllocError, Global};
use std::process::Abort;
use std::test::Fail;

const SCRIPT: &str = "key a
commit i - a a
meta (channel (version 0))
commit c i a a
commit x - a a
branch master c
";

fn world_of(rt: &impl Abort, alloc: Global) -> World {
    match build(alloc, SCRIPT.as_bytes(), "clones/main") {
        Ok(world) => world,
        Err(_) => panic!(rt; "the script is at fault"),
    }
}

fn git_of(rt: &impl Abort, alloc: Global, world: &World) -> Result<MemGit, AllocError> {
    let rows = world.git_rows(alloc)?;
    assert!(rt; rows_fit(&rows));
    MemGit::new(alloc, rows, Numbers::new(alloc), Numbers::new(alloc))
}

fn id_of(rt: &impl Abort, world: &World, name: &str) -> Id {
    match world.id(name) {
        Some(id) => id,
        None => panic!(rt; "{name} is declared"),
    }
}

fn two_names(alloc: Global, first: &[u8], second: &[u8]) -> Result<Names, AllocError>
    ensures { IfOk result (λ names. names ≡ first.now ∷ second.now ∷ []) }
{
    let mut names = Names::new(alloc);
    names.push(Bytes::from_slice(alloc, first)?)?;
    names.push(Bytes::from_slice(alloc, second)?)?;
    Ok(names)
}

// The commit that two names stand for.
fn resolve_two(
    rt: &impl Abort,
    alloc: Global,
    git: &mut MemGit,
    first: &[u8],
    second: &[u8],
) -> Result<Result<Id, EngineFail>, AllocError> {
    if !is_name(first) || !is_name(second) {
        panic!(rt; "a name that git isn't asked");
    }
    let names = two_names(alloc, first, second)?;
    Ok(resolve(alloc, git, "clones/main", &names))
}

// Two names, and the commit that they stand for.
static NAMES: [(&str, &str, &str); 3] = [
    ("nope^{commit}", "master^{commit}", "c"),
    ("master^{commit}", "nope^{commit}", "c"),
    ("HEAD^{commit}", "master^{commit}", "x"),
];

#[test]
fn the_first_name_that_is_not_missing_counts(rt: HostRuntime) -> Result<(), Fail> {
    let alloc = rt.alloc();
    let world = world_of(&rt, alloc);
    let mut git = git_of(&rt, alloc, &world)?;
    for (first, second, want) in &NAMES {
        let want = id_of(&rt, &world, want);
        let found = resolve_two(&rt, alloc, &mut git, first.as_bytes(), second.as_bytes())?;
        assert!(rt; matches!(&found, Ok(id) if *id == want), "at {first}");
    }
    Ok(())
}

#[test]
fn names_of_nothing_are_missing(rt: HostRuntime) -> Result<(), Fail> {
    let alloc = rt.alloc();
    let world = world_of(&rt, alloc);
    let mut git = git_of(&rt, alloc, &world)?;
    let found = resolve_two(&rt, alloc, &mut git, b"nope^{commit}", b"no^{commit}")?;
    assert!(rt;
        matches!(
            &found,
            Err(EngineFail::Name {
                which: Which::Target,
                what: What::Missing
            })
        )
    );
    Ok(())
}

// Two commits, and how the first stands to the second.
static RELATIONS: [(&str, &str, Relation); 4] = [
    ("i", "i", Relation::Same),
    ("i", "c", Relation::Ancestor),
    ("c", "i", Relation::Descendant),
    ("x", "c", Relation::Unrelated),
];

#[test]
fn two_commits_stand_by_what_they_reach(rt: HostRuntime) -> Result<(), Fail> {
    let alloc = rt.alloc();
    let world = world_of(&rt, alloc);
    let mut git = git_of(&rt, alloc, &world)?;
    for (old, new, want) in &RELATIONS {
        let from = id_of(&rt, &world, old);
        let to = id_of(&rt, &world, new);
        let relation = relate(alloc, &mut git, "clones/main", from, to);
        assert!(rt;
            matches!(&relation, Ok(found) if *found == *want),
            "of {old} and {new}"
        );
    }
    Ok(())
}

// Whether a commit's root tree has this file, or none of the name.
fn has_file(alloc: Global, git: &mut MemGit, id: Id, name: &str, want: Option<&str>) -> bool {
    match (
        read_file(alloc, git, "clones/main", id, name.as_bytes()),
        want,
    ) {
        (Ok(Some(found)), Some(want)) => found.as_slice() == want.as_bytes(),
        (Ok(None), None) => true,
        _ => false,
    }
}

#[test]
fn a_file_is_read_where_the_root_tree_has_it(rt: HostRuntime) -> Result<(), Fail> {
    let alloc = rt.alloc();
    let world = world_of(&rt, alloc);
    let git = &mut git_of(&rt, alloc, &world)?;
    let i = id_of(&rt, &world, "i");
    let c = id_of(&rt, &world, "c");
    assert!(rt; has_file(alloc, git, i, ".guix-channel", None));
    let channel = Some("(channel (version 0))\n");
    assert!(rt; has_file(alloc, git, c, ".guix-channel", channel));
    assert!(rt; has_file(alloc, git, c, "README", None));
    Ok(())
}
