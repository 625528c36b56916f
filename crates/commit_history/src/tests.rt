//! Histories of a few commits, with ample memory.
mod commits;

use crate::HistoryFail;
use auth_rules::What;
use commits::{Commits, Opened};
use object_frames::{Id, Kind, id_of};
use std::test::Fail;

// Whether the history has so many commits, the last of which is of this generation.
fn has_history(opened: &mut Opened, target: Id, intro: Id, count: usize, generation: u32) -> bool {
    match opened.history(target, intro) {
        Ok(graph) => {
            graph.len() == count
                && graph.generation(target) == Some(generation)
                && graph.holds(intro)
        }
        Err(_) => false,
    }
}

#[test]
fn a_history_is_what_either_reaches(rt: HostRuntime) -> Result<(), Fail> {
    let mut commits = Commits::new(rt.alloc());
    let r = commits.commit(&[])?;
    let x = commits.commit(&[r])?;
    let y = commits.commit(&[r])?;
    let m = commits.commit(&[x, y])?;
    let other = commits.commit(&[])?;
    let opened = &mut commits.open(&rt, &[])?;
    assert!(rt; has_history(opened, r, r, 1, 1));
    assert!(rt; has_history(opened, x, r, 2, 2));
    assert!(rt; has_history(opened, m, r, 4, 3));
    assert!(rt; has_history(opened, r, m, 4, 1));
    assert!(rt; has_history(opened, x, other, 3, 2));
    assert!(rt; has_history(opened, m, other, 5, 3));
    Ok(())
}

#[test]
fn the_parents_are_those_that_the_commit_names(rt: HostRuntime) -> Result<(), Fail> {
    let mut commits = Commits::new(rt.alloc());
    let r = commits.commit(&[])?;
    let x = commits.commit(&[r])?;
    let m = commits.commit(&[x, r, r])?;
    let mut opened = commits.open(&rt, &[])?;
    match opened.history(m, r) {
        Ok(graph) => assert_eq!(rt; graph.parents(m), Some([x, r, r].as_slice())),
        Err(fail) => panic!(rt; "{fail:?}"),
    }
    Ok(())
}

// Whether the history can't be judged since this object can't be read, and why.
fn is_unread(opened: &mut Opened, target: Id, intro: Id, id: Id, what: What) -> bool {
    opened.history(target, intro).err() == Some(HistoryFail::Object { id, what })
}

#[test]
fn the_least_commit_that_cannot_be_read_is_named(rt: HostRuntime) -> Result<(), Fail> {
    let mut commits = Commits::new(rt.alloc());
    let blob = commits.blob(b"a blob")?;
    // 7683f568.. and 66b8161e..
    let (lost, gone) = (id_of(Kind::Commit, b"lost"), id_of(Kind::Commit, b"gone"));
    let r = commits.commit(&[])?;
    let of_two = commits.commit(&[lost, gone])?;
    let turned = commits.commit(&[gone, lost])?;
    let of_blob = commits.commit(&[r, blob])?;
    let child = commits.commit(&[of_blob])?;
    let opened = &mut commits.open(&rt, &[])?;
    let kind = What::Kind(Kind::Blob);
    assert!(rt; is_unread(opened, lost, r, lost, What::Missing));
    assert!(rt; is_unread(opened, r, lost, lost, What::Missing));
    assert!(rt; is_unread(opened, of_two, r, gone, What::Missing));
    assert!(rt; is_unread(opened, turned, r, gone, What::Missing));
    assert!(rt; is_unread(opened, child, r, blob, kind));
    Ok(())
}

#[test]
fn a_failed_call_is_a_fault_of_git(rt: HostRuntime) -> Result<(), Fail> {
    let mut commits = Commits::new(rt.alloc());
    let r = commits.commit(&[])?;
    let c = commits.commit(&[r])?;
    let mut opened = commits.open(&rt, &[3])?;
    assert_eq!(rt; opened.history(c, r).err(), Some(HistoryFail::GitFault));
    Ok(())
}
