//! Worked histories, with ample memory.
mod history;

use crate::{Cause, ReadFail, RuleFail, What, read_commit_at};
use authorizations::AuthFail;
use child_ports::MemGit;
use history::{History, Opened, key};
use object_frames::{Id, Kind, id_of};
use std::alloc::Global;
use std::process::Abort;

const SHA1: u8 = 2;

const SHA256: u8 = 8;

// Whether the commit is accepted as one of this key.
fn is_by(rt: &impl Abort, opened: &mut Opened, historical: &[u8], id: Id, want: u8) -> bool {
    opened.judge(rt, historical, id) == Ok(key(want))
}

// Whether the commit is refused for this cause.
fn is_refused(
    rt: &impl Abort,
    opened: &mut Opened,
    historical: &[u8],
    id: Id,
    want: Cause,
) -> bool {
    opened.judge(rt, historical, id) == Err(RuleFail::Refused(want))
}

#[test]
fn a_parent_authorises_and_not_the_commit_itself(rt: HostRuntime) {
    let mut history = History::new(rt.alloc());
    let one = history.file(&rt, &[1]);
    let both = history.file(&rt, &[1, 2]);
    let i = history.commit(&rt, &[], 1, SHA256, Some(one));
    let own = history.commit(&rt, &[i], 2, SHA256, Some(both));
    let first = history.commit(&rt, &[i], 1, SHA256, Some(both));
    let second = history.commit(&rt, &[first], 2, SHA256, Some(both));
    let opened = &mut history.open(&rt, &[], &[]);
    assert!(rt; is_refused(&rt, opened, &[], own, Cause::NotAuthorised(key(2))));
    assert!(rt; is_by(&rt, opened, &[], first, 1));
    assert!(rt; is_by(&rt, opened, &[], second, 2));
    assert_eq!(rt; opened.sig.asked(), 3);
}

#[test]
fn a_merge_takes_a_key_that_each_parent_lists(rt: HostRuntime) {
    let mut history = History::new(rt.alloc());
    let left = history.file(&rt, &[1, 2]);
    let right = history.file(&rt, &[2, 3]);
    let p = history.commit(&rt, &[], 1, SHA256, Some(left));
    let q = history.commit(&rt, &[], 1, SHA256, Some(right));
    let by_two = history.commit(&rt, &[p, q, q], 2, SHA256, None);
    let by_one = history.commit(&rt, &[p, q], 1, SHA256, Some(left));
    let with_file = history.commit(&rt, &[p, q], 2, SHA256, Some(left));
    let opened = &mut history.open(&rt, &[], &[]);
    assert!(rt; is_refused(&rt, opened, &[], by_two, Cause::RemovesFile));
    assert!(rt; is_refused(&rt, opened, &[], by_one, Cause::NotAuthorised(key(1))));
    assert!(rt; is_by(&rt, opened, &[], with_file, 2));
}

// Whether a commit of key 1 is accepted where key 1 is historical, and not where key 2 is.
fn needs_its_key(rt: &impl Abort, opened: &mut Opened, id: Id) -> bool {
    is_refused(rt, opened, &[2], id, Cause::NotAuthorised(key(1))) && is_by(rt, opened, &[1], id, 1)
}

#[test]
fn historical_keys_serve_until_there_is_a_file(rt: HostRuntime) {
    let mut history = History::new(rt.alloc());
    let file = history.file(&rt, &[1]);
    let root = history.commit(&rt, &[], 1, SHA1, None);
    let child = history.commit(&rt, &[root], 1, SHA1, None);
    let with_file = history.commit(&rt, &[child], 1, SHA256, Some(file));
    let without = history.commit(&rt, &[with_file], 1, SHA256, None);
    let later = history.commit(&rt, &[without], 1, SHA256, None);
    let opened = &mut history.open(&rt, &[], &[]);
    assert!(rt; needs_its_key(&rt, opened, root));
    assert!(rt; needs_its_key(&rt, opened, child));
    assert!(rt; needs_its_key(&rt, opened, with_file));
    assert!(rt; is_refused(&rt, opened, &[1], without, Cause::RemovesFile));
    assert!(rt; is_refused(&rt, opened, &[1], later, Cause::ParentRemovedFile(without)));
}

#[test]
fn a_signature_has_to_be_there_strong_and_of_the_keyring(rt: HostRuntime) {
    let mut history = History::new(rt.alloc());
    let file = history.file(&rt, &[1, 4]);
    let i = history.commit(&rt, &[], 1, SHA256, Some(file));
    let unsigned = history.commit(&rt, &[i], 0, SHA256, Some(file));
    let weak = history.commit(&rt, &[i], 1, SHA1, Some(file));
    let foreign = history.commit(&rt, &[i], 4, SHA256, Some(file));
    let opened = &mut history.open(&rt, &[], &[]);
    assert!(rt; is_refused(&rt, opened, &[], unsigned, Cause::Unsigned));
    assert!(rt; is_refused(&rt, opened, &[], weak, Cause::WeakHash(2)));
    assert!(rt; is_refused(&rt, opened, &[], foreign, Cause::KeyNotInKeyring(key(4))));
    assert_eq!(rt; opened.sig.asked(), 2);
}

#[test]
fn what_is_consulted_is_read_before_gpgv_is_asked(rt: HostRuntime) {
    let mut history = History::new(rt.alloc());
    let lost = id_of(Kind::Blob, b"lost");
    let other = history.blob(&rt, b"other");
    let file = history.file(&rt, &[1]);
    let p = history.commit(&rt, &[], 1, SHA256, Some(lost));
    let q = history.commit(&rt, &[], 1, SHA256, Some(other));
    let unsigned = history.commit(&rt, &[q, p], 0, SHA256, Some(file));
    let child = history.commit(&rt, &[q], 1, SHA256, Some(file));
    let opened = &mut history.open(&rt, &[], &[]);
    let unreadable = Cause::Unreadable {
        id: lost,
        what: What::Missing,
    };
    assert!(rt; is_refused(&rt, opened, &[], unsigned, unreadable));
    assert_eq!(rt; opened.sig.asked(), 0);
    let bad_file = Cause::ParentFile {
        parent: q,
        fail: AuthFail::Shape,
    };
    assert!(rt; is_refused(&rt, opened, &[], child, bad_file));
}

#[test]
fn the_introduction_is_judged_without_its_parents(rt: HostRuntime) {
    let mut history = History::new(rt.alloc());
    let lost = id_of(Kind::Commit, b"lost");
    let by_one = history.commit(&rt, &[lost], 1, SHA256, None);
    let by_two = history.commit(&rt, &[lost], 2, SHA256, None);
    let opened = &mut history.open(&rt, &[], &[]);
    let wrong = Cause::WrongSigner {
        found: key(2),
        wanted: key(1),
    };
    assert!(rt; opened.judge_intro(&rt, by_one) == Ok(()));
    assert!(rt; opened.judge_intro(&rt, by_two) == Err(RuleFail::Refused(wrong)));
}

// Whether an introduction is answered so where the calls of these numbers of git and of gpgv fail.
fn is_told(rt: &impl Abort, alloc: Global, git: &[u64], sig: &[u64], want: RuleFail) -> bool {
    let mut history = History::new(alloc);
    let i = history.commit(rt, &[], 1, SHA256, None);
    let mut opened = history.open(rt, git, sig);
    opened.judge_intro(rt, i) == Err(want)
}

#[test]
fn a_failed_call_is_told_as_that_of_its_port(rt: HostRuntime) {
    assert!(rt; is_told(&rt, rt.alloc(), &[1], &[], RuleFail::GitFault));
    assert!(rt; is_told(&rt, rt.alloc(), &[], &[1], RuleFail::SigFault));
}

// Whether the commit of this id is read, and has this parent alone.
fn has_parent(alloc: Global, git: &mut MemGit, id: Id, parent: Id) -> bool {
    match read_commit_at(alloc, git, "", id) {
        Ok(commit) => commit.parents.as_slice() == [parent].as_slice(),
        Err(_) => false,
    }
}

// Whether no commit is read by this id, for this reason.
fn is_unreadable(alloc: Global, git: &mut MemGit, id: Id, what: What) -> bool {
    read_commit_at(alloc, git, "", id).err() == Some(ReadFail::Unreadable(what))
}

#[test]
fn a_commit_is_read_by_its_id(rt: HostRuntime) {
    let alloc = rt.alloc();
    let mut history = History::new(alloc);
    let blob = history.blob(&rt, b"a blob");
    let i = history.commit(&rt, &[], 1, SHA256, None);
    let c = history.commit(&rt, &[i], 1, SHA256, None);
    let opened = &mut history.open(&rt, &[], &[]);
    let lost = id_of(Kind::Commit, b"lost");
    assert!(rt; has_parent(alloc, &mut opened.git, c, i));
    assert!(rt; is_unreadable(alloc, &mut opened.git, blob, What::Kind(Kind::Blob)));
    assert!(rt; is_unreadable(alloc, &mut opened.git, lost, What::Missing));
}
