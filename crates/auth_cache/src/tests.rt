//! Texts of caches, read under their scope and others, and refused at their places; commits, one put before others.
use crate::{CacheFail, Entries, read_cache, write_cache};
use authorizations::Scope;
use child_ports::{Bytes, Fingerprint, KeySet};
use object_frames::Id;
use std::alloc::{AllocError, Global};
use std::test::Fail;

const FIRST: &str = "guix-auth-cache 1\n";

const HEAD: &str =
    "intro 0101010101010101010101010101010101010101\nsigner ABABABABABABABABABABABABABABABABABABABAB\nkeyring 0303030303030303030303030303030303030303\n";

const KEY: &str = "historical 0505050505050505050505050505050505050505\n";

const HIGHER_KEY: &str = "historical FF05050505050505050505050505050505050505\n";

const COMMIT: &str = "commit 0707070707070707070707070707070707070707\n";

const OTHER_COMMIT: &str = "commit 0808080808080808080808080808080808080808\n";

// What the introduction, the signer and the keyring's tree of the texts consist of: twenty times this byte.
const OWN: (u8, u8, u8) = (1, 0xAB, 3);

// The scope whose parts and historical keys consist of these bytes.
fn scope_of(alloc: Global, parts: (u8, u8, u8), keys: &[u8]) -> Result<Scope, AllocError> {
    let (intro, signer, tree) = parts;
    let mut historical = KeySet::new(alloc);
    for key in keys {
        historical.insert(Fingerprint([*key; 20]))?;
    }
    Ok(Scope {
        intro: Id::of_bytes([intro; 20]),
        signer: Fingerprint([signer; 20]),
        keyring_tree: Id::of_bytes([tree; 20]),
        historical,
    })
}

// The commit of this number.
fn commit(number: u8) -> Id {
    Id::of_bytes([number; 20])
}

// These texts, one behind the other.
fn joined(alloc: Global, parts: &[&str]) -> Result<Bytes, AllocError> {
    let mut text = Bytes::new(alloc);
    for part in parts {
        text.extend(part.as_bytes())?;
    }
    Ok(text)
}

// Whether a text gives these commits under a scope.
fn gives(alloc: Global, text: &[u8], scope: &Scope, want: &[Id]) -> bool {
    match read_cache(alloc, text, scope) {
        Ok(entries) => entries.as_slice() == want,
        Err(_) => false,
    }
}

// Whether reading the bytes under the scope without historical keys is refused so.
fn is_refused(alloc: Global, bytes: &[u8], want: CacheFail) -> bool {
    let Ok(scope) = scope_of(alloc, OWN, &[]) else {
        return false;
    };
    match read_cache(alloc, bytes, &scope) {
        Err(fail) => fail == want,
        Ok(_) => false,
    }
}

#[test]
fn a_text_gives_its_commits_under_its_own_scope(rt: HostRuntime) -> Result<(), Fail> {
    let text = joined(rt.alloc(), &[FIRST, HEAD, COMMIT, "end\n"])?;
    assert_eq!(rt; text.len(), 214);
    let scope = scope_of(rt.alloc(), OWN, &[])?;
    assert!(rt; gives(rt.alloc(), text.as_slice(), &scope, &[commit(7)]));
    Ok(())
}

// Whether a text gives these commits under the scope of these parts and historical keys.
fn gives_under(alloc: Global, text: &[u8], parts: (u8, u8, u8), keys: &[u8], want: &[Id]) -> bool {
    match scope_of(alloc, parts, keys) {
        Ok(scope) => gives(alloc, text, &scope, want),
        Err(_) => false,
    }
}

// What the parts and the historical keys of other scopes consist of.
static OTHER_SCOPES: [((u8, u8, u8), &[u8]); 5] = [
    ((2, 0xAB, 3), &[5]),
    ((1, 0xAC, 3), &[5]),
    ((1, 0xAB, 4), &[5]),
    ((1, 0xAB, 3), &[]),
    ((1, 0xAB, 3), &[5, 6]),
];

#[test]
fn a_text_gives_no_commits_under_another_scope(rt: HostRuntime) -> Result<(), Fail> {
    let alloc = rt.alloc();
    let text = joined(alloc, &[FIRST, HEAD, KEY, COMMIT, "end\n"])?;
    let text = text.as_slice();
    assert!(rt; gives_under(alloc, text, OWN, &[5], &[commit(7)]));
    for (place, (parts, keys)) in OTHER_SCOPES.iter().enumerate() {
        assert!(rt; gives_under(alloc, text, *parts, keys, &[]), "case {place}");
    }
    Ok(())
}

// Texts, and why they are refused.
static VERSIONS: [(&str, CacheFail); 16] = [
    ("", CacheFail::Form(0)),
    ("guix-auth-cache 3\n", CacheFail::Version(3)),
    ("guix-auth-cache 0\nx", CacheFail::Version(0)),
    ("guix-auth-cache 2\n", CacheFail::Version(2)),
    ("guix-auth-cache 3", CacheFail::Form(0)),
    ("guix-auth-cache 01\n", CacheFail::Form(0)),
    ("guix-auth-cache +1\n", CacheFail::Form(0)),
    ("guix-auth-cache \n", CacheFail::Form(0)),
    ("guix-auth-cache  1\n", CacheFail::Form(0)),
    ("guix-auth-cache 1 \n", CacheFail::Form(0)),
    (
        "guix-auth-cache 4294967295\n",
        CacheFail::Version(4_294_967_295),
    ),
    ("guix-auth-cache 4294967296\n", CacheFail::Form(0)),
    ("guix-auth-cache 18446744073709551617\n", CacheFail::Form(0)),
    ("guix-auth-caches 3\n", CacheFail::Form(0)),
    ("guix-auth-cache 1", CacheFail::Form(0)),
    ("guix-auth-cache 1\n", CacheFail::Form(18)),
];

#[test]
fn the_first_line_names_the_version(rt: HostRuntime) {
    for (place, (text, want)) in VERSIONS.iter().enumerate() {
        assert!(rt;
            is_refused(rt.alloc(), text.as_bytes(), *want),
            "case {place}"
        );
    }
}

// Whether so many bytes of a text are refused at this place.
fn is_cut_refused(alloc: Global, text: &[u8], size: usize, at: u64) -> bool {
    match text.get(..size) {
        Some(cut) => is_refused(alloc, cut, CacheFail::Form(at)),
        None => false,
    }
}

// How many bytes are left of the text of one commit, and the place.
static CUTS: [(usize, u64); 12] = [
    (0, 0),
    (17, 0),
    (18, 18),
    (64, 18),
    (65, 65),
    (112, 65),
    (113, 113),
    (161, 113),
    (162, 162),
    (209, 162),
    (210, 210),
    (213, 210),
];

#[test]
fn a_cut_text_is_refused_at_its_place(rt: HostRuntime) -> Result<(), Fail> {
    let alloc = rt.alloc();
    let text = joined(alloc, &[FIRST, HEAD, COMMIT, "end\n"])?;
    let text = text.as_slice();
    for (place, (size, at)) in CUTS.iter().enumerate() {
        assert!(rt; is_cut_refused(alloc, text, *size, *at), "case {place}");
    }
    Ok(())
}

// Whether the text of these parts is refused at this place.
fn is_joined_refused(alloc: Global, parts: &[&str], at: u64) -> bool {
    match joined(alloc, parts) {
        Ok(text) => is_refused(alloc, text.as_slice(), CacheFail::Form(at)),
        Err(_) => false,
    }
}

const LOWER_SIGNER: &str = "signer abababababababababababababababababababab\n";

const UPPER_INTRO: &str = "intro ABABABABABABABABABABABABABABABABABABABAB\n";

const LONG_COMMIT: &str = "commit 070707070707070707070707070707070707070707\n";

// The parts of a text, and the place.
static MISFITS: [(&[&str], u64); 15] = [
    (&[FIRST, HEAD, COMMIT, "end\n", "x"], 214),
    (&[FIRST, HEAD, COMMIT, "end\n", "\n"], 214),
    (&[FIRST, HEAD, COMMIT, "end\n", "end\n"], 214),
    (&[FIRST, HEAD, COMMIT, "end \n"], 210),
    (&[FIRST, HEAD, HIGHER_KEY, KEY, "end\n"], 214),
    (&[FIRST, HEAD, KEY, KEY, "end\n"], 214),
    (&[FIRST, HEAD, COMMIT, KEY, "end\n"], 210),
    (&[FIRST, HEAD, COMMIT, COMMIT, "end\n"], 210),
    (&[FIRST, HEAD, COMMIT, OTHER_COMMIT, COMMIT, "end\n"], 258),
    (&[FIRST, HEAD, HEAD, "end\n"], 162),
    (&[FIRST, HEAD, "\n", "end\n"], 162),
    (&[FIRST, HEAD, LONG_COMMIT, "end\n"], 162),
    (&[FIRST, UPPER_INTRO, "end\n"], 18),
    (&[FIRST, LOWER_SIGNER, "end\n"], 18),
    (
        &[
            FIRST,
            "intro 0101010101010101010101010101010101010101\n",
            LOWER_SIGNER,
        ],
        65,
    ),
];

#[test]
fn a_line_that_does_not_fit_is_refused_at_its_place(rt: HostRuntime) {
    for (place, (parts, at)) in MISFITS.iter().enumerate() {
        assert!(rt; is_joined_refused(rt.alloc(), parts, *at), "case {place}");
    }
}

// So many commits, the last of them put first.
fn commits(alloc: Global, count: u8) -> Result<Entries, AllocError> {
    let mut entries = Entries::new(alloc);
    for number in 0..count {
        entries = entries.with(alloc, commit(number))?;
    }
    Ok(entries)
}

// Whether there are so many commits, of which these are the first, the second and the last.
fn are_commits(entries: &Entries, size: usize, first: u8, second: u8, last: u8) -> bool {
    let ids = entries.as_slice();
    ids.len() == size
        && ids.first() == Some(&commit(first))
        && ids.get(1) == Some(&commit(second))
        && ids.last() == Some(&commit(last))
        && entries.as_list().len() == size
}

// How many there are before, the commit, and then how many there are, the second and the last.
static ADDED: [(u8, u8, usize, u8, u8); 7] = [
    (2, 2, 3, 1, 0),
    (3, 2, 3, 1, 0),
    (3, 1, 3, 2, 0),
    (3, 0, 3, 2, 1),
    (64, 64, 64, 63, 1),
    (64, 0, 64, 63, 1),
    (64, 63, 64, 62, 0),
];

#[test]
fn a_commit_comes_first_and_the_oldest_of_sixty_five_drops_out(
    rt: HostRuntime,
) -> Result<(), Fail> {
    for (place, (count, number, size, second, last)) in ADDED.iter().enumerate() {
        let old = commits(rt.alloc(), *count)?;
        let entries = old.with(rt.alloc(), commit(*number))?;
        assert!(rt;
            are_commits(&entries, *size, *number, *second, *last),
            "case {place}"
        );
    }
    Ok(())
}

const HIGH_KEY: &str = "historical FFFFFFFFFFFFFFFFFFFFFFFFFFFFFFFFFFFFFFFF\n";

// The parts of a text with two keys and two commits.
static WRITTEN: [&str; 7] = [FIRST, HEAD, KEY, HIGH_KEY, COMMIT, OTHER_COMMIT, "end\n"];

// Whether this is written for a scope and commits, and read again.
fn is_written(
    alloc: Global,
    scope: &Scope,
    entries: &Entries,
    parts: &[&str],
) -> Result<bool, AllocError> {
    let want = joined(alloc, parts)?;
    let text = write_cache(alloc, scope, entries)?;
    let text = text.as_slice();
    Ok(text == want.as_slice() && gives(alloc, text, scope, entries.as_slice()))
}

#[test]
fn what_is_written_is_the_text_and_is_read_again(rt: HostRuntime) -> Result<(), Fail> {
    let alloc = rt.alloc();
    let scope = scope_of(alloc, OWN, &[0xFF, 5])?;
    let older = Entries::new(alloc).with(alloc, commit(8))?;
    let entries = older.with(alloc, commit(7))?;
    assert!(rt; is_written(alloc, &scope, &entries, &WRITTEN)?);
    Ok(())
}

// Whether the text of a cache with one commit more is refused where its end was.
fn is_longer_refused(alloc: Global, text: &[u8]) -> Result<bool, AllocError> {
    let front = text.len().saturating_sub(4);
    let lines = text.get(..front).ok_or(AllocError)?;
    let mut more = Bytes::from_slice(alloc, lines)?;
    more.extend(b"commit ffffffffffffffffffffffffffffffffffffffff\nend\n")?;
    let want = CacheFail::Form(front as u64);
    Ok(is_refused(alloc, more.as_slice(), want))
}

#[test]
fn sixty_four_commits_are_read_and_sixty_five_are_not(rt: HostRuntime) -> Result<(), Fail> {
    let alloc = rt.alloc();
    let scope = scope_of(alloc, OWN, &[])?;
    let full = commits(alloc, 64)?;
    let text = write_cache(alloc, &scope, &full)?;
    let text = text.as_slice();
    assert!(rt; gives(alloc, text, &scope, full.as_slice()));
    assert!(rt; is_longer_refused(alloc, text)?);
    Ok(())
}
