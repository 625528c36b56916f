//! Worked scripts. The ids and fingerprints were computed by another program.
use crate::{BuildFail, World, build, toy_status};
use child_ports::{
    Bytes, Fingerprint, MemGit, MemSig, Names, Numbers, SigPort, Text, is_name, rows_fit,
};
use commit_objects::{Commit, read_commit};
use keyring_branch::{Keyring, KeyringFail, read_keyring};
use object_frames::{Fetched, Id, fetch};
use std::alloc::{AllocError, Global};
use std::process::Abort;
use std::test::Fail;

// Two keys, a merge under a channel, a commit without files, and a branch.
const SCRIPT: &str = "key b
key a

commit i - a a
meta (channel (version 0))
commit c i,i b/2 a,b
meta -
commit d - - -
branch master c
";

const KEY_A: &str = "B4754DB47B6A4BC3DCFFB18A9480FD267E05848C";

const KEY_B: &str = "C2FBAFFF55AD76422EC303C03B1A683DE8EFD2BB";

const SIGNATURE: &str = "TOY SIGNATURE
key B4754DB47B6A4BC3DCFFB18A9480FD267E05848C
hash 8
sha1 3a0ca7936b9a303b80e4f28d477d3401ed4b5a1e
";

const PAYLOAD: &str = "tree c45d7b93c13676c335d66662690f616943637901
author Stand In <stand@example.org> 0 +0000
committer Stand In <stand@example.org> 0 +0000

i
";

// Git in memory with the world's rows.
fn git_in(alloc: Global, world: &World) -> Result<MemGit, AllocError> {
    let rows = world.git_rows(alloc)?;
    MemGit::new(alloc, rows, Numbers::new(alloc), Numbers::new(alloc))
}

// The keyring that the world's branch gives.
fn keyring_in(rt: &impl Abort, alloc: Global, world: &World) -> Result<Keyring, KeyringFail> {
    let name = b"refs/heads/keyring^{tree}";
    assert!(rt; is_name(name));
    let mut names = Names::new(alloc);
    names.push(Bytes::from_slice(alloc, name)?)?;
    let mut git = git_in(alloc, world)?;
    read_keyring(alloc, &mut git, ".", &names)
}

// Whether this line of the script is the first at fault.
fn is_at_fault(alloc: Global, script: &str, line: u64) -> bool {
    match build(alloc, script.as_bytes(), ".") {
        Ok(_) => false,
        Err(fail) => fail == BuildFail::Line(line),
    }
}

#[test]
fn the_first_line_at_fault_is_told(rt: HostRuntime) {
    let cases: &[(&str, u64)] = &[
        ("", 1),
        ("\n", 2),
        ("key a\nmeta x\n", 3),
        ("key a\nkey b\ncommit i - c a\n", 3),
        ("key a\n\ncommit i - a a", 3),
        ("key\n", 1),
        ("key \n", 1),
        (" key a\n", 1),
        ("key a \n", 1),
        ("key A\n", 1),
        ("key abcdefghijklmnopq\n", 1),
        ("key a\nkey a\n", 2),
        ("meta\n", 1),
        ("meta \n", 1),
        ("tag a\n", 1),
    ];
    for (place, (script, line)) in cases.iter().enumerate() {
        assert!(rt; is_at_fault(rt.alloc(), script, *line), "case {place}");
    }
}

// A script whose fourth line is this one.
fn with_line(alloc: Global, line: &str) -> Result<Text, AllocError> {
    let mut script = Text::new(alloc);
    script.push("key a\ncommit i - - -\nbranch n i\n")?;
    script.push(line)?;
    script.push("\n")?;
    Ok(script)
}

#[test]
fn a_faulty_commit_or_branch_is_told(rt: HostRuntime) -> Result<(), Fail> {
    let lines: &[&str] = &[
        "commit j",
        "commit j - -",
        "commit j - - - -",
        "commit  j - - -",
        "commit J - - -",
        "commit i - - -",
        "commit j k - -",
        "commit j i, - -",
        "commit j a - -",
        "commit j - b -",
        "commit j - i -",
        "commit j - a/ -",
        "commit j - a/8 -",
        "commit j - a/02 -",
        "commit j - a/256 -",
        "commit j - a/1/2 -",
        "commit j - -/2 -",
        "commit j - - b",
        "commit j - - a,,a",
        "commit j - - -,a",
        "branch i",
        "branch m j",
        "branch m i i",
        "branch M i",
        "branch n i",
    ];
    for (place, line) in lines.iter().enumerate() {
        let script = with_line(rt.alloc(), line)?;
        assert!(rt; is_at_fault(rt.alloc(), script.as_str(), 4), "case {place}");
    }
    Ok(())
}

#[test]
fn lines_of_the_form_are_taken(rt: HostRuntime) -> Result<(), Fail> {
    let lines: &[&str] = &[
        "",
        "key i",
        "key abcdefghij012345",
        "commit a i,i a/0 a,a",
        "commit j - a/255 -",
        "branch i i",
        "meta  x ",
        "meta --",
    ];
    for (place, line) in lines.iter().enumerate() {
        let script = with_line(rt.alloc(), line)?;
        let world = build(rt.alloc(), script.as_str().as_bytes(), ".");
        assert!(rt; world.is_ok(), "case {place}");
    }
    Ok(())
}

#[test]
fn commits_have_ids_and_keys_fingerprints(rt: HostRuntime) -> Result<(), Fail> {
    let world = build(rt.alloc(), SCRIPT.as_bytes(), ".")?;
    for (name, id) in [
        ("i", "f95cd7269964400da5e97384e5f17cb804017df9"),
        ("c", "fc7e08e50746010826e9f42227c8e17ffb0702aa"),
        ("d", "a48748e3a9a8655c8b7f517100778060aeaff44f"),
        ("a", ""),
    ] {
        assert_eq!(rt; world.id(name), Id::of_hex(id.as_bytes()), "at {name}");
    }
    for (name, print) in [("a", KEY_A), ("b", KEY_B), ("i", "")] {
        assert_eq!(rt; world.key(name), Fingerprint::of_text(print), "at {name}");
    }
    Ok(())
}

// Whether the world's keyring has these bytes, so many keys, and this tree.
fn has_keyring(
    rt: &impl Abort,
    alloc: Global,
    world: &World,
    bytes: &[u8],
    count: usize,
    tree: &str,
) -> bool {
    match keyring_in(rt, alloc, world) {
        Ok(keyring) => {
            keyring.bytes.as_slice() == bytes
                && keyring.keys.len() == count
                && Some(keyring.tree) == Id::of_hex(tree.as_bytes())
        }
        Err(_) => false,
    }
}

#[test]
fn keys_stand_in_the_order_of_their_files(rt: HostRuntime) -> Result<(), Fail> {
    let keys = b"\x98\x07\x04\0\0\0\0\x01a\x98\x07\x04\0\0\0\0\x01b";
    let tree = "0650d7ccfe9444cec150f9f604148914052a1d5e";
    let world = build(rt.alloc(), SCRIPT.as_bytes(), ".")?;
    assert!(rt; has_keyring(&rt, rt.alloc(), &world, keys, 2, tree));
    Ok(())
}

#[test]
fn a_world_without_keys_has_an_empty_keyring(rt: HostRuntime) -> Result<(), Fail> {
    let tree = "4b825dc642cb6eb9a060e54bf8d69288fbee4904";
    let world = build(rt.alloc(), b"commit i - - -\n", ".")?;
    assert!(rt; has_keyring(&rt, rt.alloc(), &world, b"", 0, tree));
    Ok(())
}

// Whether the commit of this name of the world stands under a name of git's; none is called so, where none stands there.
fn stands_under(
    rt: &impl Abort,
    alloc: Global,
    git: &mut MemGit,
    name: &str,
    commit: Option<Id>,
) -> bool {
    assert!(rt; is_name(name.as_bytes()));
    match fetch(alloc, git, "w", name.as_bytes(), 1_048_576) {
        Ok(Fetched::Missing) => commit == None,
        Ok(Fetched::Found(object)) => commit == Some(object.id),
        Err(_) => false,
    }
}

#[test]
fn git_has_the_last_commit_and_the_branches(rt: HostRuntime) -> Result<(), Fail> {
    let alloc = rt.alloc();
    let world = build(alloc, SCRIPT.as_bytes(), "w")?;
    let mut git = git_in(alloc, &world)?;
    let names: &[(&str, &str)] = &[
        ("HEAD^{commit}", "d"),
        ("master^{commit}", "c"),
        ("refs/heads/master^{commit}", "c"),
        ("refs/remotes/origin/master^{commit}", "c"),
        ("f95cd7269964400da5e97384e5f17cb804017df9^{commit}", "i"),
        ("f95cd7269964400da5e97384e5f17cb804017df9", "i"),
        ("i^{commit}", ""),
        ("master", ""),
    ];
    for (place, (name, commit)) in names.iter().enumerate() {
        let commit = world.id(commit);
        assert!(rt;
            stands_under(&rt, alloc, &mut git, name, commit),
            "case {place}"
        );
    }
    Ok(())
}

#[test]
fn git_has_a_row_for_each_name_and_object(rt: HostRuntime) -> Result<(), Fail> {
    let world = build(rt.alloc(), SCRIPT.as_bytes(), "w")?;
    let rows = world.git_rows(rt.alloc())?;
    // three trees, two commits with a file and one with two, the names of each commit, HEAD, a branch and the keyring
    assert_eq!(rt; rows.len(), 3 + 3 + 6 + 1 + 3 + 2 + 4);
    assert!(rt; rows_fit(&rows));
    Ok(())
}

// The commit that stands under a name.
fn commit_in(rt: &impl Abort, alloc: Global, world: &World, name: &str) -> Option<Commit> {
    assert!(rt; is_name(name.as_bytes()));
    let mut git = git_in(alloc, world).ok()?;
    match fetch(alloc, &mut git, ".", name.as_bytes(), 1_048_576) {
        Ok(Fetched::Found(object)) => read_commit(alloc, object.content.as_slice()).ok(),
        _ => None,
    }
}

// What gpgv in memory says of a commit's signature, under the world's keyring.
fn verdict_on(rt: &impl Abort, alloc: Global, world: &World, commit: &Commit) -> Option<Bytes> {
    let signature = commit.signature.as_ref()?;
    let rows = world.sig_rows(alloc).ok()?;
    let mut sig = MemSig::new(alloc, rows, Numbers::new(alloc)).ok()?;
    let keyring = keyring_in(rt, alloc, world).ok()?;
    sig.load(keyring.bytes.as_slice()).ok()?;
    sig.verify(alloc, signature.as_slice(), commit.payload.as_slice())
        .ok()
}

// Whether gpgv says this of the commit that stands under a name; where nothing is to be said, it has no signature.
fn gpgv_says(rt: &impl Abort, alloc: Global, world: &World, name: &str, want: &str) -> bool {
    let Some(commit) = commit_in(rt, alloc, world, name) else {
        return false;
    };
    match verdict_on(rt, alloc, world, &commit) {
        Some(said) => said.as_slice() == want.as_bytes(),
        None => want.is_empty() && commit.signature.is_none(),
    }
}

#[test]
fn gpgv_finds_the_signatures_of_commits_good(rt: HostRuntime) -> Result<(), Fail> {
    let alloc = rt.alloc();
    let world = build(alloc, SCRIPT.as_bytes(), ".")?;
    let first = "f95cd7269964400da5e97384e5f17cb804017df9";
    let by_a =
        "[GNUPG:] GOODSIG 9480FD267E05848C toy\n[GNUPG:] VALIDSIG B4754DB47B6A4BC3DCFFB18A9480FD267E05848C 2020-01-01 1577836800 0 4 0 1 8 00 B4754DB47B6A4BC3DCFFB18A9480FD267E05848C\n";
    let by_b =
        "[GNUPG:] GOODSIG 3B1A683DE8EFD2BB toy\n[GNUPG:] VALIDSIG C2FBAFFF55AD76422EC303C03B1A683DE8EFD2BB 2020-01-01 1577836800 0 4 0 1 2 00 C2FBAFFF55AD76422EC303C03B1A683DE8EFD2BB\n";
    assert!(rt; gpgv_says(&rt, alloc, &world, first, by_a));
    assert!(rt; gpgv_says(&rt, alloc, &world, "master^{commit}", by_b));
    assert!(rt; gpgv_says(&rt, alloc, &world, "HEAD^{commit}", ""));
    Ok(())
}

#[test]
fn gpgv_has_a_row_for_each_signature(rt: HostRuntime) -> Result<(), Fail> {
    let world = build(rt.alloc(), SCRIPT.as_bytes(), ".")?;
    let rows = world.sig_rows(rt.alloc())?;
    assert_eq!(rt; rows.len(), 2);
    Ok(())
}

// Whether gpgv says this of a signature on a payload, under a keyring.
fn says_toy(alloc: Global, keyring: &[u8], signature: &str, payload: &str, want: &str) -> bool {
    match toy_status(alloc, keyring, signature.as_bytes(), payload.as_bytes()) {
        Ok(said) => said.as_slice() == want.as_bytes(),
        Err(_) => false,
    }
}

#[test]
fn a_signature_has_one_of_four_worths(rt: HostRuntime) {
    let alloc = rt.alloc();
    let key_a = b"\x98\x07\x04\0\0\0\0\x01a".as_slice();
    let key_b = b"\x98\x07\x04\0\0\0\0\x01b".as_slice();
    let cut = b"\x98\x07\x04";
    let unknown =
        "[GNUPG:] ERRSIG 9480FD267E05848C 1 8 00 0 9\n[GNUPG:] NO_PUBKEY 9480FD267E05848C\n";
    let good =
        "[GNUPG:] GOODSIG 9480FD267E05848C toy\n[GNUPG:] VALIDSIG B4754DB47B6A4BC3DCFFB18A9480FD267E05848C 2020-01-01 1577836800 0 4 0 1 8 00 B4754DB47B6A4BC3DCFFB18A9480FD267E05848C\n";
    let bad = "[GNUPG:] BADSIG 9480FD267E05848C toy\n";
    let none = "[GNUPG:] NODATA 1\n";
    assert!(rt; says_toy(alloc, key_a, SIGNATURE, PAYLOAD, good));
    assert!(rt; says_toy(alloc, key_a, SIGNATURE, "i", bad));
    assert!(rt; says_toy(alloc, key_b, SIGNATURE, PAYLOAD, unknown));
    assert!(rt; says_toy(alloc, b"", SIGNATURE, PAYLOAD, unknown));
    assert!(rt; says_toy(alloc, cut, SIGNATURE, PAYLOAD, unknown));
    assert!(rt; says_toy(alloc, key_a, PAYLOAD, PAYLOAD, none));
    assert!(rt; says_toy(alloc, key_a, "", PAYLOAD, none));
}

// Whether a text of these parts is no signature.
fn is_none<'x>(
    alloc: Global,
    key: &'x str,
    hash: &'x str,
    rest: &'x str,
) -> Result<bool, AllocError> {
    let mut text = Text::new(alloc);
    for part in ["TOY SIGNATURE\nkey ", key, "\nhash ", hash, "\nsha1 ", rest] {
        text.push(part)?;
    }
    Ok(says_toy(alloc, b"", text.as_str(), "", "[GNUPG:] NODATA 1\n"))
}

#[test]
fn a_signature_is_one_to_the_byte(rt: HostRuntime) -> Result<(), Fail> {
    let lower = "b4754DB47B6A4BC3DCFFB18A9480FD267E05848C";
    let digest = "3a0ca7936b9a303b80e4f28d477d3401ed4b5a1e\n";
    let upper = "3A0ca7936b9a303b80e4f28d477d3401ed4b5a1e\n";
    let open = "3a0ca7936b9a303b80e4f28d477d3401ed4b5a1e";
    let longer = "3a0ca7936b9a303b80e4f28d477d3401ed4b5a1e\n\n";
    // the key, the hash, and what follows
    let cases: &[(&str, &str, &str)] = &[
        (lower, "8", digest),
        (KEY_A, "08", digest),
        (KEY_A, "256", digest),
        (KEY_A, "8", upper),
        (KEY_A, "8", open),
        (KEY_A, "8", longer),
    ];
    for (place, (key, hash, rest)) in cases.iter().enumerate() {
        assert!(rt; is_none(rt.alloc(), key, hash, rest)?, "case {place}");
    }
    Ok(())
}
