//! Keyrings of branches, over git in memory.
use crate::{FileBad, KeyFail, Keyring, KeyringFail, read_keyring};
use child_ports::{Bytes, GitRow, GitRows, MemGit, Names, Numbers, Text, is_name, rows_fit};
use object_frames::{FrameFail, Id, Kind, id_of};
use std::alloc::{AllocError, Global};
use std::process::Abort;
use std::test::Fail;
use tree_entries::TreeFail;

const KEY_A: &[u8] = b"\x98\x07\x04\0\0\0\0\x01a";

const KEY_B: &[u8] = b"\x98\x07\x04\0\0\0\0\x01b";

const KEYS_AB: &[u8] = b"\x98\x07\x04\0\0\0\0\x01a\x98\x07\x04\0\0\0\0\x01b";

const KEYS_BA: &[u8] = b"\x98\x07\x04\0\0\0\0\x01b\x98\x07\x04\0\0\0\0\x01a";

// The bytes of some parts.
fn joined(alloc: Global, parts: &[&[u8]]) -> Result<Bytes, AllocError> {
    let mut bytes = Bytes::new(alloc);
    for part in parts {
        bytes.extend(part)?;
    }
    Ok(bytes)
}

fn put_row(
    alloc: Global,
    rows: &mut GitRows,
    name: &[u8],
    answer: Bytes,
) -> Result<(), AllocError> {
    let name = Bytes::from_slice(alloc, name)?;
    rows.push(GitRow {
        dir: Text::new(alloc),
        name,
        answer,
    })
}

// The answer of git with an object.
fn frame(alloc: Global, kind: Kind, content: &[u8]) -> Result<Bytes, AllocError> {
    let mut digits = [0u8; 40];
    id_of(kind, content).write_hex(&mut digits);
    let size = format!(in alloc; " {}\n", content.len())?;
    let mut answer = joined(alloc, &[&digits, b" ", kind.word(), size.as_bytes()])?;
    answer.extend(content)?;
    answer.extend(b"\n")?;
    Ok(answer)
}

// Has git answer to an object's id.
fn put_object(
    alloc: Global,
    rows: &mut GitRows,
    kind: Kind,
    content: &[u8],
) -> Result<Id, AllocError> {
    let id = id_of(kind, content);
    let mut digits = [0u8; 40];
    id.write_hex(&mut digits);
    put_row(alloc, rows, &digits, frame(alloc, kind, content)?)?;
    Ok(id)
}

// A tree of files.
fn tree_of(alloc: Global, files: &[(&str, Id)]) -> Result<Bytes, AllocError> {
    let mut tree = Bytes::new(alloc);
    for (name, id) in files {
        let id = id.bytes();
        let entry = joined(alloc, &[b"100644 ", name.as_bytes(), b"\0", id.as_slice()])?;
        tree.extend(entry.as_slice())?;
    }
    Ok(tree)
}

// Has git answer to `keyring` with a tree of files.
fn put_branch(alloc: Global, rows: &mut GitRows, files: &[(&str, Id)]) -> Result<(), AllocError> {
    let tree = tree_of(alloc, files)?;
    let answer = frame(alloc, Kind::Tree, tree.as_slice())?;
    put_row(alloc, rows, b"keyring", answer)
}

// Git with these rows, where the calls of these numbers fail.
fn git(rt: &impl Abort, alloc: Global, rows: GitRows, fails: &[u64]) -> Result<MemGit, AllocError> {
    assert!(rt; rows_fit(&rows), "the rows fit");
    let fails = Numbers::from_slice(alloc, fails)?;
    MemGit::new(alloc, rows, fails, Numbers::new(alloc))
}

// The keyring of two names.
fn read(
    rt: &impl Abort,
    alloc: Global,
    git: &mut MemGit,
    [first, second]: [&str; 2],
) -> Result<Keyring, KeyringFail> {
    assert!(rt; is_name(first.as_bytes()) && is_name(second.as_bytes()));
    let mut names = Names::new(alloc);
    names.push(Bytes::from_slice(alloc, first.as_bytes())?)?;
    names.push(Bytes::from_slice(alloc, second.as_bytes())?)?;
    read_keyring(alloc, git, "", &names)
}

// Git with a keyring of these two files, and a file that is no key file between them.
fn two_files<'x>(
    rt: &impl Abort,
    alloc: Global,
    (first, key): (&'x str, &'x [u8]),
    (second, other): (&'x str, &'x [u8]),
) -> Result<MemGit, AllocError> {
    let mut rows = GitRows::new(alloc);
    let key = put_object(alloc, &mut rows, Kind::Blob, key)?;
    let other = put_object(alloc, &mut rows, Kind::Blob, other)?;
    let none = id_of(Kind::Blob, b"no key file");
    let files = [(first, key), ("key", none), (second, other)];
    put_branch(alloc, &mut rows, &files)?;
    git(rt, alloc, rows, &[])
}

// Whether the keyring has these bytes, and so many keys.
fn holds(read: &Result<Keyring, KeyringFail>, bytes: &[u8], count: usize) -> bool {
    match read {
        Ok(keyring) => keyring.bytes.as_slice() == bytes && keyring.keys.len() == count,
        Err(_) => false,
    }
}

#[test]
fn key_files_are_joined_in_the_trees_order(rt: HostRuntime) -> Result<(), Fail> {
    let alloc = rt.alloc();
    // two files, what they hold together, and how many keys
    for (first, second, want, count) in [
        (("a.key", KEY_A), ("b.key", KEY_B), KEYS_AB, 2),
        (("b.key", KEY_B), ("a.key", KEY_A), KEYS_BA, 2),
        (("a.key", KEY_A), ("a.KEY", KEY_B), KEY_A, 1),
    ] {
        let mut git = two_files(&rt, alloc, first, second)?;
        let keyring = read(&rt, alloc, &mut git, ["keyring", "other"]);
        assert!(rt; holds(&keyring, want, count), "at {want:?}");
    }
    Ok(())
}

// Git with a keyring of no file.
fn no_files(rt: &impl Abort, alloc: Global) -> Result<MemGit, AllocError> {
    let mut rows = GitRows::new(alloc);
    put_branch(alloc, &mut rows, &[])?;
    git(rt, alloc, rows, &[])
}

// Whether the keyring is that of the empty tree.
fn is_empty(read: &Result<Keyring, KeyringFail>) -> bool {
    let tree = Id::of_hex(b"4b825dc642cb6eb9a060e54bf8d69288fbee4904");
    holds(read, b"", 0) && matches!(read, Ok(keyring) if Some(keyring.tree) == tree)
}

#[test]
fn the_first_name_that_is_not_missing_counts(rt: HostRuntime) -> Result<(), Fail> {
    let alloc = rt.alloc();
    for names in [["keyring", "other"], ["missing", "keyring"]] {
        let mut git = no_files(&rt, alloc)?;
        assert!(rt;
            is_empty(&read(&rt, alloc, &mut git, names)),
            "at {names:?}"
        );
    }
    let mut git = no_files(&rt, alloc)?;
    let keyring = read(&rt, alloc, &mut git, ["missing", "other"]);
    assert!(rt; matches!(keyring, Err(KeyringFail::NoBranch)));
    Ok(())
}

// Which refusal of a root tree it is.
fn refusal(read: &Result<Keyring, KeyringFail>) -> &'static str {
    match read {
        Err(KeyringFail::Kind(Kind::Blob)) => "a blob",
        Err(KeyringFail::Tree(TreeFail::Cut(0))) => "its first entry is cut",
        Err(KeyringFail::Frame(FrameFail::Header(0))) => "no header",
        _ => "another",
    }
}

// The refusal of a root tree that git answers so.
fn refused(rt: &impl Abort, alloc: Global, answer: Bytes) -> Result<&'static str, AllocError> {
    let mut rows = GitRows::new(alloc);
    put_row(alloc, &mut rows, b"keyring", answer)?;
    put_branch(alloc, &mut rows, &[])?;
    let mut git = git(rt, alloc, rows, &[])?;
    Ok(refusal(&read(rt, alloc, &mut git, ["keyring", "other"])))
}

#[test]
fn a_branch_that_is_no_tree_is_told(rt: HostRuntime) -> Result<(), Fail> {
    let alloc = rt.alloc();
    let blob = frame(alloc, Kind::Blob, b"")?;
    assert_eq!(rt; refused(&rt, alloc, blob)?, "a blob");
    let cut = frame(alloc, Kind::Tree, b"100644 a.key")?;
    assert_eq!(rt; refused(&rt, alloc, cut)?, "its first entry is cut");
    let none = Bytes::from_slice(alloc, b"?")?;
    assert_eq!(rt; refused(&rt, alloc, none)?, "no header");
    Ok(())
}

// Which fault of the file `b.key` it is.
fn file_fault(read: &Result<Keyring, KeyringFail>) -> &'static str {
    let Err(KeyringFail::File { name, bad }) = read else {
        return "none";
    };
    if name.as_slice() != b"b.key".as_slice() {
        return "of another file";
    }
    match bad {
        FileBad::Missing => "missing",
        FileBad::Kind(Kind::Commit) => "a commit",
        FileBad::Key(KeyFail::NoKey) => "no key",
        FileBad::Key(KeyFail::Length(0)) => "no length",
        _ => "another",
    }
}

// Git with a good key file, this object as another, which may not be there, and a third that is none.
fn three_files(
    rt: &impl Abort,
    alloc: Global,
    kind: Kind,
    content: &[u8],
    there: bool,
) -> Result<MemGit, AllocError> {
    let mut rows = GitRows::new(alloc);
    let good = put_object(alloc, &mut rows, Kind::Blob, KEY_A)?;
    if there {
        put_object(alloc, &mut rows, kind, content)?;
    }
    let bad = id_of(kind, content);
    let none = id_of(Kind::Blob, b"");
    let files = [("a.key", good), ("b.key", bad), ("c.key", none)];
    put_branch(alloc, &mut rows, &files)?;
    git(rt, alloc, rows, &[])
}

#[test]
fn the_first_key_file_at_fault_is_told(rt: HostRuntime) -> Result<(), Fail> {
    let alloc = rt.alloc();
    // an object, whether git has it, and the fault
    for (kind, content, there, want) in [
        (Kind::Blob, b"x".as_slice(), true, "no key"),
        (Kind::Blob, b"\x98", true, "no length"),
        (Kind::Commit, KEY_B, true, "a commit"),
        (Kind::Blob, KEY_B, false, "missing"),
    ] {
        let mut git = three_files(&rt, alloc, kind, content, there)?;
        let keyring = read(&rt, alloc, &mut git, ["keyring", "other"]);
        assert_eq!(rt; file_fault(&keyring), want);
    }
    Ok(())
}

// Git with a keyring of one file, which fails at this call.
fn one_file(rt: &impl Abort, alloc: Global, call: u64) -> Result<MemGit, AllocError> {
    let mut rows = GitRows::new(alloc);
    let id = put_object(alloc, &mut rows, Kind::Blob, KEY_A)?;
    put_branch(alloc, &mut rows, &[("a.key", id)])?;
    git(rt, alloc, rows, &[call])
}

#[test]
fn a_failed_call_is_told(rt: HostRuntime) -> Result<(), Fail> {
    let alloc = rt.alloc();
    for call in [1, 2, 20] {
        let mut git = one_file(&rt, alloc, call)?;
        let keyring = read(&rt, alloc, &mut git, ["missing", "keyring"]);
        assert!(rt; matches!(keyring, Err(KeyringFail::GitFault)), "at {call}");
    }
    Ok(())
}
