//! Worked trees, to the byte.
use crate::{TreeFail, files_ending, find};
use object_frames::Id;
use std::alloc::Global;
use std::test::Fail;

const NAME: &[u8] = b".guix-authorizations";

// An entry of 48 bytes: the empty blob's id under that name.
const FILE: &[u8] =
    b"100644 .guix-authorizations\0\xe6\x9d\xe2\x9b\xb2\xd1\xd6\x43\x4b\x8b\x29\xae\x77\x5a\xd8\xc2\xe4\x8c\x53\x91";

// The same name as a directory's, and two keys.
const FOLDER: &[u8] =
    b"40000 .guix-authorizations\0\xe6\x9d\xe2\x9b\xb2\xd1\xd6\x43\x4b\x8b\x29\xae\x77\x5a\xd8\xc2\xe4\x8c\x53\x91";

const KEYS: &[u8] =
    b"100644 b.key\0aaaaaaaaaaaaaaaaaaaa100755 a.key\0bbbbbbbbbbbbbbbbbbbb120000 c.key\0cccccccccccccccccccc";

// What `find` says of one content after another.
fn find_in(alloc: Global, front: &[u8], back: &[u8]) -> Result<Option<bool>, TreeFail> {
    let mut content = Vec::from_slice(alloc, front)?;
    content.extend_from_slice(back)?;
    let found = find(alloc, content.as_slice(), NAME)?;
    Ok(found.map(|entry| entry.mode.is_file()))
}

#[test]
fn finds_the_entry_of_a_name(rt: HostRuntime) -> Result<(), Fail> {
    assert_eq!(rt; FILE.len(), 48);
    let entry = find(rt.alloc(), FILE, NAME)?.ok_or("entry")?;
    assert_eq!(rt;
        (entry.mode.is_file(), entry.mode.number()),
        (true, 0o100644)
    );
    assert_eq!(rt; entry.name.as_slice(), NAME);
    assert_eq!(rt;
        entry.id,
        Id::of_hex(b"e69de29bb2d1d6434b8b29ae775ad8c2e48c5391").ok_or("digits")?
    );
    // whether it is a file, in one content after another
    for (front, back, want) in [
        (b"".as_slice(), b"".as_slice(), None),
        (FOLDER, b"", Some(false)),
        (KEYS, FILE, Some(true)),
        (KEYS, KEYS, None),
    ] {
        assert_eq!(rt; find_in(rt.alloc(), front, back)?, want);
    }
    Ok(())
}

#[test]
fn names_the_first_entry_at_fault(rt: HostRuntime) {
    for (front, back, want) in [
        (&FILE[..47], b"".as_slice(), TreeFail::Cut(0)),
        (FILE, FILE, TreeFail::Twice(48)),
        (FILE, FOLDER, TreeFail::Twice(48)),
        (FILE, b"1006", TreeFail::Cut(48)),
        (FILE, b"100644", TreeFail::Cut(48)),
        (FILE, b"100644 a\0", TreeFail::Cut(48)),
        (b"0100644 a\0", b"", TreeFail::Mode(0)),
        (b"1006441 a\0", b"", TreeFail::Mode(0)),
        (b"1006 a\0", b"", TreeFail::Mode(0)),
        (b"100648", b"", TreeFail::Mode(0)),
        (b"0", b"", TreeFail::Mode(0)),
        (b"100644 a/b", b"", TreeFail::Name(0)),
        (b"100644 \0", KEYS, TreeFail::Name(0)),
        (KEYS, b"100644 /", TreeFail::Name(99)),
    ] {
        assert_eq!(rt; find_in(rt.alloc(), front, back).err(), Some(want));
    }
}

#[test]
fn gives_the_files_whose_names_end_so(rt: HostRuntime) -> Result<(), Fail> {
    assert_eq!(rt; files_ending(rt.alloc(), FILE, b".key")?.len(), 0);
    let files = files_ending(rt.alloc(), KEYS, b".key")?;
    assert_eq!(rt; files.len(), 2);
    let first = files.get(0).ok_or("first")?;
    assert_eq!(rt; first.name.as_slice(), b"b.key".as_slice());
    let second = files.get(1).ok_or("second")?;
    assert_eq!(rt;
        (second.name.as_slice(), second.mode.number()),
        (b"a.key".as_slice(), 0o100755)
    );
    // a directory that has the name of a file before it, and the other way round
    for (content, want) in [
        (
            b"100644 a.key\0aaaaaaaaaaaaaaaaaaaa40000 a.key\0aaaaaaaaaaaaaaaaaaaa".as_slice(),
            Err(TreeFail::Twice(33)),
        ),
        (
            b"40000 a.key\0aaaaaaaaaaaaaaaaaaaa100644 a.key\0aaaaaaaaaaaaaaaaaaaa",
            Ok(1),
        ),
    ] {
        assert_eq!(rt;
            files_ending(rt.alloc(), content, b".key").map(|files| files.len()),
            want
        );
    }
    Ok(())
}
