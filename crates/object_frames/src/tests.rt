use crate::{Fetched, FrameFail, Id, Kind, fetch, id_of};
use child_ports::{Bytes, GitRow, GitRows, MemGit, Numbers, Text, rows_fit};
use std::alloc::{AllocError, Global};
use std::process::Abort;
use std::test::Fail;

const EMPTY: &str = "e69de29bb2d1d6434b8b29ae775ad8c2e48c5391";

// The same with another last digit.
const OTHER: &str = "e69de29bb2d1d6434b8b29ae775ad8c2e48c5390";

const DOC_ID: &str = "bd9dbf5aae1a3862dd1526723246b20206e5fc37";

const DOC: &str = "bd9dbf5aae1a3862dd1526723246b20206e5fc37 blob 16\nwhat is up, doc?\n";

fn id(digits: &str) -> Result<Id, Fail> {
    Ok(Id::of_hex(digits.as_bytes()).ok_or("no id")?)
}

// The bytes of some parts.
fn joined(alloc: Global, parts: &[&str]) -> Result<Bytes, AllocError> {
    let mut bytes = Bytes::new(alloc);
    for part in parts {
        bytes.extend(part.as_bytes())?;
    }
    Ok(bytes)
}

// Git that has one answer, for one name.
fn git(
    rt: &impl Abort,
    alloc: Global,
    name: &[u8],
    answer: Bytes,
    fails: &[u64],
    pieces: &[u64],
) -> Result<MemGit, AllocError> {
    let fails = Numbers::from_slice(alloc, fails)?;
    let pieces = Numbers::from_slice(alloc, pieces)?;
    let name = Bytes::from_slice(alloc, name)?;
    let dir = Text::new(alloc);
    let mut rows = GitRows::new(alloc);
    rows.push(GitRow { dir, name, answer })?;
    assert!(rt; rows_fit(&rows), "the row fits");
    MemGit::new(alloc, rows, fails, pieces)
}

// Whether an answer to `v1` has this fault, under a limit of 100 bytes.
fn has_fault(
    rt: &impl Abort,
    alloc: Global,
    answer: Bytes,
    want: FrameFail,
) -> Result<bool, AllocError> {
    let mut git = git(rt, alloc, b"v1", answer, &[], &[])?;
    let fault = fetch(alloc, &mut git, "", b"v1", 100).err();
    Ok(fault == Some(want))
}

// The answer of the document with the lowest bit of one byte changed.
fn changed(alloc: Global, at: usize) -> Result<Bytes, AllocError> {
    let mut bytes = Vec::from_slice(alloc, DOC.as_bytes())?;
    if at < bytes.len() {
        bytes[at] ^= 1;
    }
    Ok(Bytes::from_vec(bytes))
}

// Whether git's answer in pieces of a size gives the document.
fn is_found_in_pieces(rt: &impl Abort, alloc: Global, size: u64) -> Result<bool, Fail> {
    let answer = joined(alloc, &[DOC])?;
    let mut git = git(rt, alloc, b"v1", answer, &[], &[size; 80])?;
    Ok(match fetch(alloc, &mut git, "", b"v1", 16)? {
        Fetched::Found(object) => {
            object.id == id(DOC_ID)?
                && object.kind == Kind::Blob
                && object.content.as_slice() == b"what is up, doc?".as_slice()
        }
        Fetched::Missing => false,
    })
}

#[test]
fn a_blob_is_found_in_pieces_of_any_size(rt: HostRuntime) -> Result<(), Fail> {
    for size in [1, 3, 65, 1000] {
        assert!(rt;
            is_found_in_pieces(&rt, rt.alloc(), size)?,
            "in pieces of {size}"
        );
    }
    Ok(())
}

#[test]
fn a_blob_without_content_is_found_under_its_id(rt: HostRuntime) -> Result<(), Fail> {
    let alloc = rt.alloc();
    let answer = joined(alloc, &[EMPTY, " blob 0\n\n"])?;
    let mut git = git(&rt, alloc, EMPTY.as_bytes(), answer, &[], &[])?;
    let fetched = fetch(alloc, &mut git, "", EMPTY.as_bytes(), 0)?;
    assert!(rt; matches!(&fetched, Fetched::Found(_)));
    Ok(())
}

#[test]
fn nothing_and_more_than_one_thing_are_missing(rt: HostRuntime) -> Result<(), Fail> {
    let alloc = rt.alloc();
    for word in [" missing\n", " ambiguous\n"] {
        let mut git = git(&rt, alloc, b"v1", joined(alloc, &["v1", word])?, &[], &[])?;
        let fetched = fetch(alloc, &mut git, "", b"v1", 10)?;
        assert!(rt; matches!(&fetched, Fetched::Missing), "at {word}");
    }
    Ok(())
}

// Whether an answer of these parts has this fault.
fn is_faulty(
    rt: &impl Abort,
    alloc: Global,
    parts: &[&str],
    want: FrameFail,
) -> Result<bool, AllocError> {
    let answer = joined(alloc, parts)?;
    has_fault(rt, alloc, answer, want)
}

// The parts of an answer, and the place of the fault in its header.
static HEADERS: [([&str; 2], u64); 5] = [
    ([EMPTY, " blub 0\n\n"], 43),
    ([EMPTY, " blob 00\n\n"], 47),
    ([EMPTY, " blob 16x\n\n"], 48),
    ([EMPTY, " blob 1234567890123456789\n"], 64),
    (["v1 ", "mixing\n"], 5),
];

#[test]
fn the_first_fault_of_a_header_is_told(rt: HostRuntime) -> Result<(), Fail> {
    for (parts, place) in &HEADERS {
        let want = FrameFail::Header(*place);
        assert!(rt; is_faulty(&rt, rt.alloc(), parts, want)?, "at {place}");
    }
    Ok(())
}

#[test]
fn a_size_that_is_too_large_or_wrong_is_told(rt: HostRuntime) -> Result<(), Fail> {
    let alloc = rt.alloc();
    let too_large = FrameFail::TooLarge(101);
    let truncated = FrameFail::Truncated(50);
    assert!(rt; is_faulty(&rt, alloc, &[EMPTY, " blob 101\n"], too_large)?);
    assert!(rt; is_faulty(&rt, alloc, &[EMPTY, " blob 100\n"], truncated)?);
    assert!(rt; is_faulty(&rt, alloc, &[EMPTY, " blob 0\n!"], FrameFail::NoEnd)?);
    Ok(())
}

#[test]
fn an_object_of_another_id_than_claimed_is_told(rt: HostRuntime) -> Result<(), Fail> {
    let answer = joined(rt.alloc(), &[OTHER, " blob 0\n\n"])?;
    let claimed = id(OTHER)?;
    let computed = id(EMPTY)?;
    let want = FrameFail::WrongId { claimed, computed };
    assert!(rt; has_fault(&rt, rt.alloc(), answer, want)?);
    Ok(())
}

#[test]
fn another_object_is_refused_under_an_id_before_it_is_read(rt: HostRuntime) -> Result<(), Fail> {
    let alloc = rt.alloc();
    let answer = joined(alloc, &[EMPTY, " blob 12\n"])?;
    let mut git = git(&rt, alloc, OTHER.as_bytes(), answer, &[], &[])?;
    let fetched = fetch(alloc, &mut git, "", OTHER.as_bytes(), 10);
    assert_eq!(rt; fetched.err(), Some(FrameFail::OtherId(id(EMPTY)?)));
    Ok(())
}

#[test]
fn a_failed_call_is_told(rt: HostRuntime) -> Result<(), Fail> {
    let alloc = rt.alloc();
    let mut git = git(&rt, alloc, b"v1", joined(alloc, &[DOC])?, &[3], &[1; 80])?;
    let fetched = fetch(alloc, &mut git, "", b"v1", 100);
    assert_eq!(rt; fetched.err(), Some(FrameFail::Failed));
    Ok(())
}

#[test]
fn ids_are_those_of_git(rt: HostRuntime) -> Result<(), Fail> {
    assert_eq!(rt; id_of(Kind::Blob, b""), id(EMPTY)?);
    let doc = id_of(Kind::Blob, b"what is up, doc?");
    assert_eq!(rt; doc, id(DOC_ID)?);
    Ok(())
}

#[test]
fn an_answer_that_is_cut_is_truncated_where_it_ends(rt: HostRuntime) -> Result<(), Fail> {
    let alloc = rt.alloc();
    for n in 0..66usize {
        let answer = Bytes::from_slice(alloc, &DOC.as_bytes()[..n])?;
        let want = FrameFail::Truncated(n as u64);
        assert!(rt; has_fault(&rt, alloc, answer, want)?, "at {n} bytes");
    }
    Ok(())
}

// Whether the answer has this fault after one byte was changed.
fn is_seen(rt: &impl Abort, alloc: Global, at: usize, want: FrameFail) -> Result<bool, AllocError> {
    let answer = changed(alloc, at)?;
    has_fault(rt, alloc, answer, want)
}

#[test]
fn a_changed_byte_of_the_frame_is_seen(rt: HostRuntime) -> Result<(), Fail> {
    let alloc = rt.alloc();
    assert!(rt; is_seen(&rt, alloc, 40, FrameFail::Header(40))?);
    assert!(rt; is_seen(&rt, alloc, 46, FrameFail::Header(47))?);
    assert!(rt; is_seen(&rt, alloc, 47, FrameFail::Truncated(66))?);
    assert!(rt; is_seen(&rt, alloc, 48, FrameFail::Header(48))?);
    assert!(rt; is_seen(&rt, alloc, 65, FrameFail::NoEnd)?);
    Ok(())
}

// Whether a changed byte of the content gives another id than the one that is claimed.
fn is_wrong_id(rt: &impl Abort, alloc: Global, at: usize) -> Result<bool, Fail> {
    let answer = changed(alloc, at)?;
    assert_eq!(rt; answer.len(), 66);
    let computed = id_of(Kind::Blob, &answer.as_slice()[49..65]);
    let claimed = id(DOC_ID)?;
    let want = FrameFail::WrongId { claimed, computed };
    Ok(has_fault(rt, alloc, answer, want)?)
}

#[test]
fn a_changed_byte_of_the_content_changes_the_id(rt: HostRuntime) -> Result<(), Fail> {
    for at in 49..65 {
        assert!(rt; is_wrong_id(&rt, rt.alloc(), at)?, "at byte {at}");
    }
    Ok(())
}
