//! Worked commits, to the byte.
use crate::{Commit, CommitFail, read_commit, write_commit};
use child_ports::Bytes;
use object_frames::Id;
use std::alloc::Global;
use std::test::Fail;

const DIGITS: &[u8] = b"4b825dc642cb6eb9a060e54bf8d69288fbee4904";

// A commit of 130 bytes, whose header `gpgsig` begins at byte 115 and whose empty line stands at byte 127.
const SIGNED: &[u8] =
    b"tree 4b825dc642cb6eb9a060e54bf8d69288fbee4904\nauthor A <a@example.org> 0 +0000\ncommitter A <a@example.org> 0 +0000\ngpgsig x\n y\n\nm\n";

// The same without the 12 bytes of that header.
const PAYLOAD: &[u8] =
    b"tree 4b825dc642cb6eb9a060e54bf8d69288fbee4904\nauthor A <a@example.org> 0 +0000\ncommitter A <a@example.org> 0 +0000\n\nm\n";

// A commit whose lines from the parents on are these.
fn read_with(alloc: Global, lines: &[u8]) -> Result<Commit, CommitFail> {
    let mut content = Vec::from_slice(alloc, b"tree ".as_slice())?;
    content.extend_from_slice(DIGITS)?;
    content.extend_from_slice(b"\n".as_slice())?;
    content.extend_from_slice(lines)?;
    read_commit(alloc, content.as_slice())
}

#[test]
fn reads_a_signed_commit(rt: HostRuntime) -> Result<(), Fail> {
    assert_eq!(rt; (SIGNED.len(), PAYLOAD.len()), (130, 118));
    let commit = read_commit(rt.alloc(), SIGNED)?;
    assert_eq!(rt; commit.tree, Id::of_hex(DIGITS).ok_or("digits")?);
    assert_eq!(rt; commit.parents.len(), 0);
    let signature = commit.signature.ok_or("signature")?;
    assert_eq!(rt; signature.as_slice(), b"x\ny\n".as_slice());
    assert_eq!(rt; commit.payload.as_slice(), PAYLOAD);
    Ok(())
}

#[test]
fn reads_parents_only_in_their_place(rt: HostRuntime) -> Result<(), Fail> {
    // the lines behind the tree's, the number of parents, and whether there is a signature
    for (lines, parents, signed) in [
        (b"author a\ncommitter c\n\n".as_slice(), 0, false),
        (
            b"parent 4b825dc642cb6eb9a060e54bf8d69288fbee4904\nparent 9edb3f66fd807b096b48283debdcddccfea34bad\nauthor a\ncommitter c\n\nparent",
            2,
            false,
        ),
        (
            b"author a\ncommitter c\nparent 4b825dc642cb6eb9a060e54bf8d69288fbee4904\n gpgsig y\ngpgsig x\n\n",
            0,
            true,
        ),
        (b"author a\ncommitter c\n\ngpgsig x\n\n", 0, false),
    ] {
        let commit = read_with(rt.alloc(), lines)?;
        assert_eq!(rt; commit.parents.len(), parents);
        assert_eq!(rt; commit.signature.is_some(), signed);
    }
    Ok(())
}

#[test]
fn names_the_first_place_that_does_not_fit(rt: HostRuntime) {
    for (lines, want) in [
        (b"".as_slice(), CommitFail::NoAuthor),
        // of 39 digits, of upper-case digits, without end, and among a parent's digits
        (
            b"parent 4b825dc642cb6eb9a060e54bf8d69288fbee490\nauthor a\n",
            CommitFail::Line(46),
        ),
        (
            b"parent 4B825DC642CB6EB9A060E54BF8D69288FBEE4904\nauthor a\n",
            CommitFail::Line(46),
        ),
        (
            b"parent 4b825dc642cb6eb9a060e54bf8d69288fbee4904",
            CommitFail::Line(46),
        ),
        (
            b"parent 4b825dc642cb6eb9a060e54bf8d69288fbee4904\nparent ",
            CommitFail::Line(94),
        ),
        (b"author a", CommitFail::NoAuthor),
        (b"author\n", CommitFail::NoAuthor),
        (b"author a\ncommitter c", CommitFail::NoCommitter),
        (
            b"author a\nparent x\ncommitter c\n\n",
            CommitFail::NoCommitter,
        ),
        (
            b"author a\ncommitter c\n z\ngpgsig x\n\n",
            CommitFail::Line(67),
        ),
        (b"author a\ncommitter c\n ", CommitFail::Line(67)),
        (
            b"author a\ncommitter c\ngpgsig x\ngpgsig y\n\n",
            CommitFail::TwoSignatures,
        ),
        (
            b"author a\ncommitter c\ngpgsig x\ngpgsig y",
            CommitFail::TwoSignatures,
        ),
        (
            b"author a\ncommitter c\ngpgsig-sha256 x\n\n",
            CommitFail::ForeignSignature,
        ),
        (
            b"author a\ncommitter c\ngpgsig x\ngpgsig-sha256 ",
            CommitFail::ForeignSignature,
        ),
        (
            b"author a\ncommitter c\ngpgsig x\n gpgsig y",
            CommitFail::NoBody,
        ),
        (b"author a\ncommitter c\n", CommitFail::NoBody),
    ] {
        assert_eq!(rt; read_with(rt.alloc(), lines).err(), Some(want));
    }
}

#[test]
fn names_faults_of_the_signed_commit(rt: HostRuntime) {
    let spaced =
        b"tree 4b825dc642cb6eb9a060e54bf8d69288fbee4904\nauthor A <a@example.org> 0 +0000\ncommitter A <a@example.org> 0 +0000\n z\ngpgsig x\n y\n\nm\n";
    for (content, want) in [
        (spaced.as_slice(), CommitFail::Line(115)),
        (&SIGNED[..127], CommitFail::NoBody),
        (&SIGNED[..45], CommitFail::NoTree),
        (&SIGNED[1..], CommitFail::NoTree),
        (b"", CommitFail::NoTree),
    ] {
        assert_eq!(rt; read_commit(rt.alloc(), content).err(), Some(want));
    }
}

// The signed commit, where the payload reads as a commit without a signature and the signature ends with a line feed.
fn sign(alloc: Global, payload: &[u8], signature: &[u8]) -> Result<Option<Bytes>, CommitFail> {
    let commit = read_commit(alloc, payload)?;
    if commit.signature.is_some() || !signature.ends_with(b"\n") {
        return Ok(None);
    }
    Ok(Some(write_commit(alloc, payload, signature)?))
}

#[test]
fn writes_the_signed_commit(rt: HostRuntime) -> Result<(), Fail> {
    let content = sign(rt.alloc(), PAYLOAD, b"x\ny\n")?.ok_or("signed")?;
    assert_eq!(rt; content.as_slice(), SIGNED);
    assert_eq!(rt; sign(rt.alloc(), SIGNED, b"x\n")?.is_none(), true);
    Ok(())
}
