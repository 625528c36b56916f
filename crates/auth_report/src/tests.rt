//! Every text, as a table.
use crate::{FileFail, file_refusal, refusal, statistics};
use auth_cache::CacheFail;
use auth_engine::{EngineFail, Signer, SignerList, Verdict, Which};
use auth_rules::{Cause, What};
use authorizations::AuthFail;
use child_ports::{Bytes, Fingerprint};
use commit_objects::CommitFail;
use keyring_branch::{FileBad, KeyFail, KeyringFail};
use object_frames::{FrameFail, Id, Kind};
use openpgp_status::Judged;
use sexp_reader::SexpFail;
use std::alloc::{AllocError, Global};
use std::process::Abort;
use std::test::Fail;
use tree_entries::TreeFail;

const ONE: &str = "0101010101010101010101010101010101010101";

fn one() -> Id {
    Id::of_bytes([1; 20])
}

fn two() -> Id {
    Id::of_bytes([2; 20])
}

fn key_a() -> Fingerprint {
    Fingerprint([0xaa; 20])
}

fn key_b() -> Fingerprint {
    Fingerprint([0xbb; 20])
}

// A refusal is shown as this line.
fn check(rt: &impl Abort, alloc: Global, fail: &EngineFail, want: &str) -> Result<(), AllocError> {
    let line = refusal(alloc, fail)?;
    assert_eq!(rt; line.as_slice(), want.as_bytes(), "at {want}");
    Ok(())
}

#[test]
fn what_stops_a_check_is_told(rt: HostRuntime) -> Result<(), Fail> {
    let rows = [
        (
            EngineFail::Name {
                which: Which::Target,
                what: What::Missing,
            },
            "guix-auth: target commit: missing\n",
        ),
        (
            EngineFail::Name {
                which: Which::Introduction,
                what: What::Kind(Kind::Blob),
            },
            "guix-auth: introduction commit: of kind blob\n",
        ),
        (
            EngineFail::Cache(CacheFail::Form(113)),
            "guix-auth: cache: bad form at byte 113\n",
        ),
        (
            EngineFail::Cache(CacheFail::Version(3)),
            "guix-auth: cache: version 3 is not supported\n",
        ),
        (
            EngineFail::TooMany,
            "guix-auth: more than 1000000 commits\n",
        ),
        (
            EngineFail::Cycle(one()),
            "guix-auth: the history of commit 0101010101010101010101010101010101010101 is cyclic\n",
        ),
        (
            EngineFail::Intro {
                id: one(),
                cause: Cause::Unsigned,
            },
            "guix-auth: introduction 0101010101010101010101010101010101010101 is refused: it is not signed\n",
        ),
        (
            EngineFail::Unrelated {
                target: one(),
                intro: two(),
            },
            "guix-auth: commit 0101010101010101010101010101010101010101 is not related to introduction 0202020202020202020202020202020202020202\n",
        ),
        (EngineFail::GitFault, "guix-auth: git failed\n"),
        (EngineFail::SigFault, "guix-auth: gpgv failed\n"),
        (EngineFail::KeepFault, "guix-auth: the store failed\n"),
        (EngineFail::Memory, "guix-auth: out of memory\n"),
    ];
    for (fail, want) in rows {
        check(&rt, rt.alloc(), &fail, want)?;
    }
    Ok(())
}

#[test]
fn an_object_that_cannot_be_had_is_told(rt: HostRuntime) -> Result<(), Fail> {
    let alloc = rt.alloc();
    let rows = [
        (What::Missing, "missing"),
        (
            What::Frame(FrameFail::Header(43)),
            "bad answer header at byte 43",
        ),
        (
            What::Frame(FrameFail::Truncated(49)),
            "answer ends at byte 49",
        ),
        (
            What::Frame(FrameFail::OtherId(two())),
            "answered as 0202020202020202020202020202020202020202",
        ),
        (What::Frame(FrameFail::TooLarge(16)), "too large: 16 bytes"),
        (What::Frame(FrameFail::NoEnd), "answer has no final newline"),
        (
            What::Frame(FrameFail::WrongId {
                claimed: one(),
                computed: two(),
            }),
            "claims id 0101010101010101010101010101010101010101 but has id 0202020202020202020202020202020202020202",
        ),
        (What::Kind(Kind::Commit), "of kind commit"),
        (What::Kind(Kind::Tree), "of kind tree"),
        (What::Kind(Kind::Blob), "of kind blob"),
        (What::Kind(Kind::Tag), "of kind tag"),
        (
            What::Commit(CommitFail::Line(115)),
            "bad commit line at byte 115",
        ),
        (What::Commit(CommitFail::NoTree), "no tree line"),
        (What::Commit(CommitFail::NoAuthor), "no author line"),
        (What::Commit(CommitFail::NoCommitter), "no committer line"),
        (What::Commit(CommitFail::TwoSignatures), "two signatures"),
        (
            What::Commit(CommitFail::ForeignSignature),
            "signature of the other object format",
        ),
        (What::Commit(CommitFail::NoBody), "no end of headers"),
        (What::Tree(TreeFail::Mode(0)), "bad mode at byte 0"),
        (What::Tree(TreeFail::Name(48)), "bad name at byte 48"),
        (What::Tree(TreeFail::Cut(0)), "entry cut short at byte 0"),
        (What::Tree(TreeFail::Twice(48)), "name repeated at byte 48"),
    ];
    for (what, text) in rows {
        let want = format!(in alloc; "guix-auth: object {ONE}: {text}\n")?;
        let fail = EngineFail::Object { id: one(), what };
        check(&rt, alloc, &fail, want.as_str())?;
    }
    Ok(())
}

#[test]
fn a_refused_commit_is_told_with_its_cause(rt: HostRuntime) -> Result<(), Fail> {
    let alloc = rt.alloc();
    let rows = [
        (
            Cause::Unreadable {
                id: two(),
                what: What::Missing,
            },
            "object 0202020202020202020202020202020202020202: missing",
        ),
        (Cause::Unsigned, "it is not signed"),
        (Cause::Signature(Judged::Bad), "its signature is bad"),
        (
            Cause::Signature(Judged::NoKey),
            "its signing key is not at hand",
        ),
        (
            Cause::Signature(Judged::NoData),
            "its signature holds no data",
        ),
        (
            Cause::Signature(Judged::Several),
            "it has several valid signatures",
        ),
        (
            Cause::Signature(Judged::Nothing),
            "the verifier gave no verdict",
        ),
        (
            Cause::Signature(Judged::Unreadable(1)),
            "verifier line 1 is unreadable",
        ),
        (Cause::WeakHash(1), "its signature uses MD5"),
        (Cause::WeakHash(2), "its signature uses SHA-1"),
        (
            Cause::KeyNotInKeyring(key_a()),
            "its signer AAAAAAAAAAAAAAAAAAAAAAAAAAAAAAAAAAAAAAAA is not in the keyring",
        ),
        (Cause::RemovesFile, "it removes .guix-authorizations"),
        (
            Cause::ParentRemovedFile(two()),
            "its parent 0202020202020202020202020202020202020202 removes .guix-authorizations",
        ),
        (
            Cause::ParentFile {
                parent: two(),
                fail: AuthFail::Shape,
            },
            ".guix-authorizations of its parent 0202020202020202020202020202020202020202: not an authorizations form",
        ),
        (
            Cause::NotAuthorised(key_a()),
            "its signer AAAAAAAAAAAAAAAAAAAAAAAAAAAAAAAAAAAAAAAA is not authorised by every parent",
        ),
        (
            Cause::WrongSigner {
                found: key_a(),
                wanted: key_b(),
            },
            "it is signed by AAAAAAAAAAAAAAAAAAAAAAAAAAAAAAAAAAAAAAAA and not by BBBBBBBBBBBBBBBBBBBBBBBBBBBBBBBBBBBBBBBB",
        ),
    ];
    for (cause, text) in rows {
        let want = format!(in alloc; "guix-auth: commit {ONE} is refused: {text}\n")?;
        let fail = EngineFail::Commit { id: one(), cause };
        check(&rt, alloc, &fail, want.as_str())?;
    }
    Ok(())
}

#[test]
fn a_keyring_that_cannot_be_had_is_told(rt: HostRuntime) -> Result<(), Fail> {
    let rows = [
        (
            KeyringFail::NoBranch,
            "guix-auth: keyring branch: missing\n",
        ),
        (
            KeyringFail::Frame(FrameFail::NoEnd),
            "guix-auth: keyring branch: answer has no final newline\n",
        ),
        (
            KeyringFail::Kind(Kind::Tag),
            "guix-auth: keyring branch: of kind tag\n",
        ),
        (
            KeyringFail::Tree(TreeFail::Cut(7)),
            "guix-auth: keyring branch: entry cut short at byte 7\n",
        ),
        (
            KeyringFail::TooLarge,
            "guix-auth: keyring is longer than 67108864 bytes\n",
        ),
    ];
    for (fail, want) in rows {
        check(&rt, rt.alloc(), &EngineFail::Keyring(fail), want)?;
    }
    Ok(())
}

#[test]
fn a_key_file_that_gives_no_keys_is_told(rt: HostRuntime) -> Result<(), Fail> {
    let alloc = rt.alloc();
    let rows = [
        (FileBad::Missing, "missing"),
        (
            FileBad::Frame(FrameFail::TooLarge(4194305)),
            "too large: 4194305 bytes",
        ),
        (FileBad::Kind(Kind::Tree), "of kind tree"),
        (
            FileBad::Key(KeyFail::Armor(3)),
            "bad armour block at line 3",
        ),
        (FileBad::Key(KeyFail::Packet(9)), "bad packet at byte 9"),
        (
            FileBad::Key(KeyFail::Length(0)),
            "bad packet length at byte 0",
        ),
        (FileBad::Key(KeyFail::NoKey), "no key of version 4"),
    ];
    for (bad, text) in rows {
        // bytes below 32 and 127 are shown as question marks
        let want = format!(in alloc; "guix-auth: keyring file a??é.key: {text}\n")?;
        let name = Bytes::from_slice(alloc, "a\u{1f}\u{7f}é.key".as_bytes())?;
        let fail = EngineFail::Keyring(KeyringFail::File { name, bad });
        check(&rt, alloc, &fail, want.as_str())?;
    }
    Ok(())
}

#[test]
fn a_file_of_the_words_that_gives_no_keys_is_told(rt: HostRuntime) -> Result<(), Fail> {
    let alloc = rt.alloc();
    let rows = [
        (FileFail::Missing, " is missing"),
        (FileFail::TooLong, " is longer than 1048576 bytes"),
        (FileFail::Failed, " cannot be read"),
        (
            FileFail::Malformed(AuthFail::Shape),
            ": not an authorizations form",
        ),
        (
            FileFail::Malformed(AuthFail::Version(1)),
            ": authorizations version 1 is not supported",
        ),
        (
            FileFail::Malformed(AuthFail::Fingerprint(0)),
            ": entry 0 has no valid fingerprint",
        ),
        (
            FileFail::Malformed(AuthFail::Sexp(SexpFail::NotUtf8(3))),
            ": not UTF-8 at byte 3",
        ),
        (
            FileFail::Malformed(AuthFail::Sexp(SexpFail::Escape(2))),
            ": unknown escape at byte 2",
        ),
        (
            FileFail::Malformed(AuthFail::Sexp(SexpFail::Open(2))),
            ": unfinished at byte 2",
        ),
        (
            FileFail::Malformed(AuthFail::Sexp(SexpFail::Close(0))),
            ": unmatched bracket at byte 0",
        ),
        (
            FileFail::Malformed(AuthFail::Sexp(SexpFail::Number(9))),
            ": number too large at byte 9",
        ),
        (
            FileFail::Malformed(AuthFail::Sexp(SexpFail::Hash(0))),
            ": unsupported character at byte 0",
        ),
        (
            FileFail::Malformed(AuthFail::Sexp(SexpFail::Deep(128))),
            ": nested too deeply at byte 128",
        ),
    ];
    for (fail, text) in rows {
        let want = format!(in alloc; "guix-auth: file h?{text}\n")?;
        let line = file_refusal(alloc, "h\n", &fail)?;
        assert_eq!(rt; line.as_slice(), want.as_bytes(), "at {text}");
    }
    Ok(())
}

#[test]
fn statistics_have_a_line_for_each_signer(rt: HostRuntime) -> Result<(), Fail> {
    let alloc = rt.alloc();
    let mut signers = SignerList::new(alloc);
    signers.push(Signer {
        key: key_b(),
        commits: 12,
    })?;
    signers.push(Signer {
        key: key_a(),
        commits: 1,
    })?;
    let verdict = Verdict {
        target: one(),
        older: false,
        judged: 13,
        signers,
        store: None,
    };
    let text = statistics(alloc, &verdict)?;
    assert_eq!(rt;
        text.as_slice(),
        b"BBBBBBBBBBBBBBBBBBBBBBBBBBBBBBBBBBBBBBBB 12\nAAAAAAAAAAAAAAAAAAAAAAAAAAAAAAAAAAAAAAAA 1\n".as_slice()
    );
    Ok(())
}
