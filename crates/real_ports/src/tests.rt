//! Calls on the real outside: files in the folder of the run, and a program that ends at once.
use crate::{ChildGit, ChildSig, RealRoom, StdSink};
use child_ports::{Failed, FileRoom, GitPort, PortFail, SigPort, Sink};
use std::alloc::Global;
use std::io::{Write, writer};
use std::rt::Files;
use std::test::Fail;
use std::{fs, io};

fn put_file(rt: &impl Files, path: &str, bytes: &[u8]) -> io::Result<()> {
    let mut file = fs::create(rt, path)?;
    file.write_all(bytes)
}

// Whether the file at a path holds these bytes.
fn holds(room: &mut impl FileRoom, alloc: Global, path: &str, want: &[u8]) -> bool {
    match room.read(alloc, path) {
        Ok(Some(bytes)) => bytes.as_slice() == want,
        _ => false,
    }
}

#[test]
fn files_give_their_bytes_or_none(rt: HostRuntime) -> Result<(), Fail> {
    put_file(&rt, "keys", b"(authorizations (version 0) ())")?;
    let mut room = RealRoom::new(rt);
    assert!(rt;
        holds(
            &mut room,
            rt.alloc(),
            "keys",
            b"(authorizations (version 0) ())"
        )
    );
    assert!(rt; matches!(room.read(rt.alloc(), "no-keys"), Ok(None)));
    Ok(())
}

// Whether git's child fails at its first question, or at the read of its answer.
fn fails(git: &mut impl GitPort) -> bool {
    let mut byte = [0u8];
    git.ask(".", b"HEAD") == Err(Failed) || git.read(&mut byte) == Err(Failed)
}

#[test]
fn a_program_that_ends_at_once_fails_as_git(rt: HostRuntime) -> Result<(), Fail> {
    let mut git = ChildGit::new(rt, "/bin/false")?;
    assert!(rt; fails(&mut git));
    Ok(())
}

#[test]
fn a_program_that_ends_at_once_gives_no_verdict(rt: HostRuntime) -> Result<(), Fail> {
    let mut gpgv = ChildSig::new(rt, "/bin/false", "root")?;
    assert!(rt; gpgv.load(b"keys") == Ok(()));
    let Ok(verdict) = gpgv.verify(rt.alloc(), b"signature", b"payload") else {
        panic!(&rt; "gpgv wasn't asked");
    };
    assert!(rt; verdict.len() == 0);
    Ok(())
}

#[test]
fn a_shorter_keyring_leaves_nothing_of_a_longer_one(rt: HostRuntime) -> Result<(), Fail> {
    let mut gpgv = ChildSig::new(rt, "/bin/false", "root")?;
    let mut room = RealRoom::new(rt);
    for keyring in ["a long keyring".as_bytes(), "a short one".as_bytes()] {
        assert!(rt; gpgv.load(keyring) == Ok(()));
        assert!(rt; holds(&mut room, rt.alloc(), "root/work/keyring", keyring));
    }
    Ok(())
}

#[test]
fn before_a_keyring_is_loaded_a_question_fails(rt: HostRuntime) -> Result<(), Fail> {
    let mut gpgv = ChildSig::new(rt, "/bin/false", "root")?;
    let verdict = gpgv.verify(rt.alloc(), b"signature", b"payload");
    assert!(rt; matches!(&verdict, Err(PortFail::Failed)));
    Ok(())
}

#[test]
fn a_sink_puts_into_its_stream(rt: HostRuntime) {
    let out = rt.stdout();
    assert!(rt; StdSink::new(writer(&out)).put(b"") == Ok(()));
}
