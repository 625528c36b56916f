use crate::{
    Bytes, Failed, FileRoom, GitPort, GitRow, GitRows, Keeper, MemGit, MemKeeper, MemRoom, MemSig,
    MemSink, Numbers, Pair, Pairs, PortFail, SigPort, SigRow, SigRows, Sink, Text, is_name,
    rows_fit,
};
use std::alloc::{AllocError, Global};
use std::process::Abort;
use std::test::Fail;

fn text(alloc: Global, from: &str) -> Result<Text, AllocError> {
    let mut text = Text::new(alloc);
    text.push(from)?;
    Ok(text)
}

fn bytes(alloc: Global, from: &str) -> Result<Bytes, AllocError> {
    Bytes::from_slice(alloc, from.as_bytes())
}

// A row for the directory `d`.
fn git_row(alloc: Global, name: &str, answer: &str) -> Result<GitRow, AllocError> {
    let dir = text(alloc, "d")?;
    let name = bytes(alloc, name)?;
    let answer = bytes(alloc, answer)?;
    Ok(GitRow { dir, name, answer })
}

fn git_rows(alloc: Global, from: &[(&str, &str)]) -> Result<GitRows, AllocError> {
    let mut rows = GitRows::new(alloc);
    for (name, answer) in from {
        rows.push(git_row(alloc, name, answer)?)?;
    }
    Ok(rows)
}

// Git with these rows, all for the directory `d`.
fn git(
    rt: &impl Abort,
    alloc: Global,
    rows: &[(&str, &str)],
    fails: &[u64],
    pieces: &[u64],
) -> Result<MemGit, AllocError> {
    let fails = Numbers::from_slice(alloc, fails)?;
    let pieces = Numbers::from_slice(alloc, pieces)?;
    let rows = git_rows(alloc, rows)?;
    assert!(rt; rows_fit(&rows), "the rows fit");
    MemGit::new(alloc, rows, fails, pieces)
}

// Whether git answers this to a name, in one piece.
fn git_says(git: &mut MemGit, dir: &str, name: &str, want: &str) -> bool {
    if !is_name(name.as_bytes()) || git.ask(dir, name.as_bytes()) != Ok(()) {
        return false;
    }
    let mut buf = [0u8; 64];
    let Ok(n) = git.read(&mut buf) else {
        return false;
    };
    &buf[..n] == want.as_bytes() && git.read(&mut buf) == Ok(0)
}

#[test]
fn git_answers_by_the_first_row_and_says_missing_without_one(rt: HostRuntime) -> Result<(), Fail> {
    let rows = [("a", "a ambiguous\n"), ("a", "other"), ("b", "b missing\n")];
    let mut git = git(&rt, rt.alloc(), &rows, &[], &[])?;
    assert!(rt; git_says(&mut git, "d", "a", "a ambiguous\n"));
    assert!(rt; git_says(&mut git, "d", "b", "b missing\n"));
    assert!(rt; git_says(&mut git, "d", "c", "c missing\n"));
    assert!(rt; git_says(&mut git, "e", "a", "a missing\n"));
    Ok(())
}

#[test]
fn git_reads_in_the_pieces_that_it_is_given(rt: HostRuntime) -> Result<(), Fail> {
    let mut git = git(&rt, rt.alloc(), &[("a", "0123456789")], &[], &[2, 0, 3])?;
    assert_eq!(rt; git.ask("d", b"a"), Ok(()));
    let mut buf = [0u8; 64];
    for size in [2, 1, 3, 4, 0] {
        assert_eq!(rt; git.read(&mut buf), Ok(size));
    }
    Ok(())
}

#[test]
fn git_fails_at_the_calls_of_its_script_alone(rt: HostRuntime) -> Result<(), Fail> {
    let mut git = git(&rt, rt.alloc(), &[("a", "0123456789")], &[2, 4], &[])?;
    let mut buf = [0u8; 4];
    assert_eq!(rt; git.ask("d", b"a"), Ok(()), "the first call");
    assert_eq!(rt; git.read(&mut buf), Err(Failed), "the second");
    assert_eq!(rt; git.read(&mut buf), Ok(4), "the third");
    assert_eq!(rt; git.ask("d", b"b"), Err(Failed), "the fourth");
    assert_eq!(rt; git.read(&mut buf), Ok(4), "the fifth");
    assert_eq!(rt; &buf, b"4567", "what is pending stays at a failed call");
    Ok(())
}

// Whether asking a name is answered so, and this many names were asked by then.
fn asks(git: &mut MemGit, name: &str, want: Result<(), Failed>, named: u64) -> bool {
    is_name(name.as_bytes()) && git.ask("d", name.as_bytes()) == want && git.named() == named
}

#[test]
fn git_counts_the_names_that_are_no_ids_in_full(rt: HostRuntime) -> Result<(), Fail> {
    let git = &mut git(&rt, rt.alloc(), &[], &[3], &[])?;
    assert!(rt; asks(git, "0123456789abcdef0123456789abcdef01234567", Ok(()), 0));
    assert!(rt; asks(git, "refs/heads/keyring", Ok(()), 1));
    assert!(rt; asks(git, "refs/heads/keyring", Err(Failed), 2));
    assert!(rt; asks(git, "0123456789ABCDEF0123456789ABCDEF01234567", Ok(()), 3));
    assert!(rt; asks(git, "0123456789abcdef0123456789abcdef0123456", Ok(()), 4));
    Ok(())
}

// A row of the signature `s` on the payload `p`.
fn sig_row(alloc: Global, keyring: &str, answer: &str) -> Result<SigRow, AllocError> {
    let keyring = bytes(alloc, keyring)?;
    let signature = bytes(alloc, "s")?;
    let payload = bytes(alloc, "p")?;
    let answer = bytes(alloc, answer)?;
    Ok(SigRow {
        keyring,
        signature,
        payload,
        answer,
    })
}

// gpgv with two rows for one question and one for another, which fails at its third and sixth call.
fn sig(alloc: Global) -> Result<MemSig, AllocError> {
    let fails = Numbers::from_slice(alloc, &[3, 6])?;
    let mut rows = SigRows::new(alloc);
    rows.push(sig_row(alloc, "k", "first")?)?;
    rows.push(sig_row(alloc, "k", "second")?)?;
    rows.push(sig_row(alloc, "l", "other")?)?;
    MemSig::new(alloc, rows, fails)
}

// Whether gpgv says this of a payload. Nothing stands for a call that failed.
fn gpgv_says(alloc: Global, sig: &mut MemSig, payload: &str, want: Option<&str>) -> bool {
    match (sig.verify(alloc, b"s", payload.as_bytes()), want) {
        (Ok(status), Some(want)) => status.as_slice() == want.as_bytes(),
        (Err(_), None) => true,
        _ => false,
    }
}

#[test]
fn gpgv_says_what_its_rows_say_and_counts_its_questions(rt: HostRuntime) -> Result<(), Fail> {
    let alloc = rt.alloc();
    let mut sig = sig(alloc)?;
    assert_eq!(rt; sig.load(b"k"), Ok(()));
    assert!(rt; gpgv_says(alloc, &mut sig, "p", Some("first")));
    assert!(rt; gpgv_says(alloc, &mut sig, "p", None));
    assert!(rt; gpgv_says(alloc, &mut sig, "q", Some("")));
    assert!(rt; gpgv_says(alloc, &mut sig, "p", Some("first")));
    assert_eq!(rt; sig.load(b"l"), Err(PortFail::Failed));
    assert_eq!(rt; sig.load(b"l"), Ok(()));
    assert!(rt; gpgv_says(alloc, &mut sig, "p", Some("other")));
    assert_eq!(rt; sig.asked(), 5, "with the one that failed");
    Ok(())
}

fn pair(alloc: Global, key: &str, value: &str) -> Result<Pair, AllocError> {
    let key = text(alloc, key)?;
    let value = bytes(alloc, value)?;
    Ok(Pair { key, value })
}

// Pairs of texts.
fn pairs(alloc: Global, from: &[(&str, &str)]) -> Result<Pairs, AllocError> {
    let mut pairs = Pairs::new(alloc);
    for (key, value) in from {
        pairs.push(pair(alloc, key, value)?)?;
    }
    Ok(pairs)
}

// A keeper of these pairs, which fails at its fifth call.
fn keeper(alloc: Global, from: &[(&str, &str)]) -> Result<MemKeeper, AllocError> {
    let fails = Numbers::from_slice(alloc, &[5])?;
    let pairs = pairs(alloc, from)?;
    MemKeeper::new(alloc, &pairs, fails)
}

// Whether the keeper has this value for a key.
fn keeps(alloc: Global, keeper: &mut MemKeeper, key: &str, want: Option<&str>) -> bool {
    match (keeper.load(alloc, key), want) {
        (Ok(Some(value)), Some(want)) => value.as_slice() == want.as_bytes(),
        (Ok(None), None) => true,
        _ => false,
    }
}

// What the keeper answers to storing these pairs.
fn stored(
    alloc: Global,
    keeper: &mut MemKeeper,
    more: &[(&str, &str)],
) -> Result<Result<(), PortFail>, AllocError> {
    let more = pairs(alloc, more)?;
    Ok(keeper.store(&more))
}

#[test]
fn the_keeper_begins_with_the_first_pair_of_a_key_and_stores_the_last(
    rt: HostRuntime,
) -> Result<(), Fail> {
    let alloc = rt.alloc();
    let mut keeper = keeper(alloc, &[("a", "1"), ("a", "2"), ("b", "3")])?;
    assert!(rt; keeps(alloc, &mut keeper, "a", Some("1")));
    assert!(rt; keeps(alloc, &mut keeper, "b", Some("3")));
    assert!(rt; keeps(alloc, &mut keeper, "c", None));
    let more = [("a", "4"), ("c", "5"), ("a", "6")];
    assert_eq!(rt; stored(alloc, &mut keeper, &more)?, Ok(()));
    let late = stored(alloc, &mut keeper, &[("b", "7")])?;
    assert_eq!(rt; late, Err(PortFail::Failed), "the fifth call");
    assert!(rt; keeps(alloc, &mut keeper, "a", Some("6")));
    assert!(rt; keeps(alloc, &mut keeper, "b", Some("3")));
    assert!(rt; keeps(alloc, &mut keeper, "c", Some("5")));
    Ok(())
}

// Files, the second read of which fails.
fn room(alloc: Global, files: &[(&str, &str)]) -> Result<MemRoom, AllocError> {
    let fails = Numbers::from_slice(alloc, &[2])?;
    let files = pairs(alloc, files)?;
    MemRoom::new(alloc, &files, fails)
}

// Whether the file at a path holds this.
fn holds(alloc: Global, room: &mut MemRoom, path: &str, want: &str) -> bool {
    match room.read(alloc, path) {
        Ok(Some(bytes)) => bytes.as_slice() == want.as_bytes(),
        _ => false,
    }
}

#[test]
fn files_are_read_by_the_first_pair_of_a_path(rt: HostRuntime) -> Result<(), Fail> {
    let alloc = rt.alloc();
    let mut room = room(alloc, &[("/a", "1"), ("/a", "2")])?;
    assert!(rt; holds(alloc, &mut room, "/a", "1"));
    assert!(rt; matches!(room.read(alloc, "/a"), Err(PortFail::Failed)));
    assert!(rt; matches!(room.read(alloc, "/b"), Ok(None)));
    Ok(())
}

// Whether putting bytes is answered so, and this was taken by then.
fn puts(sink: &mut MemSink, bytes: &str, want: Result<(), Failed>, taken: &str) -> bool {
    sink.put(bytes.as_bytes()) == want && sink.taken() == taken.as_bytes()
}

#[test]
fn a_sink_takes_what_fits_and_nothing_of_the_rest(rt: HostRuntime) -> Result<(), Fail> {
    let fails = Numbers::from_slice(rt.alloc(), &[3])?;
    let mut sink = MemSink::new(rt.alloc(), 5, fails)?;
    assert!(rt; puts(&mut sink, "abc", Ok(()), "abc"));
    assert!(rt; puts(&mut sink, "def", Err(Failed), "abc"));
    assert!(rt; puts(&mut sink, "d", Err(Failed), "abc"));
    assert!(rt; puts(&mut sink, "de", Ok(()), "abcde"));
    assert!(rt; puts(&mut sink, "", Ok(()), "abcde"));
    assert!(rt; puts(&mut sink, "f", Err(Failed), "abcde"));
    Ok(())
}
