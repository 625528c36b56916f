//! The top call: words of each kind, over one history.
use crate::running::run;
use child_ports::{
    Bytes, GitRows, Keeper, MemGit, MemKeeper, MemRoom, MemSig, MemSink, Numbers, Pair, Pairs,
    SigRows, Text, Words, rows_fit,
};
use stand_world::{World, build};
use state_store::SqlKeeper;
use std::alloc::{AllocError, Global};
use std::process::Abort;
use std::test::Fail;

// The ids of its commits are f95cd7269964400da5e97384e5f17cb804017df9 and 25089ac7762921f2671d4ede88d73ea3b1125a18.
const SCRIPT: &str = "key a\ncommit i - a a\ncommit c i a a\nbranch master c\n";

const LIST: &str =
    "(list (channel (name 'main) (url \"https://m.example\") (introduction (make-channel-introduction \"f95cd7269964400da5e97384e5f17cb804017df9\" (openpgp-fingerprint \"B4754DB47B6A4BC3DCFFB18A9480FD267E05848C\")))))";

const TARGET: &str =
    "authenticate f95cd7269964400da5e97384e5f17cb804017df9 B4754DB47B6A4BC3DCFFB18A9480FD267E05848C -r clones/main --stats";

const SET: &str = "channels list --clones=clones";

const BAD_WORDS: &str = "guix-auth: bad words; see guix-auth --help\n";

fn text_of(alloc: Global, text: &str) -> Result<Text, AllocError> {
    let mut copy = Text::new(alloc);
    copy.push(text)?;
    Ok(copy)
}

fn words_in(alloc: Global, line: &str) -> Result<Words, AllocError> {
    let mut words = Words::new(alloc);
    for part in line.split(' ') {
        words.push(text_of(alloc, part)?)?;
    }
    Ok(words)
}

// One value at a key.
fn pair_of(alloc: Global, key: &str, value: &str) -> Result<Pairs, AllocError> {
    let key = text_of(alloc, key)?;
    let value = Bytes::from_slice(alloc, value.as_bytes())?;
    let mut pairs = Pairs::new(alloc);
    pairs.push(Pair { key, value })?;
    Ok(pairs)
}

fn world_of(rt: &impl Abort, alloc: Global, script: &str, dir: &str) -> World {
    match build(alloc, script.as_bytes(), dir) {
        Ok(world) => world,
        Err(_) => panic!(rt; "a script is at fault"),
    }
}

fn git_of(rt: &impl Abort, alloc: Global, rows: GitRows) -> Result<MemGit, AllocError> {
    assert!(rt; rows_fit(&rows));
    MemGit::new(alloc, rows, Numbers::new(alloc), Numbers::new(alloc))
}

// A room with the file `list`.
fn room_of(alloc: Global, list: &str) -> Result<MemRoom, AllocError> {
    let files = pair_of(alloc, "list", list)?;
    MemRoom::new(alloc, &files, Numbers::new(alloc))
}

fn sink_of(alloc: Global) -> Result<MemSink, AllocError> {
    MemSink::new(alloc, 4096, Numbers::new(alloc))
}

fn empty_keeper(alloc: Global) -> Result<MemKeeper, AllocError> {
    MemKeeper::new(alloc, &Pairs::new(alloc), Numbers::new(alloc))
}

// The ports of a run, but for its keeper.
#[derive(Drop)]
struct Ports {
    git: MemGit,
    gpgv: MemSig,
    room: MemRoom,
    out: MemSink,
    err: MemSink,
}

// The ports over these rows, with this list.
fn ports_over(
    rt: &impl Abort,
    alloc: Global,
    git: GitRows,
    gpgv: SigRows,
    list: &str,
) -> Result<Ports, AllocError> {
    let git = git_of(rt, alloc, git)?;
    let gpgv = MemSig::new(alloc, gpgv, Numbers::new(alloc))?;
    let room = room_of(alloc, list)?;
    let out = sink_of(alloc)?;
    let err = sink_of(alloc)?;
    Ok(Ports {
        git,
        gpgv,
        room,
        out,
        err,
    })
}

// The ports over one history.
fn ports_of(rt: &impl Abort, alloc: Global) -> Result<Ports, AllocError> {
    let world = world_of(rt, alloc, SCRIPT, "clones/main");
    let git = world.git_rows(alloc)?;
    let gpgv = world.sig_rows(alloc)?;
    ports_over(rt, alloc, git, gpgv, LIST)
}

// The status of a line of words.
fn status_of<K: Keeper>(
    alloc: Global,
    line: &str,
    ports: &mut Ports,
    keeper: &mut K,
) -> Result<u8, AllocError> {
    let words = words_in(alloc, line)?;
    Ok(run(
        alloc,
        &words,
        &mut ports.git,
        &mut ports.gpgv,
        keeper,
        &mut ports.room,
        &mut ports.out,
        &mut ports.err,
    ))
}

// Whether a line of words ends in this status, shows this, tells this and asks gpgv so often.
fn ends_in(
    rt: &impl Abort,
    alloc: Global,
    keeper: &mut MemKeeper,
    line: &str,
    want: (u8, &str, &str, u64),
) -> Result<bool, AllocError> {
    let mut ports = ports_of(rt, alloc)?;
    let status = status_of(alloc, line, &mut ports, keeper)?;
    let (due, output, told, asked) = want;
    Ok(
        status == due
            && ports.out.taken() == output.as_bytes()
            && ports.err.taken() == told.as_bytes()
            && ports.gpgv.asked() == asked,
    )
}

static NO_COMMANDS: [&str; 5] = [
    "authenticate",
    "authenticate f95cd7269964400da5e97384e5f17cb804017df9",
    "authenticate xyz B4754DB47B6A4BC3DCFFB18A9480FD267E05848C",
    "channels f",
    "--help --help",
];

#[test]
fn words_that_state_no_command_are_told(rt: HostRuntime) -> Result<(), Fail> {
    let alloc = rt.alloc();
    let mut keeper = empty_keeper(alloc)?;
    for (place, line) in NO_COMMANDS.iter().enumerate() {
        let want = (2, "", BAD_WORDS, 0);
        assert!(rt;
            ends_in(&rt, alloc, &mut keeper, line, want)?,
            "case {place}"
        );
    }
    Ok(())
}

// The words, the output, and how often gpgv is asked; one run behind the other.
static RUNS: [(&str, &str, u64); 4] = [
    (TARGET, "B4754DB47B6A4BC3DCFFB18A9480FD267E05848C 1\n", 2),
    (TARGET, "", 1),
    (
        SET,
        "main 25089ac7762921f2671d4ede88d73ea3b1125a18 new authentic\n",
        2,
    ),
    (
        SET,
        "main 25089ac7762921f2671d4ede88d73ea3b1125a18 same authentic\n",
        1,
    ),
];

#[test]
fn a_target_and_a_list_are_checked_and_kept(rt: HostRuntime) -> Result<(), Fail> {
    let alloc = rt.alloc();
    let mut keeper = empty_keeper(alloc)?;
    for (place, (line, output, asked)) in RUNS.iter().enumerate() {
        let want = (0, *output, "", *asked);
        assert!(rt;
            ends_in(&rt, alloc, &mut keeper, line, want)?,
            "case {place}"
        );
    }
    assert_eq!(rt; keeper.stores(), 2);
    Ok(())
}

// A channel that names another, and the other, which has no introduction.
const NAMING: &str = "key a
meta (channel (version 0) (url \"https://main.example\") (dependencies (channel (name extra) (url \"https://e.example\"))))
commit i - a a
commit c i a a
branch master c
";

const NAMED: &str = "key a
commit e - a a
branch master e
";

// A list of the first, which is introduced by its commit i and fetched from a mirror.
const NAMING_LIST: &str =
    "(list (channel (name 'main) (url \"https://m.example\") (introduction (make-channel-introduction \"8279432fe3a9f57a55744b9829973c0b14dd5271\" (openpgp-fingerprint \"B4754DB47B6A4BC3DCFFB18A9480FD267E05848C\")))))";

// What git answers in the clones of the two.
fn rows_of_both(rt: &impl Abort, alloc: Global, main: &World) -> Result<GitRows, AllocError> {
    let extra = world_of(rt, alloc, NAMED, "clones/extra");
    let mut rows = main.git_rows(alloc)?;
    for row in extra.git_rows(alloc)?.into_vec() {
        rows.push(row)?;
    }
    Ok(rows)
}

// The ports over the clones of the two.
fn ports_of_both(rt: &impl Abort, alloc: Global) -> Result<Ports, AllocError> {
    let main = world_of(rt, alloc, NAMING, "clones/main");
    let git = rows_of_both(rt, alloc, &main)?;
    let gpgv = main.sig_rows(alloc)?;
    ports_over(rt, alloc, git, gpgv, NAMING_LIST)
}

// Whether a value is kept under this key, or none.
fn is_kept<K: Keeper>(alloc: Global, keeper: &mut K, key: &str, want: bool) -> bool {
    match keeper.load(alloc, key) {
        Ok(value) => value.is_some() == want,
        Err(_) => false,
    }
}

// Whether the set over a keeper ends in this status, and behind it the pairs of the first channel are kept, or none of them.
fn set_ends_in<K: Keeper>(
    rt: &impl Abort,
    alloc: Global,
    keeper: &mut K,
    due: u8,
    kept: bool,
) -> Result<bool, AllocError> {
    let mut ports = ports_of_both(rt, alloc)?;
    let status = status_of(alloc, SET, &mut ports, keeper)?;
    Ok(
        status == due
            && is_kept(alloc, keeper, "channels/main", kept)
            && is_kept(alloc, keeper, "deployed/main", kept)
            && is_kept(alloc, keeper, "deployed/extra", true),
    )
}

// Whether over an empty keeper the set is accepted, twice, and all of it is kept.
fn keeps_whole<K: Keeper>(
    rt: &impl Abort,
    alloc: Global,
    keeper: &mut K,
) -> Result<bool, AllocError> {
    Ok(set_ends_in(rt, alloc, keeper, 0, true)? && set_ends_in(rt, alloc, keeper, 0, true)?)
}

// Whether over a keeper in which the second channel's deployed commit is lost the set is refused, and none of it is kept.
fn keeps_nothing<K: Keeper>(
    rt: &impl Abort,
    alloc: Global,
    keeper: &mut K,
) -> Result<bool, AllocError> {
    let zeros = "0000000000000000000000000000000000000000\n";
    let lost = pair_of(alloc, "deployed/extra", zeros)?;
    Ok(keeper.store(&lost) == Ok(()) && set_ends_in(rt, alloc, keeper, 1, false)?)
}

#[test]
fn an_accepted_set_is_kept_whole(rt: HostRuntime) -> Result<(), Fail> {
    let alloc = rt.alloc();
    assert!(rt; keeps_whole(&rt, alloc, &mut empty_keeper(alloc)?)?);
    assert!(rt; keeps_whole(&rt, alloc, &mut SqlKeeper::in_memory(alloc)?)?);
    Ok(())
}

#[test]
fn of_a_refused_set_nothing_is_kept(rt: HostRuntime) -> Result<(), Fail> {
    let alloc = rt.alloc();
    assert!(rt; keeps_nothing(&rt, alloc, &mut empty_keeper(alloc)?)?);
    assert!(rt; keeps_nothing(&rt, alloc, &mut SqlKeeper::in_memory(alloc)?)?);
    Ok(())
}
