//! Sets of channels, over the histories of scripts.
ghost use Rattle.std.specs.Prelude.{◌≡◌, IfOk};
ghost use Rattle.channel_deps.specs.Limits.{FitsSet};

use crate::{Member, Move, SetFail, SetTask, SetVerdict, Standing, authenticate_set};
use channel_file::{Introduction, read_channels};
use child_ports::{
    Bytes, GitRows, MemGit, MemKeeper, MemSig, Numbers, Pair, Pairs, SigRows, Text, rows_fit,
};
use object_frames::Id;
use stand_world::{World, build};
use std::alloc::{AllocError, Global};
use std::process::Abort;
use std::test::Fail;

const MAIN: &str = "key a
meta (channel (version 0) (url \"https://main.example\") (dependencies (channel (name extra) (url \"https://e.example\"))))
commit i - a a
commit c i a a
branch master c
";

const EXTRA: &str = "key a
commit e - a a
branch master e
";

// It names the channel that names it.
const BACK: &str = "key a
meta (channel (version 0) (dependencies (channel (name main) (url \"https://other.example\"))))
commit e - a a
branch master e
";

// Two branches, behind one commit.
const FORKED: &str = "key a
commit i - a a
commit c i a a
commit d c a a
commit x i a a
branch master d
";

fn text_of(alloc: Global, part: &str) -> Result<Text, AllocError>
    ensures { IfOk result (λ text. text ≡ part.now) }
{
    let mut text = Text::new(alloc);
    text.push(part)?;
    Ok(text)
}

fn world_of(rt: &impl Abort, alloc: Global, script: &str, dir: &str) -> World {
    match build(alloc, script.as_bytes(), dir) {
        Ok(world) => world,
        Err(_) => panic!(rt; "a script is at fault: {script}"),
    }
}

fn id_of(rt: &impl Abort, world: &World, name: &str) -> Id {
    match world.id(name) {
        Some(id) => id,
        None => panic!(rt; "{name} is declared"),
    }
}

fn push_git_rows(alloc: Global, rows: &mut GitRows, world: &World) -> Result<(), AllocError> {
    for row in world.git_rows(alloc)?.into_vec() {
        rows.push(row)?;
    }
    Ok(())
}

// The answers of two worlds.
fn git_over(
    rt: &impl Abort,
    alloc: Global,
    first: &World,
    second: &World,
) -> Result<MemGit, AllocError> {
    let mut rows = GitRows::new(alloc);
    push_git_rows(alloc, &mut rows, first)?;
    push_git_rows(alloc, &mut rows, second)?;
    assert!(rt; rows_fit(&rows));
    MemGit::new(alloc, rows, Numbers::new(alloc), Numbers::new(alloc))
}

fn push_gpgv_rows(alloc: Global, rows: &mut SigRows, world: &World) -> Result<(), AllocError> {
    for row in world.sig_rows(alloc)?.into_vec() {
        rows.push(row)?;
    }
    Ok(())
}

fn gpgv_over(alloc: Global, first: &World, second: &World) -> Result<MemSig, AllocError> {
    let mut rows = SigRows::new(alloc);
    push_gpgv_rows(alloc, &mut rows, first)?;
    push_gpgv_rows(alloc, &mut rows, second)?;
    MemSig::new(alloc, rows, Numbers::new(alloc))
}

// A keeper with this value at this key; without a key it is empty.
fn keeper_with(alloc: Global, key: &str, value: &[u8]) -> Result<MemKeeper, AllocError> {
    let mut pairs = Pairs::new(alloc);
    if !key.is_empty() {
        let key = text_of(alloc, key)?;
        let value = Bytes::from_slice(alloc, value)?;
        pairs.push(Pair { key, value })?;
    }
    MemKeeper::new(alloc, &pairs, Numbers::new(alloc))
}

fn push_id(bytes: &mut Bytes, id: Id) -> Result<(), AllocError> {
    let mut digits = [0u8; 40];
    id.write_hex(&mut digits);
    bytes.extend(&digits)
}

fn record_of(alloc: Global, id: Id) -> Result<Bytes, AllocError> {
    let mut record = Bytes::new(alloc);
    push_id(&mut record, id)?;
    record.push(b'\n')?;
    Ok(record)
}

fn push_introduction(list: &mut Bytes, introduction: Introduction) -> Result<(), AllocError> {
    let mut digits = [0u8; 40];
    introduction.signer.write_hex(&mut digits);
    list.extend(b" (introduction (make-channel-introduction \"")?;
    push_id(list, introduction.commit)?;
    list.extend(b"\" (openpgp-fingerprint \"")?;
    list.extend(&digits)?;
    list.extend(b"\")))")
}

// A channel of a list, at a commit or at its branch, with an introduction or without.
fn push_channel(
    list: &mut Bytes,
    name: &[u8],
    commit: Option<Id>,
    introduction: Option<Introduction>,
) -> Result<(), AllocError> {
    list.extend(b" (channel (name '")?;
    list.extend(name)?;
    list.extend(b") (url \"https://given.example\")")?;
    if let Some(commit) = commit {
        list.extend(b" (commit \"")?;
        push_id(list, commit)?;
        list.extend(b"\")")?;
    }
    if let Some(introduction) = introduction {
        push_introduction(list, introduction)?;
    }
    list.extend(b")")
}

// The introduction of a world: its commit i, signed by a.
fn introduction_of(world: &World) -> Option<Introduction> {
    Some(Introduction {
        commit: world.id("i")?,
        signer: world.key("a")?,
    })
}

// A list that begins with the channel `main` of a world, at a commit or at its branch.
fn list_with_main(alloc: Global, world: &World, commit: Option<Id>) -> Result<Bytes, AllocError> {
    let mut list = Bytes::from_slice(alloc, b"(list")?;
    push_channel(&mut list, b"main", commit, introduction_of(world))?;
    Ok(list)
}

// The set of a list, which is closed here.
fn set_of(
    rt: &impl Abort,
    alloc: Global,
    list: &mut Bytes,
    allow_downgrades: bool,
    check: bool,
) -> Result<SetTask, AllocError>
    ensures { IfOk result (λ set. FitsSet set) }
{
    list.push(b')')?;
    let clones = text_of(alloc, "clones")?;
    match read_channels(alloc, list.as_slice()) {
        Ok(channels) => Ok(SetTask {
            clones,
            channels,
            allow_downgrades,
            check,
        }),
        Err(fail) => panic!(rt; "a list is at fault: {fail:?}"),
    }
}

fn move_word(moved: Move) -> &'static str {
    match moved {
        Move::New => " new",
        Move::Same => " same",
        Move::Forward => " forward",
        Move::Back => " back",
        Move::Unrelated => " unrelated",
        Move::Lost => " lost",
    }
}

fn standing_word(standing: Standing) -> &'static str {
    match standing {
        Standing::Authentic => " authentic",
        Standing::Older => " older",
        Standing::Unchecked => " unchecked",
    }
}

fn push_member(line: &mut Text, member: &Member) -> Result<(), AllocError> {
    line.push(member.name.as_str())?;
    line.push(move_word(member.moved))?;
    line.push(standing_word(member.standing))?;
    if member.introduced {
        line.push(" introduced")?;
    }
    line.push(" at ")?;
    line.push(member.url.as_str())?;
    if let Some(primary) = &member.primary {
        line.push(" of ")?;
        line.push(primary.as_str())?;
    }
    line.push("; ")
}

fn refusal_word(fail: &SetFail) -> &'static str {
    match fail {
        SetFail::Channel { .. } => "channel",
        SetFail::Metadata { .. } => "metadata",
        SetFail::Record(_) => "record",
        SetFail::Downgrade { .. } => "downgrade",
        SetFail::UnrelatedMove { .. } => "unrelated move",
        SetFail::DeployedMissing { .. } => "missing",
        SetFail::TooManyChannels => "too many",
        SetFail::GitFault => "git",
        SetFail::SigFault => "gpgv",
        SetFail::KeepFault => "keeper",
        SetFail::Memory => "memory",
    }
}

// The members and the keys that are to be stored, or the refusal.
fn shown(alloc: Global, outcome: &Result<SetVerdict, SetFail>) -> Result<Text, AllocError> {
    let mut line = Text::new(alloc);
    match outcome {
        Ok(verdict) => {
            for member in verdict.members.as_slice() {
                push_member(&mut line, member)?;
            }
            line.push("stores")?;
            for pair in verdict.store.as_slice() {
                line.push(" ")?;
                line.push(pair.key.as_str())?;
            }
        }
        Err(fail) => line.push(refusal_word(fail))?,
    }
    Ok(line)
}

// What a set comes to over two histories, and how often gpgv is asked.
fn outcome_over(
    rt: &impl Abort,
    alloc: Global,
    first: &World,
    second: &World,
    keeper: &mut MemKeeper,
    set: &SetTask,
) -> Result<(Text, u64), AllocError>
    requires { FitsSet set.now }
{
    let mut git = git_over(rt, alloc, first, second)?;
    let mut gpgv = gpgv_over(alloc, first, second)?;
    let result = authenticate_set(alloc, &mut git, &mut gpgv, keeper, set);
    let line = shown(alloc, &result)?;
    Ok((line, gpgv.asked()))
}

// The set of the channel `main` alone, at a commit.
fn main_alone(
    rt: &impl Abort,
    alloc: Global,
    world: &World,
    commit: Id,
    allowed: bool,
) -> Result<SetTask, AllocError>
    ensures { IfOk result (λ set. FitsSet set) }
{
    let mut list = list_with_main(alloc, world, Some(commit))?;
    set_of(rt, alloc, &mut list, allowed, true)
}

// What a channel `main` at a commit comes to, from this deployed record.
fn main_from(
    rt: &impl Abort,
    alloc: Global,
    world: &World,
    record: &[u8],
    commit: Id,
    allowed: bool,
) -> Result<Text, AllocError> {
    let set = main_alone(rt, alloc, world, commit, allowed)?;
    let mut keeper = keeper_with(alloc, "deployed/main", record)?;
    let (line, _) = outcome_over(rt, alloc, world, world, &mut keeper, &set)?;
    Ok(line)
}

const SAME: &str = "main same authentic introduced at https://given.example; stores channels/main";

const FORWARD: &str =
    "main forward authentic introduced at https://given.example; stores channels/main deployed/main";

const BACKWARD: &str =
    "main back authentic introduced at https://given.example; stores channels/main deployed/main";

const OTHER: &str =
    "main unrelated authentic introduced at https://given.example; stores channels/main deployed/main";

const LOST: &str = "main lost authentic introduced at https://given.example; stores deployed/main";

// The deployed commit, the target, whether going back is allowed, and what is shown.
static MOVES: [(&str, &str, bool, &str); 6] = [
    ("c", "c", false, SAME),
    ("c", "d", false, FORWARD),
    ("d", "c", false, "downgrade"),
    ("d", "c", true, BACKWARD),
    ("x", "d", false, "unrelated move"),
    ("x", "d", true, OTHER),
];

#[test]
fn a_move_is_judged_by_how_the_deployed_commit_stands_to_the_target(
    rt: HostRuntime,
) -> Result<(), Fail> {
    let alloc = rt.alloc();
    let world = world_of(&rt, alloc, FORKED, "clones/main");
    for (old, new, allowed, want) in &MOVES {
        let record = record_of(alloc, id_of(&rt, &world, old))?;
        let target = id_of(&rt, &world, new);
        let line = main_from(&rt, alloc, &world, record.as_slice(), target, *allowed)?;
        assert!(rt; line.as_str() == *want, "from {old} to {new}");
    }
    Ok(())
}

const ZEROS: &str = "0000000000000000000000000000000000000000\n";

// What is kept as the deployed commit, whether going back is allowed, and what is shown.
static RECORDS: [(&str, bool, &str); 4] = [
    (ZEROS, false, "missing"),
    (ZEROS, true, LOST),
    ("x", false, "record"),
    ("x", true, "record"),
];

#[test]
fn a_record_has_to_be_of_a_commit_that_is_there(rt: HostRuntime) -> Result<(), Fail> {
    let alloc = rt.alloc();
    let world = world_of(&rt, alloc, FORKED, "clones/main");
    let target = id_of(&rt, &world, "i");
    for (place, (record, allowed, want)) in RECORDS.iter().enumerate() {
        let line = main_from(&rt, alloc, &world, record.as_bytes(), target, *allowed)?;
        assert!(rt; line.as_str() == *want, "case {place}");
    }
    Ok(())
}

#[test]
fn a_record_has_no_byte_behind_its_line(rt: HostRuntime) -> Result<(), Fail> {
    let alloc = rt.alloc();
    let world = world_of(&rt, alloc, FORKED, "clones/main");
    let target = id_of(&rt, &world, "i");
    let mut longer = record_of(alloc, target)?;
    longer.push(b'\n')?;
    let line = main_from(&rt, alloc, &world, longer.as_slice(), target, true)?;
    assert!(rt; line.as_str() == "record");
    Ok(())
}

// How the channel `main` is put beside others, and what is kept before.
#[derive(Clone, Copy)]
struct Case {
    // the history of the channel that it names
    extra: &'static str,
    // whether that channel is given too
    given: bool,
    check: bool,
    // what is kept as its deployed commit, where anything is
    record: &'static str,
}

// The set of a case.
fn set_with(
    rt: &impl Abort,
    alloc: Global,
    world: &World,
    case: Case,
) -> Result<SetTask, AllocError>
    ensures { IfOk result (λ set. FitsSet set) }
{
    let mut list = list_with_main(alloc, world, None)?;
    if case.given {
        push_channel(&mut list, b"extra", None, None)?;
    }
    set_of(rt, alloc, &mut list, false, case.check)
}

// What a case comes to, and how often gpgv was asked.
fn main_with(
    rt: &impl Abort,
    alloc: Global,
    world: &World,
    case: Case,
) -> Result<(Text, u64), AllocError> {
    let other = world_of(rt, alloc, case.extra, "clones/extra");
    let key = if case.record.is_empty() {
        ""
    } else {
        "deployed/extra"
    };
    let mut keeper = keeper_with(alloc, key, case.record.as_bytes())?;
    let set = set_with(rt, alloc, world, case)?;
    outcome_over(rt, alloc, world, &other, &mut keeper, &set)
}

const NAMED: &str =
    "main new authentic introduced at https://given.example of https://main.example; extra new unchecked at https://e.example; stores channels/main deployed/main deployed/extra";

const GIVEN: &str =
    "main new authentic introduced at https://given.example of https://main.example; extra new unchecked at https://given.example; stores channels/main deployed/main deployed/extra";

const UNCHECKED: &str =
    "main new unchecked introduced at https://given.example of https://main.example; extra new unchecked at https://e.example; stores deployed/main deployed/extra";

// The history of `extra`, whether it is given too, whether channels are checked, its record; what is shown, the questions.
static DEPENDENCIES: [(&str, bool, bool, &str, &str, u64); 6] = [
    (EXTRA, false, true, "", NAMED, 2),
    (EXTRA, true, true, "", GIVEN, 2),
    (BACK, false, true, "", NAMED, 2),
    (BACK, true, true, "", GIVEN, 2),
    (BACK, false, false, "", UNCHECKED, 0),
    (EXTRA, false, true, ZEROS, "missing", 2),
];

#[test]
fn dependencies_are_taken_once_behind_the_given_channels(rt: HostRuntime) -> Result<(), Fail> {
    let alloc = rt.alloc();
    let world = world_of(&rt, alloc, MAIN, "clones/main");
    for (place, (extra, given, check, record, want, asked)) in DEPENDENCIES.iter().enumerate() {
        let case = Case {
            extra: *extra,
            given: *given,
            check: *check,
            record: *record,
        };
        let (line, questions) = main_with(&rt, alloc, &world, case)?;
        assert!(rt;
            line.as_str() == *want && questions == *asked,
            "case {place}"
        );
    }
    Ok(())
}

// The set of the channel `extra` alone.
fn extra_alone(rt: &impl Abort, alloc: Global) -> Result<SetTask, AllocError>
    ensures { IfOk result (λ set. FitsSet set) }
{
    let mut list = Bytes::from_slice(alloc, b"(list")?;
    push_channel(&mut list, b"extra", None, None)?;
    set_of(rt, alloc, &mut list, false, true)
}

// The verdict on a set over a history, where nothing is kept.
fn verdict_over(
    rt: &impl Abort,
    alloc: Global,
    world: &World,
    set: &SetTask,
) -> Result<SetVerdict, AllocError>
    requires { FitsSet set.now }
{
    let mut git = git_over(rt, alloc, world, world)?;
    let mut gpgv = gpgv_over(alloc, world, world)?;
    let mut keeper = keeper_with(alloc, "", b"")?;
    match authenticate_set(alloc, &mut git, &mut gpgv, &mut keeper, set) {
        Ok(verdict) => Ok(verdict),
        Err(_) => panic!(rt; "it is refused"),
    }
}

#[test]
fn a_new_channel_is_kept_at_its_target(rt: HostRuntime) -> Result<(), Fail> {
    let alloc = rt.alloc();
    let world = world_of(&rt, alloc, EXTRA, "clones/extra");
    let target = id_of(&rt, &world, "e");
    let set = extra_alone(&rt, alloc)?;
    let record = record_of(alloc, target)?;
    let verdict = verdict_over(&rt, alloc, &world, &set)?;
    let (Some(member), Some(pair)) = (verdict.members.get(0), verdict.store.get(0)) else {
        panic!(rt; "it has no member or keeps nothing");
    };
    assert!(rt; member.target == target);
    assert!(rt; pair.key.as_str() == "deployed/extra");
    assert!(rt; pair.value.as_slice() == record.as_slice());
    Ok(())
}

// A list of `main` and so many others, of which none has a clone.
fn long_list(alloc: Global, world: &World, others: usize) -> Result<Bytes, AllocError> {
    let mut list = list_with_main(alloc, world, None)?;
    let mut count = 0;
    for first in b"abcdefghijklmnop" {
        for second in b"abcdefghijklmnop" {
            if count < others {
                push_channel(&mut list, &[*first, *second], None, None)?;
                count += 1;
            }
        }
    }
    Ok(list)
}

// The set of `main` and so many others.
fn long_set(
    rt: &impl Abort,
    alloc: Global,
    world: &World,
    others: usize,
) -> Result<SetTask, AllocError>
    ensures { IfOk result (λ set. FitsSet set) }
{
    let mut list = long_list(alloc, world, others)?;
    set_of(rt, alloc, &mut list, false, false)
}

#[test]
fn there_are_at_most_256_channels(rt: HostRuntime) -> Result<(), Fail> {
    let alloc = rt.alloc();
    let world = world_of(&rt, alloc, MAIN, "clones/main");
    let mut keeper = keeper_with(alloc, "", b"")?;
    // how many others are given, and the refusal: without room for one more, or of the second channel, which has no clone
    for (others, want) in [(255, "too many"), (254, "channel")] {
        let set = long_set(&rt, alloc, &world, others)?;
        assert!(rt; set.channels.len() == others + 1);
        let (line, _) = outcome_over(&rt, alloc, &world, &world, &mut keeper, &set)?;
        assert!(rt; line.as_str() == want, "beside {others}");
    }
    Ok(())
}
