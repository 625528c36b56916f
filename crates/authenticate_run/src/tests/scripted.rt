//! A history of a script, runs over it, and what they are compared with.
use crate::run_authenticate;
use auth_words::{Command, read_words};
use child_ports::{
    Bytes, GitRows, Keeper, MemGit, MemKeeper, MemRoom, MemSig, MemSink, Numbers, Pair, Pairs,
    Text, Words, rows_fit,
};
use stand_world::{World, build};
use std::alloc::{AllocError, Global};
use std::str;

/// What ports do in a run: the numbers of the calls that fail, the room of standard output, and the name that git has lost.
#[derive(Clone, Copy, Debug)]
pub struct Outside {
    pub git_fails: u64,
    pub gpgv_fails: u64,
    pub out_room: usize,
    pub err_fails: u64,
    pub lost: &'static str,
}

/// No call fails, and nothing is lost.
pub const WELL: Outside = Outside {
    git_fails: 0,
    gpgv_fails: 0,
    out_room: 65_536,
    err_fails: 0,
    lost: "",
};

/// What a run is to show. Texts have `<c>` for the id of commit c, `<key a>` for the fingerprint of key a.
#[derive(Clone, Copy, Debug)]
pub struct Want {
    pub status: u8,
    pub out: &'static str,
    pub err: &'static str,
    pub asked: u64,
}

/// Status 0, nothing shown, so many questions.
pub fn quiet(asked: u64) -> Want {
    Want {
        status: 0,
        out: "",
        err: "",
        asked,
    }
}

// Adds what a name in brackets stands for. One that isn't declared stands for forty `?`, which no run shows.
fn push_named(text: &mut Text, world: &World, name: &str) -> Result<(), AllocError> {
    let mut digits = [b'?'; 40];
    if let Some(key) = name.strip_prefix("key ") {
        if let Some(key) = world.key(key) {
            key.write_hex(&mut digits);
        }
    } else if let Some(id) = world.id(name) {
        id.write_hex(&mut digits);
    }
    match str::from_utf8(&digits) {
        Ok(digits) => text.push(digits),
        Err(_) => text.push("?"),
    }
}

/// A text with its names replaced by what they stand for.
pub fn expanded(alloc: Global, world: &World, pattern: &str) -> Result<Text, AllocError> {
    let mut text = Text::new(alloc);
    let mut first = true;
    for piece in pattern.split('<') {
        let mut halves = piece.split('>');
        if first {
            text.push(piece)?;
        } else {
            push_named(&mut text, world, halves.next().unwrap_or(""))?;
            text.push(halves.next().unwrap_or(""))?;
        }
        first = false;
    }
    Ok(text)
}

fn words_in(alloc: Global, line: &str) -> Result<Words, AllocError> {
    let mut words = Words::new(alloc);
    for part in line.split(' ') {
        let mut word = Text::new(alloc);
        word.push(part)?;
        words.push(word)?;
    }
    Ok(words)
}

fn only(alloc: Global, number: u64) -> Result<Numbers, AllocError> {
    let mut numbers = Numbers::new(alloc);
    if number > 0 {
        numbers.push(number)?;
    }
    Ok(numbers)
}

/// A keeper without records, of which the call of this number fails.
pub fn empty_keeper(alloc: Global, fails: u64) -> Result<MemKeeper, AllocError> {
    MemKeeper::new(alloc, &Pairs::new(alloc), only(alloc, fails)?)
}

fn pair_of(alloc: Global, key: &str, value: &[u8]) -> Result<Pair, AllocError> {
    let value = Bytes::from_slice(alloc, value)?;
    let mut text = Text::new(alloc);
    text.push(key)?;
    Ok(Pair { key: text, value })
}

/// A keeper that has this value under this key.
pub fn keeper_with(alloc: Global, key: &str, value: &[u8]) -> Result<MemKeeper, AllocError> {
    let mut pairs = Pairs::new(alloc);
    pairs.push(pair_of(alloc, key, value)?)?;
    MemKeeper::new(alloc, &pairs, Numbers::new(alloc))
}

// The one file `h`, unless there is none.
fn room_of(alloc: Global, world: &World, file: &str) -> Result<MemRoom, AllocError> {
    let mut files = Pairs::new(alloc);
    if !file.is_empty() {
        let text = expanded(alloc, world, file)?;
        files.push(pair_of(alloc, "h", text.as_str().as_bytes())?)?;
    }
    MemRoom::new(alloc, &files, Numbers::new(alloc))
}

// The world's answers, but for that to a name.
fn rows_without(alloc: Global, world: &World, lost: &str) -> Result<GitRows, AllocError> {
    let mut rows = GitRows::new(alloc);
    for row in world.git_rows(alloc)?.into_vec() {
        if row.name.as_slice() != lost.as_bytes() {
            rows.push(row)?;
        }
    }
    Ok(rows)
}

// Git over the world's answers, but for that to a name. No run is compared where they don't fit.
fn git_of(alloc: Global, world: &World, outside: &Outside) -> Result<MemGit, AllocError> {
    let fails = only(alloc, outside.git_fails)?;
    let rows = rows_without(alloc, world, outside.lost)?;
    if !rows_fit(&rows) {
        return Err(AllocError);
    }
    MemGit::new(alloc, rows, fails, Numbers::new(alloc))
}

// gpgv over the world's verdicts.
fn gpgv_of(alloc: Global, world: &World, fails: u64) -> Result<MemSig, AllocError> {
    let fails = only(alloc, fails)?;
    let rows = world.sig_rows(alloc)?;
    MemSig::new(alloc, rows, fails)
}

// A sink with this room.
fn sink_of(alloc: Global, room: usize, fails: u64) -> Result<MemSink, AllocError> {
    let fails = only(alloc, fails)?;
    MemSink::new(alloc, room, fails)
}

// The ports of a run, but for its keeper.
#[derive(Drop)]
struct Ports {
    git: MemGit,
    gpgv: MemSig,
    room: MemRoom,
    out: MemSink,
    err: MemSink,
}

// Ports over a world and a file.
fn ports_of(
    alloc: Global,
    world: &World,
    file: &str,
    outside: &Outside,
) -> Result<Ports, AllocError> {
    let git = git_of(alloc, world, outside)?;
    let gpgv = gpgv_of(alloc, world, outside.gpgv_fails)?;
    let room = room_of(alloc, world, file)?;
    let out = sink_of(alloc, outside.out_room, 0)?;
    let err = sink_of(alloc, 65_536, outside.err_fails)?;
    Ok(Ports {
        git,
        gpgv,
        room,
        out,
        err,
    })
}

// The status of words over these ports.
fn status_of(
    alloc: Global,
    line: &str,
    ports: &mut Ports,
    keeper: &mut MemKeeper,
) -> Result<u8, AllocError> {
    let words = words_in(alloc, line)?;
    match read_words(alloc, &words)? {
        Some(Command::Authenticate(plan)) => Ok(run_authenticate(
            alloc,
            &plan,
            &mut ports.git,
            &mut ports.gpgv,
            keeper,
            &mut ports.room,
            &mut ports.out,
            &mut ports.err,
        )),
        _ => Ok(2),
    }
}

// Whether bytes are this text, with its names replaced.
fn is_text(alloc: Global, world: &World, bytes: &[u8], want: &str) -> bool {
    match expanded(alloc, world, want) {
        Ok(text) => bytes == text.as_str().as_bytes(),
        Err(_) => false,
    }
}

/// Whether words over a world, a file `h` and a keeper show what is wanted.
pub fn shows(
    alloc: Global,
    world: &World,
    file: &str,
    keeper: &mut MemKeeper,
    outside: &Outside,
    words: &str,
    want: &Want,
) -> bool {
    let Ok(line) = expanded(alloc, world, words) else {
        return false;
    };
    let Ok(mut ports) = ports_of(alloc, world, file, outside) else {
        return false;
    };
    let Ok(status) = status_of(alloc, line.as_str(), &mut ports, keeper) else {
        return false;
    };
    status == want.status
        && ports.gpgv.asked() == want.asked
        && is_text(alloc, world, ports.err.taken(), want.err)
        && is_text(alloc, world, ports.out.taken(), want.out)
}

/// The same of a script, where no call fails and nothing is kept before.
pub fn script_shows(alloc: Global, script: &str, file: &str, words: &str, want: &Want) -> bool {
    let Ok(world) = build(alloc, script.as_bytes(), ".") else {
        return false;
    };
    match empty_keeper(alloc, 0) {
        Ok(mut keeper) => shows(alloc, &world, file, &mut keeper, &WELL, words, want),
        Err(_) => false,
    }
}

/// Whether this text is kept under a key, with the names of both replaced.
pub fn keeps(alloc: Global, world: &World, keeper: &mut MemKeeper, key: &str, want: &str) -> bool {
    let Ok(key) = expanded(alloc, world, key) else {
        return false;
    };
    match keeper.load(alloc, key.as_str()) {
        Ok(Some(value)) => is_text(alloc, world, value.as_slice(), want),
        _ => false,
    }
}
