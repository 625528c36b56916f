//! Lists of channels: statuses, texts and records.
use crate::run_channels;
use auth_words::{Command, read_words};
use child_ports::{
    Bytes, Keeper, MemGit, MemKeeper, MemRoom, MemSig, MemSink, Numbers, Pair, Pairs, Text, Words,
    rows_fit,
};
use object_frames::Id;
use stand_world::{World, build};
use std::alloc::{AllocError, Global};
use std::process::Abort;
use std::str;
use std::test::Fail;

const MAIN: &str = "key a
meta (channel (version 0) (url \"https://main.example/m\") (dependencies (channel (name extra) (url \"https://e.example/x\"))))
commit i - a a
commit c i a a
branch master c
";

const ALONE: &str = "key a
commit i - a a
commit c i a a
branch master c
";

const FORKED: &str = "key a
commit i - a a
commit c i a a
commit x i a a
branch master c
";

const EXTRA: &str = "key a
commit e - a a
branch master e
";

const LIST: &str =
    "(list (channel (name 'main) (url \"https://m.example/m\") (introduction (make-channel-introduction \"<i>\" (openpgp-fingerprint \"<key a>\")))))";

const LIST_AT_I: &str =
    "(list (channel (name 'main) (url \"https://m.example/m\") (commit \"<i>\") (introduction (make-channel-introduction \"<i>\" (openpgp-fingerprint \"<key a>\")))))";

const ZEROS: &str = "0000000000000000000000000000000000000000\n";

// The histories of the channels `main` and `extra`.
#[derive(Drop)]
struct Histories {
    main: World,
    extra: World,
}

fn world_of(rt: &impl Abort, alloc: Global, script: &str, dir: &str) -> World {
    match build(alloc, script.as_bytes(), dir) {
        Ok(world) => world,
        Err(_) => panic!(rt; "a script is at fault"),
    }
}

fn histories_of(rt: &impl Abort, alloc: Global, main: &str) -> Histories {
    let main = world_of(rt, alloc, main, "clones/main");
    let extra = world_of(rt, alloc, EXTRA, "clones/extra");
    Histories { main, extra }
}

// The digits of a commit's id, or else of the fingerprint of the key a.
fn digits_of(rt: &impl Abort, worlds: &Histories, name: &str) -> [u8; 40] {
    let mut digits = [0u8; 40];
    if let Some(id) = worlds.main.id(name) {
        id.write_hex(&mut digits);
    } else if let Some(id) = worlds.extra.id(name) {
        id.write_hex(&mut digits);
    } else if let Some(key) = worlds.main.key("a") {
        key.write_hex(&mut digits);
    } else {
        panic!(rt; "a name is declared");
    }
    digits
}

fn push_named(
    rt: &impl Abort,
    text: &mut Text,
    worlds: &Histories,
    name: &str,
) -> Result<(), AllocError> {
    let digits = digits_of(rt, worlds, name);
    match str::from_utf8(&digits) {
        Ok(digits) => text.push(digits),
        Err(_) => panic!(rt; "digits are ASCII"),
    }
}

// Adds a piece of a pattern that was cut at the brackets that open: a name with what follows it, or text alone.
fn push_piece(
    rt: &impl Abort,
    text: &mut Text,
    worlds: &Histories,
    piece: &str,
) -> Result<(), AllocError> {
    let mut halves = piece.split('>');
    let half = halves.next().unwrap_or("");
    match halves.next() {
        None => text.push(half),
        Some(rest) => {
            push_named(rt, text, worlds, half)?;
            text.push(rest)
        }
    }
}

// A text with its names in brackets replaced by what they stand for.
fn expanded(
    rt: &impl Abort,
    alloc: Global,
    worlds: &Histories,
    pattern: &str,
) -> Result<Text, AllocError> {
    let mut text = Text::new(alloc);
    for piece in pattern.split('<') {
        push_piece(rt, &mut text, worlds, piece)?;
    }
    Ok(text)
}

fn text_of(alloc: Global, part: &str) -> Result<Text, AllocError> {
    let mut text = Text::new(alloc);
    text.push(part)?;
    Ok(text)
}

fn only(alloc: Global, number: u64) -> Result<Numbers, AllocError> {
    let mut numbers = Numbers::new(alloc);
    if number > 0 {
        numbers.push(number)?;
    }
    Ok(numbers)
}

fn pair_of(
    rt: &impl Abort,
    alloc: Global,
    worlds: &Histories,
    key: &str,
    value: &str,
) -> Result<Pair, AllocError> {
    let value = expanded(rt, alloc, worlds, value)?;
    let value = Bytes::from_slice(alloc, value.as_str().as_bytes())?;
    let key = text_of(alloc, key)?;
    Ok(Pair { key, value })
}

// One pair; without a value none.
fn pairs_of(
    rt: &impl Abort,
    alloc: Global,
    worlds: &Histories,
    key: &str,
    value: &str,
) -> Result<Pairs, AllocError> {
    let mut pairs = Pairs::new(alloc);
    if !value.is_empty() {
        pairs.push(pair_of(rt, alloc, worlds, key, value)?)?;
    }
    Ok(pairs)
}

fn git_over(rt: &impl Abort, alloc: Global, worlds: &Histories) -> Result<MemGit, AllocError> {
    let mut rows = worlds.main.git_rows(alloc)?;
    for row in worlds.extra.git_rows(alloc)?.into_vec() {
        rows.push(row)?;
    }
    assert!(rt; rows_fit(&rows));
    MemGit::new(alloc, rows, Numbers::new(alloc), Numbers::new(alloc))
}

fn gpgv_over(alloc: Global, worlds: &Histories, fails: u64) -> Result<MemSig, AllocError> {
    let fails = only(alloc, fails)?;
    let mut rows = worlds.main.sig_rows(alloc)?;
    for row in worlds.extra.sig_rows(alloc)?.into_vec() {
        rows.push(row)?;
    }
    MemSig::new(alloc, rows, fails)
}

// The file `list`.
fn room_over(
    rt: &impl Abort,
    alloc: Global,
    worlds: &Histories,
    list: &str,
) -> Result<MemRoom, AllocError> {
    let files = pairs_of(rt, alloc, worlds, "list", list)?;
    MemRoom::new(alloc, &files, Numbers::new(alloc))
}

fn sink(alloc: Global, fails: u64) -> Result<MemSink, AllocError> {
    let fails = only(alloc, fails)?;
    MemSink::new(alloc, 65_536, fails)
}

// A run: the file that it names, the list in the file `list`, whether a channel may go back, whether channels are checked, and
// which calls of gpgv and of standard error fail.
struct Case {
    file: &'static str,
    list: &'static str,
    allow: bool,
    check: bool,
    gpgv_fails: u64,
    err_fails: u64,
}

const PLAIN: Case = Case {
    file: "list",
    list: LIST,
    allow: false,
    check: true,
    gpgv_fails: 0,
    err_fails: 0,
};

const AT_I: Case = Case {
    list: LIST_AT_I,
    ..PLAIN
};

const AT_I_ALLOWED: Case = Case {
    allow: true,
    ..AT_I
};

const ALLOWED: Case = Case {
    allow: true,
    ..PLAIN
};

const UNCHECKED: Case = Case {
    check: false,
    ..PLAIN
};

const SILENT: Case = Case {
    err_fails: 1,
    ..PLAIN
};

const BROKEN: Case = Case {
    gpgv_fails: 3,
    ..PLAIN
};

const NO_FILE: Case = Case {
    file: "none",
    ..PLAIN
};

const EVALUATED: Case = Case {
    list: "(cons (channel) %default-channels)",
    ..PLAIN
};

const UNNAMED: Case = Case {
    list: "(list (channel (name '-) (url \"u\")))",
    ..PLAIN
};

const UNFINISHED: Case = Case {
    list: "(list",
    ..PLAIN
};

// What a run is to show: its status, its output, what it puts on standard error, and how often gpgv is asked.
type Want = (u8, &'static str, &'static str, u64);

// The ports of a run, but for its keeper.
#[derive(Drop)]
struct Ports {
    git: MemGit,
    gpgv: MemSig,
    room: MemRoom,
    out: MemSink,
    err: MemSink,
}

fn ports_of(
    rt: &impl Abort,
    alloc: Global,
    worlds: &Histories,
    case: &Case,
) -> Result<Ports, AllocError> {
    let git = git_over(rt, alloc, worlds)?;
    let gpgv = gpgv_over(alloc, worlds, case.gpgv_fails)?;
    let room = room_over(rt, alloc, worlds, case.list)?;
    let out = sink(alloc, 0)?;
    let err = sink(alloc, case.err_fails)?;
    Ok(Ports {
        git,
        gpgv,
        room,
        out,
        err,
    })
}

fn push_word(alloc: Global, words: &mut Words, word: &str) -> Result<(), AllocError> {
    words.push(text_of(alloc, word)?)
}

// The words of a run.
fn words_for(alloc: Global, case: &Case) -> Result<Words, AllocError> {
    let mut words = Words::new(alloc);
    push_word(alloc, &mut words, "channels")?;
    push_word(alloc, &mut words, case.file)?;
    push_word(alloc, &mut words, "--clones=clones")?;
    if case.allow {
        push_word(alloc, &mut words, "--allow-downgrades")?;
    }
    if !case.check {
        push_word(alloc, &mut words, "--disable-authentication")?;
    }
    Ok(words)
}

fn status_of(
    alloc: Global,
    case: &Case,
    ports: &mut Ports,
    keeper: &mut MemKeeper,
) -> Result<u8, AllocError> {
    let words = words_for(alloc, case)?;
    match read_words(alloc, &words)? {
        Some(Command::Channels(plan)) => Ok(run_channels(
            alloc,
            &plan,
            &mut ports.git,
            &mut ports.gpgv,
            keeper,
            &mut ports.room,
            &mut ports.out,
            &mut ports.err,
        )),
        _ => Ok(2),
    }
}

// Whether a sink has taken this text.
fn has_taken(
    rt: &impl Abort,
    alloc: Global,
    worlds: &Histories,
    sink: &MemSink,
    want: &str,
) -> bool {
    match expanded(rt, alloc, worlds, want) {
        Ok(text) => sink.taken() == text.as_str().as_bytes(),
        Err(_) => false,
    }
}

// Whether a run over two histories and a keeper shows what it is to show.
fn shows(
    rt: &impl Abort,
    alloc: Global,
    worlds: &Histories,
    keeper: &mut MemKeeper,
    case: &Case,
    want: &Want,
) -> Result<bool, AllocError> {
    let (status, out, err, asked) = *want;
    let mut ports = ports_of(rt, alloc, worlds, case)?;
    Ok(
        status_of(alloc, case, &mut ports, keeper)? == status
            && ports.gpgv.asked() == asked
            && has_taken(rt, alloc, worlds, &ports.err, err)
            && has_taken(rt, alloc, worlds, &ports.out, out),
    )
}

// A keeper with this record, of which the call of this number fails. An empty one stands for none.
fn keeper_with(
    rt: &impl Abort,
    alloc: Global,
    worlds: &Histories,
    key: &str,
    value: &str,
    fails: u64,
) -> Result<MemKeeper, AllocError> {
    let fails = only(alloc, fails)?;
    let pairs = pairs_of(rt, alloc, worlds, key, value)?;
    MemKeeper::new(alloc, &pairs, fails)
}

// Whether a value is kept under this key, or not, as is wanted.
fn keeps(alloc: Global, keeper: &mut MemKeeper, key: &str, want: bool) -> bool {
    match keeper.load(alloc, key) {
        Ok(value) => value.is_some() == want,
        Err(_) => false,
    }
}

const BACK: &str = "guix-auth: channel main would go back from <c> to <i>\n";

// the runs over one keeper, and what they are to show
static MOVES: [(Case, Want); 4] = [
    (PLAIN, (0, "main <c> new authentic\n", "", 2)),
    (PLAIN, (0, "main <c> same authentic\n", "", 1)),
    (AT_I, (1, "", BACK, 1)),
    (AT_I_ALLOWED, (0, "main <i> back authentic\n", "", 1)),
];

#[test]
fn a_channel_is_recorded_and_stays(rt: HostRuntime) -> Result<(), Fail> {
    let alloc = rt.alloc();
    let worlds = histories_of(&rt, alloc, ALONE);
    let mut keeper = keeper_with(&rt, alloc, &worlds, "", "", 0)?;
    for (place, (case, want)) in MOVES.iter().enumerate() {
        let shown = shows(&rt, alloc, &worlds, &mut keeper, case, want)?;
        let kept = keeps(alloc, &mut keeper, "channels/main", true)
            && keeps(alloc, &mut keeper, "deployed/main", true);
        assert!(rt; shown && kept, "case {place}");
    }
    assert_eq!(rt; keeper.stores(), 2);
    Ok(())
}

const MAIN_LOST: &str =
    "guix-auth: channel main: deployed commit 0000000000000000000000000000000000000000 is missing\n";

const BAD: &str = "guix-auth: channel main: bad deployed record\n";

const OTHER: &str = "guix-auth: channel main would move from <x> to unrelated <c>\n";

const TO_UNRELATED: &str = "main <c> unrelated authentic\n";

const FORWARD: &str = "main <c> forward unchecked\n";

// the record of `main`, the run, what it is to show, and whether its cache is kept
static RECORDS: [(&str, Case, Want, bool); 6] = [
    (ZEROS, PLAIN, (1, "", MAIN_LOST, 2), false),
    (
        ZEROS,
        ALLOWED,
        (0, "main <c> lost authentic\n", "", 2),
        true,
    ),
    ("x", PLAIN, (3, "", BAD, 2), false),
    ("<x>\n", PLAIN, (1, "", OTHER, 2), false),
    ("<x>\n", ALLOWED, (0, TO_UNRELATED, "", 2), true),
    ("<i>\n", UNCHECKED, (0, FORWARD, "", 0), false),
];

#[test]
fn a_record_decides_about_the_move(rt: HostRuntime) -> Result<(), Fail> {
    let alloc = rt.alloc();
    let worlds = histories_of(&rt, alloc, FORKED);
    for (place, (record, case, want, stored)) in RECORDS.iter().enumerate() {
        let mut keeper = keeper_with(&rt, alloc, &worlds, "deployed/main", record, 0)?;
        let shown = shows(&rt, alloc, &worlds, &mut keeper, case, want)?;
        let kept = keeps(alloc, &mut keeper, "channels/main", *stored);
        assert!(rt; shown && kept, "case {place}");
    }
    Ok(())
}

const WARNINGS: &str =
    "guix-auth: warning: channel main is fetched from https://m.example/m, a mirror of https://main.example/m
guix-auth: warning: channel extra has no introduction and is not authenticated
";

const LINES: &str = "main <c> new authentic\nextra <e> new unchecked\n";

const EXTRA_LOST: &str =
    "guix-auth: channel extra: deployed commit 0000000000000000000000000000000000000000 is missing\n";

const GPGV_FAILED: &str = "guix-auth: gpgv failed\n";

const STORE_FAILED: &str = "guix-auth: the store failed\n";

// the record of `extra`, the keeper's call that fails, the run, what it is to show, and whether the pairs of `main` are kept and
// a record of `extra` is
static SETS: [(&str, u64, Case, Want, bool, bool); 6] = [
    ("", 0, PLAIN, (0, LINES, WARNINGS, 2), true, true),
    (ZEROS, 0, PLAIN, (1, "", EXTRA_LOST, 2), false, true),
    ("", 0, SILENT, (5, "", "", 2), true, true),
    ("", 0, BROKEN, (4, "", GPGV_FAILED, 2), false, false),
    ("", 1, PLAIN, (5, "", STORE_FAILED, 0), false, false),
    ("", 4, PLAIN, (5, "", STORE_FAILED, 2), false, false),
];

// Whether the pairs of `main` and the record of `extra` are kept, or not, as is wanted.
fn keeps_set(alloc: Global, keeper: &mut MemKeeper, main: bool, extra: bool) -> bool {
    keeps(alloc, keeper, "channels/main", main)
        && keeps(alloc, keeper, "deployed/main", main)
        && keeps(alloc, keeper, "deployed/extra", extra)
}

#[test]
fn a_set_is_kept_whole_or_not_at_all(rt: HostRuntime) -> Result<(), Fail> {
    let alloc = rt.alloc();
    let worlds = histories_of(&rt, alloc, MAIN);
    for (place, (record, fails, case, want, main, extra)) in SETS.iter().enumerate() {
        let mut keeper = keeper_with(&rt, alloc, &worlds, "deployed/extra", record, *fails)?;
        let shown = shows(&rt, alloc, &worlds, &mut keeper, case, want)?;
        let kept = keeps_set(alloc, &mut keeper, *main, *extra);
        assert!(rt; shown && kept, "case {place}");
    }
    Ok(())
}

const MISSING: &str = "guix-auth: file none is missing\n";

const NO_LIST: &str = "guix-auth: file list: cons would have to be evaluated\n";

const NO_NAME: &str = "guix-auth: file list: channel 0 has no valid name\n";

const NO_END: &str = "guix-auth: file list: unfinished at byte 5\n";

// the run, and what it is to show
static FILES: [(Case, Want); 4] = [
    (NO_FILE, (3, "", MISSING, 0)),
    (EVALUATED, (3, "", NO_LIST, 0)),
    (UNNAMED, (3, "", NO_NAME, 0)),
    (UNFINISHED, (3, "", NO_END, 0)),
];

#[test]
fn a_file_has_to_be_a_list(rt: HostRuntime) -> Result<(), Fail> {
    let alloc = rt.alloc();
    let worlds = histories_of(&rt, alloc, ALONE);
    for (place, (case, want)) in FILES.iter().enumerate() {
        let mut keeper = keeper_with(&rt, alloc, &worlds, "", "", 0)?;
        let shown = shows(&rt, alloc, &worlds, &mut keeper, case, want)?;
        assert!(rt; shown, "case {place}");
    }
    Ok(())
}
