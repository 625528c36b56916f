//! Words and their commands.
use crate::{ChannelsPlan, Command, Plan, read_words};
use child_ports::{Fingerprint, Text, Words};
use object_frames::Id;
use std::alloc::{AllocError, Global};
use std::process::Abort;
use std::test::Fail;

const INTRO: &str = "c5b3951a7b98ca49d3fa7d4530956973151cf076";

const UPPER_INTRO: &str = "C5B3951A7B98CA49D3FA7D4530956973151CF076";

const SIGNER: &str = "B4754DB47B6A4BC3DCFFB18A9480FD267E05848C";

const SPACED_SIGNER: &str = "b475 4DB4 7B6A 4BC3 DCFF  B18A 9480 FD26 7E05 848c";

const DEFAULT_KEY: &str = "git-c5b3951a7b98ca49d3fa7d4530956973151cf076";

// What a plan has beside its introduction and signer.
#[derive(Clone, Copy, Drop)]
struct Want {
    repository: &'static str,
    keyring: &'static str,
    end: &'static str,
    stats: bool,
    cache_key: &'static str,
    historical: Option<&'static str>,
}

const DEFAULTS: Want = Want {
    repository: ".",
    keyring: "keyring",
    end: "HEAD",
    stats: false,
    cache_key: DEFAULT_KEY,
    historical: None,
};

const EACH: Want = Want {
    repository: "D",
    keyring: "K",
    end: "E",
    stats: true,
    cache_key: "C",
    historical: Some("H"),
};

// What an option gives beside the defaults.
#[derive(Clone, Copy, Drop)]
enum Given {
    Nothing,
    Repository(&'static str),
    Keyring(&'static str),
    End(&'static str),
    CacheKey(&'static str),
    Historical(&'static str),
    Stats,
    All,
}

use Given::{All, CacheKey, End, Historical, Keyring, Nothing, Repository, Stats};

fn want_of(given: Given) -> Want {
    let mut want = DEFAULTS;
    match given {
        Nothing => (),
        Repository(repository) => want.repository = repository,
        Keyring(keyring) => want.keyring = keyring,
        End(end) => want.end = end,
        CacheKey(key) => want.cache_key = key,
        Historical(file) => want.historical = Some(file),
        Stats => want.stats = true,
        All => want = EACH,
    }
    want
}

fn text_of(alloc: Global, text: &str) -> Result<Text, AllocError> {
    let mut copy = Text::new(alloc);
    copy.push(text)?;
    Ok(copy)
}

// The words of a line, which a blank parts. `I` stands for the introduction, `S` for its signer.
fn words_of(alloc: Global, line: &str) -> Result<Words, AllocError> {
    let mut words = Words::new(alloc);
    for part in line.split(' ') {
        let word = match part {
            "I" => INTRO,
            "S" => SIGNER,
            other => other,
        };
        words.push(text_of(alloc, word)?)?;
    }
    Ok(words)
}

fn same_file(file: &Option<Text>, want: Option<&str>) -> bool {
    match file {
        Some(file) => want == Some(file.as_str()),
        None => want.is_none(),
    }
}

// Whether a plan is the wanted one, of the introduction and signer of all rows.
fn is_wanted(plan: &Plan, want: &Want) -> bool {
    Id::of_hex(INTRO.as_bytes()) == Some(plan.intro)
        && Fingerprint::of_text(SIGNER) == Some(plan.signer)
        && plan.repository.as_str() == want.repository
        && plan.keyring.as_str() == want.keyring
        && plan.end.as_str() == want.end
        && plan.stats == want.stats
        && plan.cache_key.as_str() == want.cache_key
        && same_file(&plan.historical, want.historical)
}

// Whether words state the wanted plan, or no command.
fn states(alloc: Global, words: &Words, want: Option<&Want>) -> Result<bool, AllocError> {
    let command = read_words(alloc, words)?;
    Ok(match (&command, want) {
        (Some(Command::Authenticate(plan)), Some(want)) => is_wanted(plan, want),
        (None, None) => true,
        _ => false,
    })
}

fn gives(alloc: Global, line: &str, want: &Want) -> Result<bool, AllocError> {
    let words = words_of(alloc, line)?;
    states(alloc, &words, Some(want))
}

fn is_no_command(alloc: Global, line: &str) -> Result<bool, AllocError> {
    let words = words_of(alloc, line)?;
    states(alloc, &words, None)
}

// The words, and what they give.
static PLANS: [(&str, Given); 37] = [
    ("authenticate I S", Nothing),
    ("authenticate -- I S", Nothing),
    ("authenticate I -- S", Nothing),
    ("authenticate I S --", Nothing),
    ("authenticate I S -r DIR", Repository("DIR")),
    ("authenticate I S -rDIR", Repository("DIR")),
    ("authenticate I S -r=DIR", Repository("DIR")),
    ("authenticate I S -r==DIR", Repository("=DIR")),
    ("authenticate I S -r=-DIR", Repository("-DIR")),
    ("authenticate I S -r-DIR", Repository("-DIR")),
    ("authenticate I S -r -", Repository("-")),
    ("authenticate I S -r I", Repository(INTRO)),
    ("authenticate I S --repository DIR", Repository("DIR")),
    ("authenticate I S --repository=DIR", Repository("DIR")),
    ("authenticate I S --repository==D=R", Repository("=D=R")),
    ("authenticate I S --repository=--", Repository("--")),
    ("authenticate -r DIR I S", Repository("DIR")),
    ("authenticate I -r DIR S", Repository("DIR")),
    ("authenticate -rkeyring -- I S", Repository("keyring")),
    ("authenticate I S -k REF", Keyring("REF")),
    ("authenticate I S -kREF", Keyring("REF")),
    ("authenticate I S -k=REF", Keyring("REF")),
    ("authenticate I S -k -", Keyring("-")),
    ("authenticate I S --keyring REF", Keyring("REF")),
    ("authenticate I S --keyring=REF", Keyring("REF")),
    ("authenticate I S --end v1.0", End("v1.0")),
    ("authenticate I S --end=v1.0", End("v1.0")),
    ("authenticate I S --end=-x", End("-x")),
    ("authenticate I S --cache-key a/b", CacheKey("a/b")),
    (
        "authenticate I S --cache-key=aZ09-_+./...",
        CacheKey("aZ09-_+./..."),
    ),
    (
        "authenticate I S --cache-key=deployed",
        CacheKey("deployed"),
    ),
    (
        "authenticate I S --cache-key=deployed+/x",
        CacheKey("deployed+/x"),
    ),
    (
        "authenticate I S --historical-authorizations h",
        Historical("h"),
    ),
    (
        "authenticate I S --historical-authorizations=h",
        Historical("h"),
    ),
    ("authenticate --stats I S", Stats),
    ("authenticate -rDIR -k=keyring -- I S", Repository("DIR")),
    (
        "authenticate --end=E -k K --stats -rD --historical-authorizations=H --cache-key C I S",
        All,
    ),
];

#[test]
fn a_plan_has_what_its_options_give(rt: HostRuntime) -> Result<(), Fail> {
    for (line, given) in &PLANS {
        assert!(rt; gives(rt.alloc(), line, &want_of(*given))?, "at {line}");
    }
    Ok(())
}

static OTHER_WORDS: [&str; 76] = [
    "",
    "I S",
    "help",
    "-h",
    "--help --help",
    "--help authenticate I S",
    "--stats authenticate I S",
    "authenticat I S",
    "Authenticate I S",
    "authenticate",
    "authenticate I",
    "authenticate I S x",
    "authenticate I S -",
    "authenticate I S  ",
    "authenticate - S",
    "authenticate I S --help",
    "authenticate I S -h",
    "authenticate I S -x",
    "authenticate I S -sr DIR",
    "authenticate I S -- --stats",
    "authenticate I -- -- S",
    "authenticate -- -r DIR I S",
    "authenticate I S -r",
    "authenticate I S -r=",
    "authenticate I S -r --",
    "authenticate I S -r -x",
    "authenticate I S -r -k REF",
    "authenticate I S --repository",
    "authenticate I S --repository=",
    "authenticate I S --repository -x",
    "authenticate I S --repository ",
    "authenticate I S -rDIR -rDIR",
    "authenticate I S -rDIR --repository=DIR",
    "authenticate I S --repository DIR --repository DIR",
    "authenticate I S --repo=x",
    "authenticate I S --repositoryx=x",
    "authenticate I S --Repository=x",
    "authenticate I S --r=x",
    "authenticate I S --=x",
    "authenticate I S ---stats",
    "authenticate I S -k",
    "authenticate I S -k=",
    "authenticate I S -kREF --keyring REF",
    "authenticate I S --keyring=",
    "authenticate I S --end",
    "authenticate I S --end -x",
    "authenticate I S --end --",
    "authenticate I S --end=",
    "authenticate I S --end=a --end=a",
    "authenticate I S -e x",
    "authenticate I S --stats --stats",
    "authenticate I S --stats=",
    "authenticate I S --stats=x",
    "authenticate I S --stat",
    "authenticate I S --stats x",
    "authenticate I S -s",
    "authenticate I S --cache-key",
    "authenticate I S --cache-key=",
    "authenticate I S --cache-key=a --cache-key=a",
    "authenticate I S --cache-key=a//b",
    "authenticate I S --cache-key=/a",
    "authenticate I S --cache-key=a/",
    "authenticate I S --cache-key=./a",
    "authenticate I S --cache-key=a/..",
    "authenticate I S --cache-key=..",
    "authenticate I S --cache-key=a/./b",
    "authenticate I S --cache-key=a~b",
    "authenticate I S --cache-key=é",
    "authenticate I S --cache-key=deployed/x",
    "authenticate I S --historical-authorizations",
    "authenticate I S --historical-authorizations=",
    "authenticate I S --historical-authorizations=h --historical-authorizations=h",
    "authenticate I S --historical=h",
    "authenticate I S --end=a\u{1f}",
    "authenticate I S --end=a\u{7f}",
    "authenticate I S -ra\n",
];

#[test]
fn other_words_state_no_command(rt: HostRuntime) -> Result<(), Fail> {
    for line in &OTHER_WORDS {
        assert!(rt; is_no_command(rt.alloc(), line)?, "at {line}");
    }
    Ok(())
}

#[test]
fn help_is_asked_for_alone(rt: HostRuntime) -> Result<(), Fail> {
    match read_words(rt.alloc(), &words_of(rt.alloc(), "--help")?)? {
        Some(Command::Help) => Ok(()),
        _ => panic!(&rt; "no help"),
    }
}

// The words of a commit and of a signer, and whether they are a command.
static SPELLINGS: [(&str, &str, bool); 3] = [
    (UPPER_INTRO, SIGNER, true),
    (INTRO, SPACED_SIGNER, true),
    (SPACED_SIGNER, SIGNER, false),
];

fn is_read(alloc: Global, commit: &str, signer: &str, read: bool) -> Result<bool, AllocError> {
    let mut words = words_of(alloc, "authenticate")?;
    words.push(text_of(alloc, commit)?)?;
    words.push(text_of(alloc, signer)?)?;
    if read {
        return states(alloc, &words, Some(&DEFAULTS));
    }
    states(alloc, &words, None)
}

#[test]
fn an_id_and_a_fingerprint_have_digits_of_either_case(rt: HostRuntime) -> Result<(), Fail> {
    for (commit, signer, read) in &SPELLINGS {
        assert!(rt;
            is_read(rt.alloc(), commit, signer, *read)?,
            "at {commit} and {signer}"
        );
    }
    Ok(())
}

// Whether words are a command with one more word: a text with so many `x` behind it.
fn is_command(alloc: Global, line: &str, front: &str, count: usize) -> Result<bool, AllocError> {
    let mut words = words_of(alloc, line)?;
    let mut word = text_of(alloc, front)?;
    for _ in 0..count {
        word.push("x")?;
    }
    words.push(word)?;
    Ok(read_words(alloc, &words)?.is_some())
}

// What a last word begins with, how many `x` follow, and whether the words are a command.
static LENGTHS: [(&str, usize, bool); 12] = [
    ("--historical-authorizations=", 4068, true),
    ("--historical-authorizations=", 4069, false),
    ("-r", 4094, true),
    ("-r", 4095, false),
    ("--keyring=", 900, true),
    ("--keyring=", 901, false),
    ("--end=", 900, true),
    ("--end=", 901, false),
    ("--cache-key=", 200, true),
    ("--cache-key=", 201, false),
    ("--cache-key=a/", 198, true),
    ("--cache-key=a/", 199, false),
];

#[test]
fn words_and_values_have_their_longest(rt: HostRuntime) -> Result<(), Fail> {
    for (front, count, want) in &LENGTHS {
        let is = is_command(rt.alloc(), "authenticate I S", front, *count)?;
        assert!(rt; is == *want, "at {front} and {count} more");
    }
    Ok(())
}

#[test]
fn there_are_at_most_64_words(rt: HostRuntime) -> Result<(), Fail> {
    for count in [63, 64, 65] {
        let mut words = words_of(rt.alloc(), "authenticate I S")?;
        for _ in 3..count {
            words.push(text_of(rt.alloc(), "--stats")?)?;
        }
        assert!(rt;
            read_words(rt.alloc(), &words)?.is_none(),
            "of {count} words"
        );
    }
    Ok(())
}

// The words, and the file, the folder of clones, whether a channel may go back and whether channels are checked.
static SETS: [(&str, &str, &str, bool, bool); 16] = [
    ("channels F --clones=D", "F", "D", false, true),
    ("channels F --clones D", "F", "D", false, true),
    ("channels --clones=D F", "F", "D", false, true),
    ("channels --clones D F", "F", "D", false, true),
    ("channels --clones=D -- F", "F", "D", false, true),
    ("channels F --clones=D --", "F", "D", false, true),
    (
        "channels --clones=D -- --clones",
        "--clones",
        "D",
        false,
        true,
    ),
    ("channels - --clones=D", "-", "D", false, true),
    ("channels F --clones -", "F", "-", false, true),
    ("channels F --clones=-D", "F", "-D", false, true),
    ("channels F --clones==D=E", "F", "=D=E", false, true),
    ("channels channels --clones=D", "channels", "D", false, true),
    (
        "channels F --clones=D --allow-downgrades",
        "F",
        "D",
        true,
        true,
    ),
    (
        "channels --allow-downgrades F --clones D",
        "F",
        "D",
        true,
        true,
    ),
    (
        "channels F --disable-authentication --clones=D",
        "F",
        "D",
        false,
        false,
    ),
    (
        "channels --disable-authentication --clones D --allow-downgrades F",
        "F",
        "D",
        true,
        false,
    ),
];

fn is_wanted_set(plan: &ChannelsPlan, file: &str, clones: &str, allow: bool, check: bool) -> bool {
    plan.file.as_str() == file
        && plan.clones.as_str() == clones
        && plan.allow_downgrades == allow
        && plan.check == check
}

fn channels_of(alloc: Global, line: &str) -> Result<Option<ChannelsPlan>, AllocError> {
    let words = words_of(alloc, line)?;
    match read_words(alloc, &words)? {
        Some(Command::Channels(plan)) => Ok(Some(plan)),
        _ => Ok(None),
    }
}

#[test]
fn a_plan_of_channels_has_what_its_words_give(rt: HostRuntime) -> Result<(), Fail> {
    for (line, file, clones, allow, check) in &SETS {
        let Some(plan) = channels_of(rt.alloc(), line)? else {
            panic!(rt; "{line} isn't taken for channels");
        };
        assert!(rt;
            is_wanted_set(&plan, file, clones, *allow, *check),
            "at {line}"
        );
    }
    Ok(())
}

static OTHER_CHANNELS: [&str; 33] = [
    "channels",
    "channels F",
    "channels --clones=D",
    "channels F --clones",
    "channels F --clones=",
    "channels F --clones ",
    "channels  --clones=D",
    "channels F G --clones=D",
    "channels F --clones D G",
    "channels F -- --clones=D",
    "channels F --clones --",
    "channels F --clones -D",
    "channels F --clones --allow-downgrades",
    "channels F --clones=D --clones=D",
    "channels F --clones D --clones=E",
    "channels F --clone=D",
    "channels F -c D",
    "channels F --clones=D --allow-downgrades=",
    "channels F --clones=D --allow-downgrades=true",
    "channels F --clones=D --allow-downgrades --allow-downgrades",
    "channels F --clones=D --allow",
    "channels F --clones=D --disable-authentication=x",
    "channels F --clones=D --disable-authentication --disable-authentication",
    "channels F --clones=D --disable",
    "channels F --clones=D -r D",
    "channels F --clones=D --repository=D",
    "channels F --clones=D --stats",
    "channels F --clones=D --help",
    "channels F --clones=D -x",
    "channels F --clones=D\n",
    "channel F --clones=D",
    "authenticate I S --clones=D",
    "authenticate I S --allow-downgrades",
];

#[test]
fn other_words_state_no_channels(rt: HostRuntime) -> Result<(), Fail> {
    for line in &OTHER_CHANNELS {
        assert!(rt; is_no_command(rt.alloc(), line)?, "at {line}");
    }
    Ok(())
}
