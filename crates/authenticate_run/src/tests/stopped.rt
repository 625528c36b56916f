//! What stops a check before any commit is judged.
use crate::tests::scripted::{Want, script_shows};
use std::alloc::Global;

const SCRIPT: &str = "key a\ncommit i - a a\n";

// Whether words with a file `h` are stopped with this line, before any question.
fn is_stopped(alloc: Global, file: &str, words: &str, err: &'static str) -> bool {
    let want = Want {
        status: 3,
        out: "",
        err,
        asked: 0,
    };
    script_shows(alloc, SCRIPT, file, words, &want)
}

// Words, and the line.
static NAMES: [(&str, &str); 4] = [
    (
        "authenticate <i> <key a> --end=nope",
        "guix-auth: target commit: missing\n",
    ),
    (
        "authenticate 0000000000000000000000000000000000000000 <key a>",
        "guix-auth: introduction commit: missing\n",
    ),
    (
        "authenticate <i> <key a> --keyring=nope",
        "guix-auth: keyring branch: missing\n",
    ),
    (
        "authenticate <i> <key a> --repository=elsewhere",
        "guix-auth: target commit: missing\n",
    ),
];

#[test]
fn names_that_stand_for_nothing_are_told(rt: HostRuntime) {
    for (place, (words, err)) in NAMES.iter().enumerate() {
        assert!(rt; is_stopped(rt.alloc(), "", words, err), "case {place}");
    }
}

// The file, and the line.
static FILES: [(&str, &str); 3] = [
    ("", "guix-auth: file h is missing\n"),
    (
        "(authorizations (version 1) ())",
        "guix-auth: file h: authorizations version 1 is not supported\n",
    ),
    (
        "(authorizations (version 0) ((\"A0A0\")))",
        "guix-auth: file h: entry 0 has no valid fingerprint\n",
    ),
];

#[test]
fn a_file_that_gives_no_keys_is_told(rt: HostRuntime) {
    let words = "authenticate <i> <key a> --historical-authorizations=h";
    for (place, (file, err)) in FILES.iter().enumerate() {
        assert!(rt; is_stopped(rt.alloc(), file, words, err), "case {place}");
    }
}
