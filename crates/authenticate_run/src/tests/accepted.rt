//! Targets that are accepted.
use crate::tests::scripted::{Want, quiet, script_shows};

const AUTH: &str = "authenticate <i> <key a>";

// Histories, and the number of questions about their targets.
static AUTHORISED: [(&str, u64); 5] = [
    // the introduction itself
    ("key a\ncommit i - a a\n", 1),
    // a child, by the key that its parent lists
    ("key a\nkey b\ncommit i - a a,b\ncommit c i b a,b\n", 2),
    // a merge, by a key that every parent lists
    (
        "key a\nkey b\nkey c\ncommit i - a a,b,c\ncommit p i a a,b\ncommit q i a b,c\ncommit m p,q b b\n",
        4,
    ),
    // the same parent twice
    (
        "key a\nkey b\nkey c\ncommit i - a a,b,c\ncommit p i a a,b\ncommit q i a b,c\ncommit m p,q,q b b\n",
        4,
    ),
    // three parents
    (
        "key a\nkey b\ncommit i - a a,b\ncommit p i a a,b\ncommit q i a b\ncommit r i b b\ncommit m p,q,r b b\n",
        5,
    ),
];

#[test]
fn histories_whose_commits_are_all_authorised_are_accepted(rt: HostRuntime) {
    for (place, (script, asked)) in AUTHORISED.iter().enumerate() {
        let want = quiet(*asked);
        assert!(rt;
            script_shows(rt.alloc(), script, "", AUTH, &want),
            "case {place}"
        );
    }
}

#[test]
fn a_target_before_the_introduction_is_accepted_without_being_judged(rt: HostRuntime) {
    let script = "key a\ncommit o - a a\ncommit i o a a\n";
    let words = "authenticate <i> <key a> --end=<o>";
    assert!(rt; script_shows(rt.alloc(), script, "", words, &quiet(1)));
}

#[test]
fn historical_keys_count_where_a_commit_has_no_file(rt: HostRuntime) {
    let file = "(authorizations (version 0) ((\"<key a>\" (name \"a\"))))";
    let words = "authenticate <i> <key a> --historical-authorizations=h";
    // a root that the introduction doesn't reach
    let root = "key a\ncommit r - a -\ncommit i r a a\ncommit s r a -\ncommit m i,s a a\n";
    assert!(rt; script_shows(rt.alloc(), root, file, words, &quiet(3)));
    // a signature by SHA-1 where no file is there
    let weak = "key a\ncommit i - a -\ncommit c i a/2 -\n";
    assert!(rt; script_shows(rt.alloc(), weak, file, words, &quiet(2)));
}

const BY_TWO: Want = Want {
    status: 0,
    out: "<key a> 1\n<key b> 1\n",
    err: "",
    asked: 3,
};

#[test]
fn statistics_count_the_judged_commits_by_their_signers(rt: HostRuntime) {
    let script = "key a\nkey b\ncommit i - a a\ncommit c1 i a a,b\ncommit c2 c1 b a,b\n";
    let words = "authenticate <i> <key a> --stats";
    assert!(rt; script_shows(rt.alloc(), script, "", words, &BY_TWO));
}

// Words, and the number of questions.
static OPTIONS: [(&str, u64); 3] = [
    (
        "authenticate <i> <key a> -r . -k refs/heads/keyring --end side",
        1,
    ),
    ("authenticate -r. -k=keyring --end=side -- <i> <key a>", 1),
    (
        "authenticate <i> <key a> --repository=. --keyring=keyring",
        2,
    ),
];

#[test]
fn options_name_the_repository_the_branch_and_the_end(rt: HostRuntime) {
    let script = "key a\ncommit i - a a\ncommit c i a a\nbranch side i\n";
    for (place, (words, asked)) in OPTIONS.iter().enumerate() {
        let want = quiet(*asked);
        assert!(rt;
            script_shows(rt.alloc(), script, "", words, &want),
            "case {place}"
        );
    }
}
