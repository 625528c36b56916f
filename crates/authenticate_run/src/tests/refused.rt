//! Targets that are refused, each with the line that names the commit and the cause.
use crate::tests::scripted::{Outside, Want, empty_keeper, script_shows, shows};
use stand_world::build;
use std::test::Fail;

const AUTH: &str = "authenticate <i> <key a>";

// Refused with this line, after so many questions.
fn refused(err: &'static str, asked: u64) -> Want {
    Want {
        status: 1,
        out: "",
        err,
        asked,
    }
}

// Histories, the lines, and the numbers of questions.
static REFUSED: [(&str, &str, u64); 9] = [
    // a key that the parent doesn't list
    (
        "key a\nkey b\ncommit i - a a\ncommit c i b a\n",
        "guix-auth: commit <c> is refused: its signer <key b> is not authorised by every parent\n",
        2,
    ),
    // the commit's own file doesn't count
    (
        "key a\nkey b\ncommit i - a a\ncommit c i b a,b\n",
        "guix-auth: commit <c> is refused: its signer <key b> is not authorised by every parent\n",
        2,
    ),
    // a key that the parent no longer lists
    (
        "key a\nkey b\ncommit i - a a\ncommit c i a b\ncommit d c a b\n",
        "guix-auth: commit <d> is refused: its signer <key a> is not authorised by every parent\n",
        3,
    ),
    // a merge by a key that one parent alone lists
    (
        "key a\nkey b\nkey c\ncommit i - a a,b,c\ncommit p i a a,b\ncommit q i a b,c\ncommit m p,q a b\n",
        "guix-auth: commit <m> is refused: its signer <key a> is not authorised by every parent\n",
        4,
    ),
    (
        "key a\nkey b\nkey c\ncommit i - a a,b,c\ncommit p i a a,b\ncommit q i a b,c\ncommit m p,q,q a b\n",
        "guix-auth: commit <m> is refused: its signer <key a> is not authorised by every parent\n",
        4,
    ),
    // no signature
    (
        "key a\ncommit i - a a\ncommit c i - a\n",
        "guix-auth: commit <c> is refused: it is not signed\n",
        1,
    ),
    // weak hashes
    (
        "key a\ncommit i - a a\ncommit c i a/2 a\n",
        "guix-auth: commit <c> is refused: its signature uses SHA-1\n",
        2,
    ),
    (
        "key a\ncommit i - a a\ncommit c i a/1 a\n",
        "guix-auth: commit <c> is refused: its signature uses MD5\n",
        2,
    ),
    // a root that the introduction doesn't reach, and no historical keys
    (
        "key a\ncommit r - a -\ncommit i r a a\ncommit s r a -\ncommit m i,s a a\n",
        "guix-auth: commit <s> is refused: its signer <key a> is not authorised by every parent\n",
        2,
    ),
];

#[test]
fn the_first_refused_commit_and_its_cause_are_named(rt: HostRuntime) {
    for (place, (script, err, asked)) in REFUSED.iter().enumerate() {
        let want = refused(err, *asked);
        assert!(rt;
            script_shows(rt.alloc(), script, "", AUTH, &want),
            "case {place}"
        );
    }
}

// The same of histories that drop their file.
static DROPPED: [(&str, &str, u64); 2] = [
    (
        "key a\ncommit i - a a\ncommit c i a -\n",
        "guix-auth: commit <c> is refused: it removes .guix-authorizations\n",
        2,
    ),
    (
        "key a\ncommit i - a a\ncommit c i a -\ncommit d c a -\n",
        "guix-auth: commit <c> is refused: it removes .guix-authorizations\n",
        2,
    ),
];

#[test]
fn a_dropped_file_is_refused_also_with_historical_keys(rt: HostRuntime) {
    let file = "(authorizations (version 0) ((\"<key a>\" (name \"a\"))))";
    let words = "authenticate <i> <key a> --historical-authorizations=h";
    for (place, (script, err, asked)) in DROPPED.iter().enumerate() {
        let want = refused(err, *asked);
        assert!(rt;
            script_shows(rt.alloc(), script, file, words, &want),
            "case {place}"
        );
    }
}

const OTHER_SIGNER: Want = Want {
    status: 1,
    out: "",
    err: "guix-auth: introduction <i> is refused: it is signed by <key a> and not by <key b>\n",
    asked: 1,
};

const UNSIGNED: Want = Want {
    status: 1,
    out: "",
    err: "guix-auth: introduction <i> is refused: it is not signed\n",
    asked: 0,
};

#[test]
fn the_introduction_has_to_be_signed_by_the_given_key(rt: HostRuntime) {
    let script = "key a\nkey b\ncommit i - a a\n";
    let words = "authenticate <i> <key b>";
    assert!(rt; script_shows(rt.alloc(), script, "", words, &OTHER_SIGNER));
    let script = "key a\ncommit i - - a\n";
    assert!(rt; script_shows(rt.alloc(), script, "", AUTH, &UNSIGNED));
}

const UNRELATED: Want = Want {
    status: 1,
    out: "",
    err: "guix-auth: commit <x> is not related to introduction <i>\n",
    asked: 1,
};

#[test]
fn a_target_that_is_not_related_to_the_introduction_is_refused(rt: HostRuntime) {
    let script = "key a\ncommit i - a a\ncommit x - a a\n";
    assert!(rt; script_shows(rt.alloc(), script, "", AUTH, &UNRELATED));
}

const X_REFUSED: &str =
    "guix-auth: commit <x> is refused: its signer <key b> is not authorised by every parent\n";

const Y_REFUSED: &str =
    "guix-auth: commit <y> is refused: its signer <key b> is not authorised by every parent\n";

#[test]
fn of_two_refused_commits_of_one_generation_the_lesser_id_is_named(
    rt: HostRuntime,
) -> Result<(), Fail> {
    let script = "key a\nkey b\ncommit i - a a\ncommit x i b a\ncommit y i b a\ncommit m x,y a a\n";
    let world = build(rt.alloc(), script.as_bytes(), ".")?;
    let err = if world.id("x") < world.id("y") {
        X_REFUSED
    } else {
        Y_REFUSED
    };
    let want = refused(err, 2);
    assert!(rt; script_shows(rt.alloc(), script, "", AUTH, &want));
    Ok(())
}

// Git has lost the blob of the file of p.
const LOST: Outside = Outside {
    git_fails: 0,
    gpgv_fails: 0,
    out_room: 65_536,
    err_fails: 0,
    lost: "81f43db00d8995c2584423644ea1a314a018222c",
};

const LOST_TOLD: Want = Want {
    status: 1,
    out: "",
    err: "guix-auth: commit <m> is refused: object 81f43db00d8995c2584423644ea1a314a018222c: missing\n",
    asked: 3,
};

#[test]
fn the_lost_file_of_a_parent_is_named_with_its_child(rt: HostRuntime) -> Result<(), Fail> {
    let alloc = rt.alloc();
    let script =
        "key a\nkey b\nkey c\ncommit i - a a,b,c\ncommit p i a a,b\ncommit q i a b,c\ncommit m p,q b b\n";
    let world = build(alloc, script.as_bytes(), ".")?;
    let mut keeper = empty_keeper(alloc, 0)?;
    assert!(rt; shows(alloc, &world, "", &mut keeper, &LOST, AUTH, &LOST_TOLD));
    Ok(())
}
