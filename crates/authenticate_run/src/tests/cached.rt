//! Runs one after another, with what the ones before have kept.
use crate::tests::scripted::{
    Outside, WELL, Want, empty_keeper, expanded, keeper_with, keeps, quiet, shows,
};
use child_ports::{Keeper, MemKeeper};
use stand_world::{World, build};
use std::alloc::{AllocError, Global};
use std::test::Fail;

const SCRIPT: &str = "key a\nkey b\ncommit i - a a\ncommit c1 i a a,b\ncommit c2 c1 b a,b\n";

// The same with one key more, and so with another keyring.
const WIDER: &str = "key a\nkey b\nkey z\ncommit i - a a\ncommit c1 i a a,b\ncommit c2 c1 b a,b\n";

const WORDS: &str = "authenticate <i> <key a> --cache-key=k";

// What is kept behind a run: 214 bytes.
const TEXT: &str = "guix-auth-cache 1
intro <i>
signer <key a>
keyring 0650d7ccfe9444cec150f9f604148914052a1d5e
commit <c2>
end
";

const WIDER_TEXT: &str = "guix-auth-cache 1
intro <i>
signer <key a>
keyring 47ca9e7f1403bb2eae1ccdcccf1245bdccbbdee1
commit <c2>
end
";

// Whether a run over a world shows nothing, after so many questions.
fn is_quiet(alloc: Global, world: &World, keeper: &mut MemKeeper, asked: u64) -> bool {
    shows(alloc, world, "", keeper, &WELL, WORDS, &quiet(asked))
}

#[test]
fn a_second_run_asks_for_the_introduction_alone(rt: HostRuntime) -> Result<(), Fail> {
    let alloc = rt.alloc();
    let world = build(alloc, SCRIPT.as_bytes(), ".")?;
    let text = expanded(alloc, &world, TEXT)?;
    assert_eq!(rt; text.len(), 214);
    let mut keeper = empty_keeper(alloc, 0)?;
    for asked in [3, 1, 1] {
        assert!(rt; is_quiet(alloc, &world, &mut keeper, asked));
        assert!(rt; keeps(alloc, &world, &mut keeper, "k", TEXT));
    }
    assert_eq!(rt; keeper.stores(), 1);
    Ok(())
}

#[test]
fn the_key_of_the_cache_is_by_default_that_of_the_introduction(
    rt: HostRuntime,
) -> Result<(), Fail> {
    let alloc = rt.alloc();
    let world = build(alloc, SCRIPT.as_bytes(), ".")?;
    let mut keeper = empty_keeper(alloc, 0)?;
    let words = "authenticate <i> <key a>";
    assert!(rt; shows(alloc, &world, "", &mut keeper, &WELL, words, &quiet(3)));
    assert!(rt; keeps(alloc, &world, &mut keeper, "git-<i>", TEXT));
    Ok(())
}

#[test]
fn entries_of_another_scope_do_not_count(rt: HostRuntime) -> Result<(), Fail> {
    let alloc = rt.alloc();
    let world = build(alloc, SCRIPT.as_bytes(), ".")?;
    let wider = build(alloc, WIDER.as_bytes(), ".")?;
    let mut keeper = empty_keeper(alloc, 0)?;
    assert!(rt; is_quiet(alloc, &world, &mut keeper, 3));
    assert!(rt; is_quiet(alloc, &wider, &mut keeper, 3));
    assert!(rt; keeps(alloc, &wider, &mut keeper, "k", WIDER_TEXT));
    Ok(())
}

const OTHER_SIGNER: Want = Want {
    status: 1,
    out: "",
    err: "guix-auth: introduction <i> is refused: it is signed by <key a> and not by <key b>\n",
    asked: 1,
};

#[test]
fn the_introduction_is_checked_also_with_a_cache(rt: HostRuntime) -> Result<(), Fail> {
    let alloc = rt.alloc();
    let world = build(alloc, SCRIPT.as_bytes(), ".")?;
    let mut keeper = empty_keeper(alloc, 0)?;
    assert!(rt; is_quiet(alloc, &world, &mut keeper, 3));
    let words = "authenticate <i> <key b> --cache-key=k";
    assert!(rt; shows(alloc, &world, "", &mut keeper, &WELL, words, &OTHER_SIGNER));
    assert!(rt; keeps(alloc, &world, &mut keeper, "k", TEXT));
    Ok(())
}

// What is kept, and the line.
static NO_CACHES: [(&str, &str); 4] = [
    // the last line feed is missing
    (
        "guix-auth-cache 1\nintro <i>\nsigner <key a>\nkeyring 0650d7ccfe9444cec150f9f604148914052a1d5e\ncommit <c2>\nend",
        "guix-auth: cache: bad form at byte 210\n",
    ),
    // cut in the line of the keyring
    (
        "guix-auth-cache 1\nintro <i>\nsigner <key a>\nkeyring 0650d7ccfe9444cec150f9f604148914052a1d5e",
        "guix-auth: cache: bad form at byte 113\n",
    ),
    ("", "guix-auth: cache: bad form at byte 0\n"),
    (
        "guix-auth-cache 3\n",
        "guix-auth: cache: version 3 is not supported\n",
    ),
];

// Whether a run that finds this kept stops with this line.
fn is_stopped(
    alloc: Global,
    world: &World,
    kept: &str,
    err: &'static str,
) -> Result<bool, AllocError> {
    let want = Want {
        status: 3,
        out: "",
        err,
        asked: 0,
    };
    let kept = expanded(alloc, world, kept)?;
    let mut keeper = keeper_with(alloc, "k", kept.as_str().as_bytes())?;
    Ok(shows(alloc, world, "", &mut keeper, &WELL, WORDS, &want))
}

#[test]
fn what_is_no_cache_text_stops_the_check_at_its_place(rt: HostRuntime) -> Result<(), Fail> {
    let world = build(rt.alloc(), SCRIPT.as_bytes(), ".")?;
    for (place, (kept, err)) in NO_CACHES.iter().enumerate() {
        assert!(rt; is_stopped(rt.alloc(), &world, kept, err)?, "case {place}");
    }
    Ok(())
}

// The fourth call of gpgv fails.
const LATE_FAULT: Outside = Outside {
    git_fails: 0,
    gpgv_fails: 4,
    out_room: 65_536,
    err_fails: 0,
    lost: "",
};

const LATE_FAULT_TOLD: Want = Want {
    status: 4,
    out: "",
    err: "guix-auth: gpgv failed\n",
    asked: 3,
};

#[test]
fn a_run_that_fails_keeps_nothing_and_the_next_one_asks_again(rt: HostRuntime) -> Result<(), Fail> {
    let alloc = rt.alloc();
    let script = "key a\ncommit i - a a\ncommit c1 i a a\ncommit c2 c1 a a\ncommit c3 c2 a a\n";
    let world = build(alloc, script.as_bytes(), ".")?;
    let mut keeper = empty_keeper(alloc, 0)?;
    assert!(rt;
        shows(
            alloc,
            &world,
            "",
            &mut keeper,
            &LATE_FAULT,
            WORDS,
            &LATE_FAULT_TOLD
        )
    );
    assert!(rt; matches!(keeper.load(alloc, "k"), Ok(None)));
    assert!(rt; is_quiet(alloc, &world, &mut keeper, 4));
    Ok(())
}
