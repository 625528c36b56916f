//! Calls that fail.
use crate::tests::scripted::{Outside, WELL, Want, empty_keeper, keeps, shows};
use child_ports::Keeper;
use stand_world::{World, build};
use std::alloc::{AllocError, Global};
use std::test::Fail;

const SCRIPT: &str = "key a\nkey b\ncommit i - a a\ncommit c1 i a a,b\ncommit c2 c1 b a,b\n";

const WORDS: &str = "authenticate <i> <key a> --stats --cache-key=k";

const TEXT: &str = "guix-auth-cache 1
intro <i>
signer <key a>
keyring 0650d7ccfe9444cec150f9f604148914052a1d5e
commit <c2>
end
";

// The calls of git, gpgv and the keeper that fail, and the status, the line and the number of questions.
static FAULTS: [((u64, u64, u64), u8, &str, u64); 5] = [
    ((1, 0, 0), 4, "guix-auth: git failed\n", 0),
    ((0, 1, 0), 4, "guix-auth: gpgv failed\n", 0),
    ((0, 2, 0), 4, "guix-auth: gpgv failed\n", 1),
    ((0, 0, 1), 5, "guix-auth: the store failed\n", 0),
    ((0, 0, 2), 5, "guix-auth: the store failed\n", 3),
];

// Whether these failed calls show what is wanted, and nothing is kept.
fn is_told(
    alloc: Global,
    world: &World,
    calls: &(u64, u64, u64),
    want: &Want,
) -> Result<bool, AllocError> {
    let (git_fails, gpgv_fails, keeper_fails) = *calls;
    let outside = Outside {
        git_fails,
        gpgv_fails,
        ..WELL
    };
    let mut keeper = empty_keeper(alloc, keeper_fails)?;
    let told = shows(alloc, world, "", &mut keeper, &outside, WORDS, want);
    Ok(told && matches!(keeper.load(alloc, "k"), Ok(None)))
}

fn faulty(status: u8, err: &'static str, asked: u64) -> Want {
    Want {
        status,
        out: "",
        err,
        asked,
    }
}

#[test]
fn a_failed_call_is_told_and_nothing_is_kept(rt: HostRuntime) -> Result<(), Fail> {
    let world = build(rt.alloc(), SCRIPT.as_bytes(), ".")?;
    for (place, (calls, status, err, asked)) in FAULTS.iter().enumerate() {
        let want = faulty(*status, err, *asked);
        assert!(rt; is_told(rt.alloc(), &world, calls, &want)?, "case {place}");
    }
    Ok(())
}

const SMALL_OUTPUT: Outside = Outside {
    git_fails: 0,
    gpgv_fails: 0,
    out_room: 85,
    err_fails: 0,
    lost: "",
};

#[test]
fn output_that_has_no_room_is_a_fault_behind_the_store(rt: HostRuntime) -> Result<(), Fail> {
    let alloc = rt.alloc();
    let world = build(alloc, SCRIPT.as_bytes(), ".")?;
    let mut keeper = empty_keeper(alloc, 0)?;
    let want = faulty(5, "", 3);
    assert!(rt; shows(alloc, &world, "", &mut keeper, &SMALL_OUTPUT, WORDS, &want));
    assert!(rt; keeps(alloc, &world, &mut keeper, "k", TEXT));
    Ok(())
}

const NO_LINE: Outside = Outside {
    git_fails: 0,
    gpgv_fails: 0,
    out_room: 65_536,
    err_fails: 1,
    lost: "",
};

#[test]
fn a_line_that_cannot_be_put_leaves_the_status(rt: HostRuntime) -> Result<(), Fail> {
    let alloc = rt.alloc();
    let script = "key a\nkey b\ncommit i - a a\ncommit c i b a\n";
    let world = build(alloc, script.as_bytes(), ".")?;
    let mut keeper = empty_keeper(alloc, 0)?;
    let want = faulty(1, "", 2);
    assert!(rt; shows(alloc, &world, "", &mut keeper, &NO_LINE, WORDS, &want));
    Ok(())
}
