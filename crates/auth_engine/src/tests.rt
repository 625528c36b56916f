//! One history of two commits, both signed by the one key of its keyring, with ample memory.
use crate::{EngineFail, Task, Verdict, Which, authenticate, task_fits};
use auth_rules::{Cause, What};
use authorizations::{Fingerprint, KeySet};
use child_ports::{
    Bytes, GitRow, GitRows, Keeper, MemGit, MemKeeper, MemSig, Names, Numbers, Pair, Pairs, SigRow,
    SigRows, Text, rows_fit,
};
use object_frames::Id;
use openpgp_status::Judged;
use std::alloc::{AllocError, Global};
use std::test::Fail;

const INTRO_ID: &str = "c5b3951a7b98ca49d3fa7d4530956973151cf076";

const CHILD_ID: &str = "db11cb0c319d8b36cad8be1eca227795293d7646";

const SIGNER: Fingerprint = Fingerprint([
    0xB4, 0x75, 0x4D, 0xB4, 0x7B, 0x6A, 0x4B, 0xC3, 0xDC, 0xFF, 0xB1, 0x8A, 0x94, 0x80, 0xFD, 0x26,
    0x7E, 0x05, 0x84, 0x8C,
]);

const NOBODY: Fingerprint = Fingerprint([0; 20]);

// The names that git knows, and its answers: the keyring's tree and key, the tree of both commits and its file, the commits.
static ANSWERS: [(&str, &[u8]); 7] = [
    (
        "keyring",
        b"ff2bc7657984bf75821dcf11aba4639665656c3b tree 33\n100644 a.key\x00\xc1/\xba?h\x8e7\xbb\xd0H\xbb\xd7V\x92\x95z\x00\xfe\x8d\xef\n",
    ),
    (
        "c12fba3f688e37bbd048bbd75692957a00fe8def",
        b"c12fba3f688e37bbd048bbd75692957a00fe8def blob 9\n\x98\x07\x04\x00\x00\x00\x00\x01a\n",
    ),
    (
        "7da8899c20e4d73cf13a8e8530611684c9d596d1",
        b"7da8899c20e4d73cf13a8e8530611684c9d596d1 blob 76\n(authorizations (version 0) ((\"B4754DB47B6A4BC3DCFFB18A9480FD267E05848C\")))\n\n",
    ),
    (
        "f553a23004acdcbc64c188d91ab9749c495f26ae",
        b"f553a23004acdcbc64c188d91ab9749c495f26ae tree 48\n100644 .guix-authorizations\x00}\xa8\x89\x9c \xe4\xd7<\xf1:\x8e\x850a\x16\x84\xc9\xd5\x96\xd1\n",
    ),
    (
        INTRO_ID,
        b"c5b3951a7b98ca49d3fa7d4530956973151cf076 commit 129\ntree f553a23004acdcbc64c188d91ab9749c495f26ae\nauthor A <a@example.org> 0 +0000\ncommitter A <a@example.org> 0 +0000\ngpgsig one\n\ni\n\n",
    ),
    (
        CHILD_ID,
        b"db11cb0c319d8b36cad8be1eca227795293d7646 commit 177\ntree f553a23004acdcbc64c188d91ab9749c495f26ae\nparent c5b3951a7b98ca49d3fa7d4530956973151cf076\nauthor A <a@example.org> 0 +0000\ncommitter A <a@example.org> 0 +0000\ngpgsig two\n\nc\n\n",
    ),
    (
        "head",
        b"db11cb0c319d8b36cad8be1eca227795293d7646 commit 177\ntree f553a23004acdcbc64c188d91ab9749c495f26ae\nparent c5b3951a7b98ca49d3fa7d4530956973151cf076\nauthor A <a@example.org> 0 +0000\ncommitter A <a@example.org> 0 +0000\ngpgsig two\n\nc\n\n",
    ),
];

const KEYRING: &[u8] = b"\x98\x07\x04\x00\x00\x00\x00\x01a";

const INTRO_PAYLOAD: &[u8] =
    b"tree f553a23004acdcbc64c188d91ab9749c495f26ae\nauthor A <a@example.org> 0 +0000\ncommitter A <a@example.org> 0 +0000\n\ni\n";

const CHILD_PAYLOAD: &[u8] =
    b"tree f553a23004acdcbc64c188d91ab9749c495f26ae\nparent c5b3951a7b98ca49d3fa7d4530956973151cf076\nauthor A <a@example.org> 0 +0000\ncommitter A <a@example.org> 0 +0000\n\nc\n";

const VALID: &[u8] =
    b"[GNUPG:] VALIDSIG B4754DB47B6A4BC3DCFFB18A9480FD267E05848C 2020-01-01 1577836800 0 4 0 1 8 00\n";

fn text_of(alloc: Global, text: &str) -> Result<Text, AllocError> {
    let mut copy = Text::new(alloc);
    copy.push(text)?;
    Ok(copy)
}

fn git_row(alloc: Global, name: &str, answer: &[u8]) -> Result<GitRow, AllocError> {
    let dir = text_of(alloc, ".")?;
    let name = Bytes::from_slice(alloc, name.as_bytes())?;
    let answer = Bytes::from_slice(alloc, answer)?;
    Ok(GitRow { dir, name, answer })
}

// Git with its answers. None is made where they don't fit.
fn git_of(alloc: Global) -> Result<MemGit, AllocError> {
    let mut rows = GitRows::new(alloc);
    for (name, answer) in &ANSWERS {
        rows.push(git_row(alloc, name, answer)?)?;
    }
    if !rows_fit(&rows) {
        return Err(AllocError);
    }
    MemGit::new(alloc, rows, Numbers::new(alloc), Numbers::new(alloc))
}

fn sig_row(alloc: Global, signature: &[u8], payload: &[u8]) -> Result<SigRow, AllocError> {
    let keyring = Bytes::from_slice(alloc, KEYRING)?;
    let signature = Bytes::from_slice(alloc, signature)?;
    let payload = Bytes::from_slice(alloc, payload)?;
    let answer = Bytes::from_slice(alloc, VALID)?;
    Ok(SigRow {
        keyring,
        signature,
        payload,
        answer,
    })
}

// gpgv with its verdicts: on the introduction, and on its child where that is asked for.
fn gpgv_of(alloc: Global, child: bool) -> Result<MemSig, AllocError> {
    let mut rows = SigRows::new(alloc);
    rows.push(sig_row(alloc, b"one\n", INTRO_PAYLOAD)?)?;
    if child {
        rows.push(sig_row(alloc, b"two\n", CHILD_PAYLOAD)?)?;
    }
    MemSig::new(alloc, rows, Numbers::new(alloc))
}

// This name alone.
fn only(alloc: Global, name: &str) -> Result<Names, AllocError> {
    let mut names = Names::new(alloc);
    names.push(Bytes::from_slice(alloc, name.as_bytes())?)?;
    Ok(names)
}

// The task of a target, a signer and the key of a cache.
fn task_of(
    alloc: Global,
    target: &str,
    signer: Fingerprint,
    cache_key: &str,
) -> Result<Task, AllocError> {
    let intro = Id::of_hex(INTRO_ID.as_bytes()).ok_or(AllocError)?;
    let dir = text_of(alloc, ".")?;
    let target = only(alloc, target)?;
    let keyring = only(alloc, "keyring")?;
    let cache_key = text_of(alloc, cache_key)?;
    Ok(Task {
        dir,
        target,
        intro,
        signer,
        historical: KeySet::new(alloc),
        keyring,
        cache_key,
    })
}

// A keeper without records.
fn empty_keeper(alloc: Global) -> Result<MemKeeper, AllocError> {
    MemKeeper::new(alloc, &Pairs::new(alloc), Numbers::new(alloc))
}

// The answer on the target of this name. A task that doesn't fit is answered as if memory were wanting.
fn answer_over(
    alloc: Global,
    gpgv: &mut MemSig,
    keeper: &mut MemKeeper,
    target: &str,
    signer: Fingerprint,
) -> Result<Verdict, EngineFail> {
    let Ok(mut git) = git_of(alloc) else {
        return Err(EngineFail::Memory);
    };
    let Ok(task) = task_of(alloc, target, signer, "k") else {
        return Err(EngineFail::Memory);
    };
    if !task_fits(&task) {
        return Err(EngineFail::Memory);
    }
    authenticate(alloc, &mut git, gpgv, keeper, &task)
}

// The same with a keeper that has no records.
fn answer(
    alloc: Global,
    target: &str,
    signer: Fingerprint,
    child: bool,
) -> Result<Verdict, EngineFail> {
    let Ok(mut gpgv) = gpgv_of(alloc, child) else {
        return Err(EngineFail::Memory);
    };
    let Ok(mut keeper) = empty_keeper(alloc) else {
        return Err(EngineFail::Memory);
    };
    answer_over(alloc, &mut gpgv, &mut keeper, target, signer)
}

// Whether these are the digits of an id.
fn is_id(id: Id, digits: &str) -> bool {
    Id::of_hex(digits.as_bytes()) == Some(id)
}

// Whether the target of this name is accepted as this commit, so many were judged, and so many keys signed them.
fn is_accepted(alloc: Global, target: &str, id: &str, judged: u32, signers: usize) -> bool {
    match answer(alloc, target, SIGNER, true) {
        Ok(verdict) => {
            is_id(verdict.target, id)
                && verdict.judged == judged
                && verdict.signers.len() == signers
                && !verdict.older
        }
        Err(_) => false,
    }
}

#[test]
fn a_child_that_its_parent_authorises_is_accepted(rt: HostRuntime) {
    assert!(rt; is_accepted(rt.alloc(), "head", CHILD_ID, 1, 1));
    assert!(rt; is_accepted(rt.alloc(), INTRO_ID, INTRO_ID, 0, 0));
}

const NO_VERDICT: Cause = Cause::Signature(Judged::Nothing);

#[test]
fn a_child_without_a_verdict_is_refused(rt: HostRuntime) {
    let found = answer(rt.alloc(), "head", SIGNER, false);
    assert!(rt;
        matches!(&found, Err(EngineFail::Commit { id, cause }) if is_id(*id, CHILD_ID) && *cause == NO_VERDICT)
    );
}

const WRONG_SIGNER: Cause = Cause::WrongSigner {
    found: SIGNER,
    wanted: NOBODY,
};

#[test]
fn another_signer_of_the_introduction_is_refused(rt: HostRuntime) {
    let found = answer(rt.alloc(), "head", NOBODY, true);
    assert!(rt;
        matches!(&found, Err(EngineFail::Intro { id, cause }) if is_id(*id, INTRO_ID) && *cause == WRONG_SIGNER)
    );
}

#[test]
fn a_target_that_git_lacks_is_named(rt: HostRuntime) {
    let found = answer(rt.alloc(), "nope", SIGNER, true);
    assert!(rt;
        matches!(
            found,
            Err(EngineFail::Name {
                which: Which::Target,
                what: What::Missing
            })
        )
    );
}

// Whether the keeper takes this pair.
fn is_stored(alloc: Global, keeper: &mut MemKeeper, pair: Pair) -> bool {
    let mut pairs = Pairs::new(alloc);
    match pairs.push(pair) {
        Ok(()) => keeper.store(&pairs).is_ok(),
        Err(_) => false,
    }
}

// Whether a check of the child judges so many commits after so many questions, and there is something to keep or not.
// That is kept.
fn is_checked(alloc: Global, keeper: &mut MemKeeper, judged: u32, asked: u64, keeps: bool) -> bool {
    let Ok(mut gpgv) = gpgv_of(alloc, true) else {
        return false;
    };
    let Ok(
        Verdict {
            judged: number,
            store,
            ..
        },
    ) = answer_over(alloc, &mut gpgv, keeper, "head", SIGNER)
    else {
        return false;
    };
    if number != judged || gpgv.asked() != asked {
        return false;
    }
    match store {
        Some(pair) => keeps && is_stored(alloc, keeper, pair),
        None => !keeps,
    }
}

#[test]
fn a_second_check_asks_for_the_introduction_alone(rt: HostRuntime) -> Result<(), Fail> {
    let alloc = rt.alloc();
    let mut keeper = empty_keeper(alloc)?;
    assert!(rt; is_checked(alloc, &mut keeper, 1, 2, true));
    assert!(rt; is_checked(alloc, &mut keeper, 0, 1, false));
    Ok(())
}

// The target's name and the cache's key, and whether both fit.
static LIMITS: [(&str, &str, bool); 6] = [
    ("head", "k", true),
    ("", "k", false),
    ("a\nb", "k", false),
    ("head", "", false),
    ("head", "a//b", false),
    ("head", "deployed/x", false),
];

#[test]
fn names_and_keys_keep_their_limits(rt: HostRuntime) -> Result<(), Fail> {
    for (place, (name, key, fits)) in LIMITS.iter().enumerate() {
        let task = task_of(rt.alloc(), name, SIGNER, key)?;
        assert!(rt; task_fits(&task) == *fits, "case {place}");
    }
    Ok(())
}
