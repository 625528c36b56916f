//! Why a target isn't accepted, as a line.
ghost use Rattle.std.specs.Prelude.{◌≡◌, ◌++◌, codes, OnOk, IfOk};
ghost use Rattle.hex.specs.Hex.{encode_lower};
ghost use Rattle.auth_engine.specs.declared.engine_fail.EngineFail.TheVariants.{Unrelated, Intro, Commit, Name};
ghost use Rattle.auth_report.specs.Texts.{which_text, cache_text, fail_text, refusal_line};

use crate::causes::push_cause;
use crate::parts::{push_id, push_named, push_numbered, push_place};
use crate::rings::push_ring;
use crate::whats::{push_object, push_what};
use auth_cache::CacheFail;
use auth_engine::{EngineFail, Which};
use auth_rules::{Cause, What};
use child_ports::Bytes;
use object_frames::Id;
use std::alloc::{AllocError, Global};

// Adds which commit a name was for.
fn push_which(text: &mut Bytes, which: Which) -> Result<(), AllocError>
    ensures { OnOk result (text.new ≡ text.old ++ which_text which) }
{
    match which {
        Which::Target => text.extend(b"target commit: "),
        Which::Introduction => text.extend(b"introduction commit: "),
    }
}

// Adds which commit has no name.
fn push_unnamed(text: &mut Bytes, which: Which, what: What) -> Result<(), AllocError>
    ensures { OnOk result (text.new ≡ text.old ++ fail_text (Name which what)) }
{
    push_which(text, which)?;
    push_what(text, what)
}

// Adds an id behind these words.
fn push_commit(text: &mut Bytes, words: &[u8], id: Id) -> Result<(), AllocError>
    ensures { OnOk result (text.new ≡ text.old ++ (words.now ++ encode_lower id)) }
{
    text.extend(words)?;
    push_id(text, id)
}

// Adds two commits of which neither reaches the other.
fn push_unrelated(text: &mut Bytes, target: Id, intro: Id) -> Result<(), AllocError>
    ensures { OnOk result (text.new ≡ text.old ++ fail_text (Unrelated target intro)) }
{
    push_commit(text, b"commit ", target)?;
    push_commit(text, b" is not related to introduction ", intro)
}

// Adds why what is kept is no cache text.
fn push_cache(text: &mut Bytes, why: CacheFail) -> Result<(), AllocError>
    ensures { OnOk result (text.new ≡ text.old ++ cache_text why) }
{
    match why {
        CacheFail::Version(n) => {
            push_numbered(text, b"cache: version ", n as u64, b" is not supported")
        }
        CacheFail::Form(at) => push_place(text, b"cache: bad form at byte ", at),
        CacheFail::Memory => text.extend(b"out of memory"),
    }
}

// Adds the introduction that is refused, and why.
fn push_intro(text: &mut Bytes, id: Id, cause: Cause) -> Result<(), AllocError>
    ensures { OnOk result (text.new ≡ text.old ++ fail_text (Intro id cause)) }
{
    push_named(text, b"introduction ", id, b" is refused: ")?;
    push_cause(text, cause)
}

// Adds the commit that is refused, and why.
fn push_refused(text: &mut Bytes, id: Id, cause: Cause) -> Result<(), AllocError>
    ensures { OnOk result (text.new ≡ text.old ++ fail_text (Commit id cause)) }
{
    push_named(text, b"commit ", id, b" is refused: ")?;
    push_cause(text, cause)
}

/// Adds why a target isn't accepted.
pub fn push_fail(text: &mut Bytes, fail: &EngineFail) -> Result<(), AllocError>
    ensures { OnOk result (text.new ≡ text.old ++ fail_text fail.now) }
{
    match fail {
        EngineFail::Name { which, what } => push_unnamed(text, *which, *what),
        EngineFail::Keyring(why) => push_ring(text, why),
        EngineFail::Cache(why) => push_cache(text, *why),
        EngineFail::TooMany => text.extend(b"more than 1000000 commits"),
        EngineFail::Object { id, what } => push_object(text, *id, *what),
        EngineFail::Cycle(id) => { push_named(text, b"the history of commit ", *id, b" is cyclic") }
        EngineFail::Intro { id, cause } => push_intro(text, *id, *cause),
        EngineFail::Unrelated { target, intro } => push_unrelated(text, *target, *intro),
        EngineFail::Commit { id, cause } => push_refused(text, *id, *cause),
        EngineFail::GitFault => text.extend(b"git failed"),
        EngineFail::SigFault => text.extend(b"gpgv failed"),
        EngineFail::KeepFault => text.extend(b"the store failed"),
        EngineFail::Memory => text.extend(b"out of memory"),
    }
}

/// The line on standard error for a target that isn't accepted.
pub fn refusal(alloc: Global, fail: &EngineFail) -> Result<Bytes, AllocError>
    ensures { IfOk result (λ line. line ≡ refusal_line fail.now) }
{
    let mut line = Bytes::new(alloc);
    line.extend(b"guix-auth: ")?;
    push_fail(&mut line, fail)?;
    line.extend(b"\n")?;
    Ok(line)
}
