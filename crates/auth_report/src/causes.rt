//! Why a commit is refused, as a text.
ghost use Rattle.std.specs.Prelude.{◌≡◌, ◌++◌, nat_eq, codes, if◌then◌else◌, OnOk};
ghost use Rattle.hex.specs.Hex.{encode_upper};
ghost use Rattle.auth_rules.specs.declared.cause.Cause.TheVariants.{WrongSigner, WeakHash, ParentFile};
ghost use Rattle.auth_report.specs.Texts.{judged_text, cause_text};

use crate::files::push_auth;
use crate::parts::{push_fingerprint, push_named, push_number, push_signer};
use crate::whats::push_object;
use auth_rules::Cause;
use authorizations::AuthFail;
use child_ports::{Bytes, Fingerprint};
use object_frames::Id;
use openpgp_status::Judged;
use std::alloc::AllocError;

// Adds why a verdict isn't one valid signature.
fn push_judged(text: &mut Bytes, judged: Judged) -> Result<(), AllocError>
    ensures { OnOk result (text.new ≡ text.old ++ judged_text judged) }
{
    match judged {
        Judged::Valid { .. } => text.extend(b"its signature is valid"),
        Judged::Bad => text.extend(b"its signature is bad"),
        Judged::NoKey => text.extend(b"its signing key is not at hand"),
        Judged::NoData => text.extend(b"its signature holds no data"),
        Judged::Several => text.extend(b"it has several valid signatures"),
        Judged::Nothing => text.extend(b"the verifier gave no verdict"),
        Judged::Unreadable(line) => {
            text.extend(b"verifier line ")?;
            push_number(text, line)?;
            text.extend(b" is unreadable")
        }
    }
}

// Adds a key behind these words.
fn push_key(text: &mut Bytes, words: &[u8], key: Fingerprint) -> Result<(), AllocError>
    ensures { OnOk result (text.new ≡ text.old ++ (words.now ++ encode_upper key.0)) }
{
    text.extend(words)?;
    push_fingerprint(text, key)
}

// Adds who signed and who should have.
fn push_signers(text: &mut Bytes, found: Fingerprint, wanted: Fingerprint) -> Result<(), AllocError>
    ensures { OnOk result (text.new ≡ text.old ++ cause_text (WrongSigner found wanted)) }
{
    push_key(text, b"it is signed by ", found)?;
    push_key(text, b" and not by ", wanted)
}

// Adds which algorithm is too weak.
fn push_weak(text: &mut Bytes, hash: u32) -> Result<(), AllocError>
    ensures { OnOk result (text.new ≡ text.old ++ cause_text (WeakHash hash)) }
{
    if hash == 1 {
        text.extend(b"its signature uses MD5")
    } else {
        text.extend(b"its signature uses SHA-1")
    }
}

// Adds why a parent's file is no file of authorisations.
fn push_parent_file(text: &mut Bytes, parent: Id, fail: AuthFail) -> Result<(), AllocError>
    ensures { OnOk result (text.new ≡ text.old ++ cause_text (ParentFile parent fail)) }
{
    push_named(text, b".guix-authorizations of its parent ", parent, b": ")?;
    push_auth(text, fail)
}

/// Adds why a commit is refused.
pub fn push_cause(text: &mut Bytes, cause: Cause) -> Result<(), AllocError>
    ensures { OnOk result (text.new ≡ text.old ++ cause_text cause) }
{
    match cause {
        Cause::Unreadable { id, what } => push_object(text, id, what),
        Cause::Unsigned => text.extend(b"it is not signed"),
        Cause::Signature(judged) => push_judged(text, judged),
        Cause::WeakHash(hash) => push_weak(text, hash),
        Cause::KeyNotInKeyring(key) => {
            push_signer(text, b"its signer ", key, b" is not in the keyring")
        }
        Cause::RemovesFile => text.extend(b"it removes .guix-authorizations"),
        Cause::ParentRemovedFile(parent) => {
            push_named(
                text,
                b"its parent ",
                parent,
                b" removes .guix-authorizations",
            )
        }
        Cause::ParentFile { parent, fail } => push_parent_file(text, parent, fail),
        Cause::NotAuthorised(key) => {
            push_signer(
                text,
                b"its signer ",
                key,
                b" is not authorised by every parent",
            )
        }
        Cause::WrongSigner { found, wanted } => push_signers(text, found, wanted),
    }
}
