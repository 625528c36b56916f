//! The signature of a commit.
ghost use Rattle.std.specs.Prelude.{◌≡◌, Some, IsTrue, is_some, false};
ghost use Rattle.std.specs.Option.{option_and_then};
ghost use Rattle.child_ports.specs.Causes.{AtMostOnce, RoseWhen};
ghost use Rattle.auth_rules.specs.Answers.{AnswersBy, Asks, is_git_fault, is_sig_fault};
ghost use Rattle.auth_rules.specs.Consulting.{RuledBy, sig_world};
ghost use Rattle.auth_rules.specs.Rules.{weak, judgement, signature_cause, valid_key};

use crate::root::Root;
use crate::{Cause, RuleFail};
use authorizations::{Fingerprint, KeySet};
use child_ports::{PortFail, SigPort};
use openpgp_status::{Judged, judge};
use std::alloc::Global;

// Why the algorithm of the hash is too weak.
fn weak_hash(has_file: bool, hash: u32) -> Option<Cause>
    ensures { result ≡ weak has_file hash }
{
    match hash {
        1 => Some(Cause::WeakHash(1)),
        2 if has_file => Some(Cause::WeakHash(2)),
        _ => None,
    }
}

// The signer, by a verdict.
fn signer_of(judged: Judged, has_file: bool, keys: &KeySet) -> Result<Fingerprint, Cause>
    ensures { RuledBy (signature_cause (Some judged) has_file keys.now) (valid_key judged) result }
{
    let Judged::Valid { key, hash } = judged else {
        return Err(Cause::Signature(judged));
    };
    if let Some(cause) = weak_hash(has_file, hash) {
        return Err(cause);
    }
    if !keys.contains(key) {
        return Err(Cause::KeyNotInKeyring(key));
    }
    Ok(key)
}

/// The signer of a commit that was read, under the keyring that is loaded and whose keys are given.
pub fn judge_signed<V: SigPort>(
    alloc: Global,
    sig: &mut V,
    root: &Root,
    keys: &KeySet,
) -> Result<Fingerprint, RuleFail>
    ensures told { V.tells sig.new ≡ V.tells sig.old }
    ensures table { V.table sig.new ≡ V.table sig.old }
    ensures loaded { V.loaded sig.new ≡ V.loaded sig.old }
    ensures answer { IsTrue (V.tells sig.old) →
        let j = judgement (sig_world (V.table sig.old) (V.loaded sig.old)) root.now.commit in
        AnswersBy (signature_cause j (is_some root.now.file) keys.now) (λ key. option_and_then valid_key j ≡ Some key) result }
    ensures asked { Asks (is_some root.now.commit.signature) result (V.asked sig.old) (V.asked sig.new) }
    ensures once { AtMostOnce (V.asked sig.old) (V.asked sig.new) }
    ensures no_git_fault { is_git_fault result ≡ false }
    ensures sig_fault { RoseWhen (is_sig_fault result) (V.faults sig.old) (V.faults sig.new) }
{
    let Some(signature) = &root.commit.signature else {
        return Err(RuleFail::Refused(Cause::Unsigned));
    };
    match sig.verify(alloc, signature.as_slice(), root.commit.payload.as_slice()) {
        Ok(status) => match signer_of(judge(status.as_slice()), root.file.is_some(), keys) {
            Ok(key) => Ok(key),
            Err(cause) => Err(RuleFail::Refused(cause)),
        },
        Err(PortFail::Failed) => Err(RuleFail::SigFault),
        Err(PortFail::Memory) => Err(RuleFail::Memory),
    }
}
