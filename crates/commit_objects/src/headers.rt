//! The further headers of a commit, up to the empty line.
ghost use Rattle.std.specs.Prelude.{◌≡◌, [], ◌∷◌, ◌++◌, List, ℕ, IfOk, IfErr, MatchOption};
ghost use Rattle.commit_objects.specs.Form.{sha1_form};
ghost use Rattle.commit_objects.specs.Faults.{BeginsWith};
ghost use Rattle.commit_objects.specs.Headers.{UnsignedTo, SignedTo, IsFurtherFault};

use crate::CommitFail;
use crate::lines::{continuation, first_line};
use byte_cuts::after;

/// What begins the header of the signature, and that of the sha256 format's.
const OWN: &[u8] = b"gpgsig ";

const FOREIGN: &[u8] = b"gpgsig-sha256 ";

/// A signature among further headers: what stands before it, its first line behind the word, its continuation
/// lines, and what follows it.
#[derive(Clone, Copy, Drop)]
pub struct Signed<'x> {
    pub before: &'x [u8],
    pub value: &'x [u8],
    pub more: &'x [u8],
    pub after: &'x [u8],
}

/// Reads further headers up to the empty line.
pub fn read_headers(text: &[u8]) -> Result<Option<Signed<'_>>, CommitFail>
    requires { BeginsWith (32 ∷ []) text.now → ⊥ }
    ensures found { IfOk result (λ signed. (message : List ℕ) × MatchOption signed
        (UnsignedTo sha1_form text.now (10 ∷ message))
        (λ s. SignedTo sha1_form text.now s.before.now s.value.now s.more.now s.after.now (10 ∷ message))) }
    ensures fault { IfErr result (λ fail. IsFurtherFault sha1_form text.now fail) }
{
    let mut signed = None;
    let mut rest = text;
    'headers: while after(rest, b"\n").is_none() {
        let (first, lines) = first_line(rest);
        if after(first, FOREIGN).is_some() {
            return Err(CommitFail::ForeignSignature);
        }
        let value = after(first, OWN);
        if value.is_some() && signed.is_some() {
            return Err(CommitFail::TwoSignatures);
        }
        let Some(lines) = lines else {
            return Err(CommitFail::NoBody);
        };
        let Some((more, next)) = continuation(lines) else {
            return Err(CommitFail::NoBody);
        };
        if let Some(value) = value {
            signed = Some(Signed {
                before: &text[..text.len() - rest.len()],
                value,
                more,
                after: next,
            });
        }
        rest = next;
    }
    Ok(signed)
}
