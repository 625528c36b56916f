//! Reading a commit.
ghost use Rattle.std.specs.Prelude.{◌≡◌, ◌≤◌, ◌+◌, ◌∷◌, ◌++◌, true, take, length, IfOk, IfErr, Ok};
ghost use Rattle.commit_objects.specs.Headers.{without_spaces};
ghost use Rattle.commit_objects.specs.Form.{sha1_form};
ghost use Rattle.commit_objects.specs.Faults.{IsFault};
ghost use Rattle.commit_objects.specs.Commit.{IsCommit};
ghost use Rattle.commit_objects.specs.Reading.{Gives, commit_of};
ghost use Rattle.commit_objects.specs.declared.commit.Commit.{Commit};

use crate::headers::{Signed, read_headers};
use crate::heading::read_heading;
use crate::lines::value_of;
use crate::{Commit, CommitFail};
use child_ports::Bytes;
use std::alloc::{AllocError, Global};

// The signature's value, and the content without its lines.
fn signed_parts(
    alloc: Global,
    content: &[u8],
    front: usize,
    signed: &Signed<'_>,
) -> Result<(Vec<u8>, Vec<u8>), AllocError>
    requires { front + length signed.now.before.now ≤ length content.now }
    ensures { IfOk result (λ parts. (parts.0.items ≡ signed.now.value.now ++ 10 ∷ without_spaces true signed.now.more.now)
        × (parts.1.items ≡ take (front + length signed.now.before.now) content.now ++ signed.now.after.now)) }
{
    let value = value_of(alloc, signed.value, signed.more)?;
    let mut payload = Vec::from_slice(alloc, &content[..front + signed.before.len()])?;
    payload.extend_from_slice(signed.after)?;
    Ok((value, payload))
}

/// What the content of a commit says, or the first place that doesn't fit, after Git's object format.
///
/// A line that nothing ends counts for `Line`, `TwoSignatures` and `ForeignSignature`. `Memory` may stand in place
/// of any answer.
pub fn read_commit(alloc: Global, content: &[u8]) -> Result<Commit, CommitFail>
    // It is what the content's lines give, from the first on.
    ensures exact { Gives result (commit_of content.now) }
    // What is read is in the grammar, and what is in the grammar is read.
    ensures found { IfOk result (λ commit. IsCommit sha1_form content.now commit) }
    ensures only { (commit : Commit) → IsCommit sha1_form content.now commit → Gives result (Ok commit) }
    // A refusal is the first place that doesn't fit.
    ensures fault { IfErr result (λ fail. IsFault sha1_form content.now fail) }
{
    let heading = read_heading(alloc, content)?;
    let front = content.len() - heading.rest.len();
    match read_headers(heading.rest)? {
        Some(signed) => {
            let (value, payload) = signed_parts(alloc, content, front, &signed)?;
            Ok(Commit {
                tree: heading.tree,
                parents: heading.parents,
                signature: Some(Bytes::from_vec(value)),
                payload: Bytes::from_vec(payload),
            })
        }
        None => Ok(Commit {
            tree: heading.tree,
            parents: heading.parents,
            signature: None,
            payload: Bytes::from_slice(alloc, content)?,
        }),
    }
}
