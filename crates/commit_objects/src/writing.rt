//! Writing a signed commit.
ghost use Rattle.std.specs.Prelude.{◌≡◌, ◌≤◌, ◌++◌, ◌∷◌, [], List, ℕ, length, Some, Ok, IfOk};
ghost use Rattle.commit_objects.specs.declared.commit.Commit.{Commit};
ghost use Rattle.commit_objects.specs.Form.{sha1_form};
ghost use Rattle.commit_objects.specs.Writing.{AreFullLines, IsSigned};
ghost use Rattle.commit_objects.specs.Commit.{IsUnsignedCommit};
ghost use Rattle.commit_objects.specs.Reading.{commit_of};

use byte_cuts::cut_at;
use child_ports::Bytes;
use std::alloc::{AllocError, Global};

// Where the empty line begins, or the end.
fn empty_line(content: &[u8]) -> usize
    ensures within { result ≤ length content.now }
    ensures place { (front message : List ℕ) → AreFullLines front → content.now ≡ front ++ 10 ∷ message → result ≡ length front }
{
    let mut rest = content;
    'lines: while let Some((line, next)) = cut_at(rest, b'\n') {
        if line.is_empty() {
            return content.len() - rest.len();
        }
        rest = next;
    }
    content.len()
}

/// The content of the commit with this payload and this signature: a `gpgsig` header behind the payload's others, in
/// which each line of the signature stands after a space.
pub fn write_commit(alloc: Global, payload: &[u8], signature: &[u8]) -> Result<Bytes, AllocError>
    // The payload is the content of a commit without a signature, and the signature is whole lines.
    requires unsigned { IsUnsignedCommit sha1_form payload.now }
    requires lines { (text : List ℕ) × (signature.now ≡ text ++ 10 ∷ []) }
    ensures last { IfOk result (λ content. IsSigned sha1_form payload.now signature.now content) }
    // Reading the answer gives the payload's tree and parents, that signature, and the payload.
    ensures read_back { IfOk result (λ content. (commit : Commit) → commit_of payload.now ≡ Ok commit → commit_of content ≡ Ok (record commit { signature = Some signature.now; payload = payload.now })) }
{
    let end = empty_line(payload);
    let mut content = Vec::from_slice(alloc, &payload[..end])?;
    content.extend_from_slice(b"gpgsig".as_slice())?;
    let mut rest = signature;
    'lines: while let Some((line, next)) = cut_at(rest, b'\n') {
        content.push(b' ')?;
        content.extend_from_slice(line)?;
        content.push(b'\n')?;
        rest = next;
    }
    content.extend_from_slice(&payload[end..])?;
    Ok(Bytes::from_vec(content))
}
