//! The lines of a commit, one at a time.
ghost use Rattle.std.specs.Prelude.{◌≡◌, ◌≢◌, ◌≤◌, ◌+◌, true, drop, [], ◌∷◌, ◌++◌, List, ℕ, length, IfSome, IfNone, MatchOption, IfOk};
ghost use Rattle.hex.specs.Hex.{encode_lower};
ghost use Rattle.byte_cuts.specs.Cuts.{Lacks};
ghost use Rattle.commit_objects.specs.Form.{sha1_form};
ghost use Rattle.commit_objects.specs.Lines.{NoLineEnd, IsIdOf};
ghost use Rattle.commit_objects.specs.Headers.{AreContinued, EndsContinued, without_spaces};
ghost use Rattle.commit_objects.specs.Faults.{BeginsWith};

use byte_cuts::{after, cut_at};
use object_frames::Id;
use std::alloc::{AllocError, Global};

/// The id on a line, and what follows the line.
#[derive(Clone, Copy, Drop)]
pub struct IdLine<'x> {
    pub id: Id,
    pub rest: &'x [u8],
}

/// Reads the first line, which begins with this word, and has an id behind it and nothing else.
pub fn id_line<'x>(text: &'x [u8], word: &[u8]) -> Option<IdLine<'x>>
    ensures some { IfSome result (λ line. IsIdOf sha1_form line.id × (text.now ≡ word.now ++ encode_lower line.id ++ 10 ∷ line.rest.now)) }
    ensures none { IfNone result ((id rest : List ℕ) → IsIdOf sha1_form id → text.now ≢ word.now ++ encode_lower id ++ 10 ∷ rest) }
{
    let (digits, rest) = after(text, word)?.split_at_checked(40)?;
    let id = Id::of_lower_hex(digits)?;
    let rest = after(rest, b"\n")?;
    Some(IdLine { id, rest })
}

/// What follows a word on a line, and what follows the line.
pub fn text_line<'x>(text: &'x [u8], word: &[u8]) -> Option<(&'x [u8], &'x [u8])>
    ensures some { IfSome result (λ found. NoLineEnd found.0.now × (text.now ≡ word.now ++ found.0.now ++ 10 ∷ found.1.now)) }
    ensures none { IfNone result ((value rest : List ℕ) → NoLineEnd value → text.now ≢ word.now ++ value ++ 10 ∷ rest) }
{
    cut_at(after(text, word)?, b'\n')
}

/// Continuation lines, and what follows them; none where the last of them has no end.
pub fn continuation(text: &[u8]) -> Option<(&[u8], &[u8])>
    ensures { MatchOption result (EndsContinued text.now) (λ found. AreContinued found.0.now × (text.now ≡ found.0.now ++ found.1.now) × (BeginsWith (32 ∷ []) found.1.now → ⊥)) }
{
    let mut rest = text;
    'continued: while let Some(line) = after(rest, b" ") {
        let (_, next) = cut_at(line, b'\n')?;
        rest = next;
    }
    Some(text.split_at(text.len() - rest.len()))
}

/// The first line, and what follows it if it has an end.
pub fn first_line(text: &[u8]) -> (&[u8], Option<&[u8]>)
    ensures one_line { NoLineEnd result.0.now }
    ensures line { MatchOption result.1 (text.now ≡ result.0.now) (λ rest. text.now ≡ result.0.now ++ 10 ∷ rest.now) }
{
    match cut_at(text, b'\n') {
        Some((line, rest)) => (line, Some(rest)),
        None => (text, None),
    }
}

/// The value of a signature: its lines, each without what stands before it.
pub fn value_of(alloc: Global, first: &[u8], more: &[u8]) -> Result<Vec<u8>, AllocError>
    ensures { IfOk result (λ value. value.items ≡ first.now ++ 10 ∷ without_spaces true more.now) }
{
    let mut value = Vec::from_slice(alloc, first)?;
    value.push(b'\n')?;
    let mut begins = true;
    for byte in more {
        if begins {
            begins = false;
        } else {
            value.push(*byte)?;
            begins = *byte == b'\n';
        }
    }
    Ok(value)
}
