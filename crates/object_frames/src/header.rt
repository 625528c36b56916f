//! The header line of an answer with an object.
ghost use Rattle.std.specs.Prelude.{◌≡◌, ◌≢◌, ◌≤◌, ◌<◌, ◌+◌, ◌^◌, [], ◌∷◌, ◌++◌, List, ℕ, length, decimal, IfSome, IfNone};
ghost use Rattle.object_frames.specs.declared.kind.Kind.{Kind};
ghost use Rattle.object_frames.specs.Object.{type_word};
ghost use Rattle.object_frames.specs.Id.{IsId};
ghost use Rattle.object_frames.specs.Frame.{header_line};

use crate::{Id, Kind};
use byte_cuts::after;
use child_ports::header_size;

/// What a header line says of an object.
#[derive(Clone, Copy, Drop)]
pub struct Header {
    pub id: Id,
    pub kind: Kind,
    pub size: u64,
    /// How long the line is, its end included.
    pub len: u64,
}

// The kind of object, and what follows its word.
fn kind_of(text: &[u8]) -> Option<(Kind, &[u8])>
    ensures some { IfSome result (λ found. text.now ≡ 32 ∷ type_word found.0 ++ 32 ∷ found.1.now) }
    ensures none { IfNone result ((kind : Kind) (rest : List ℕ) → text.now ≢ 32 ∷ type_word kind ++ 32 ∷ rest) }
{
    if let Some(rest) = after(text, b" commit ") {
        return Some((Kind::Commit, rest));
    }
    if let Some(rest) = after(text, b" tree ") {
        return Some((Kind::Tree, rest));
    }
    if let Some(rest) = after(text, b" blob ") {
        return Some((Kind::Blob, rest));
    }
    if let Some(rest) = after(text, b" tag ") {
        return Some((Kind::Tag, rest));
    }
    None
}

/// What a line says, without its end.
pub fn header_of(line: &[u8]) -> Option<Header>
    ensures some { IfSome result (λ h. IsId h.id × (h.size < 10 ^ 18) × (line.now ≡ header_line h.id h.kind h.size) × (h.len ≡ length line.now + 1)) }
    ensures none { IfNone result ((id : List ℕ) (kind : Kind) (size : ℕ) → IsId id → size < 10 ^ 18 → line.now ≢ header_line id kind size) }
{
    if line.len() < 40 {
        return None;
    }
    let (digits, rest) = line.split_at(40);
    let id = Id::of_lower_hex(digits)?;
    let (kind, rest) = kind_of(rest)?;
    let size = header_size(rest)?;
    let len = line.len() as u64 + 1;
    Some(Header {
        id,
        kind,
        size,
        len,
    })
}
