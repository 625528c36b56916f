//! Cutting bytes into parts: at the first such byte, behind a beginning, and the parts between such bytes.
//!
//! `specs/Cuts.antt` says what the parts of bytes are.
#![tactic(auto)]

ghost use Rattle.std.specs.Prelude.{◌≡◌, ◌≢◌, ◌≤◌, ◌<◌, ◌+◌, [], ◌∷◌, ◌++◌, List, ℕ, length, slice_get, MatchOption, IfSome};
ghost use Rattle.std.specs.Option.{option_copied};
ghost use Rattle.byte_cuts.specs.Cuts.{Lacks, parts_at};

/// The bytes before the first such byte, and those after it.
pub fn cut_at(bytes: &[u8], end: u8) -> Option<(&[u8], &[u8])>
    ensures cut { MatchOption result (Lacks end bytes.now) (λ cut. Lacks end cut.0.now × (bytes.now ≡ cut.0.now ++ end ∷ cut.1.now)) }
    ensures parts { MatchOption result (parts_at end bytes.now ≡ bytes.now ∷ []) (λ cut. parts_at end bytes.now ≡ cut.0.now ∷ parts_at end cut.1.now) }
    ensures shorter { IfSome result (λ cut. length cut.0.now + length cut.1.now + 1 ≡ length bytes.now) }
{
    let at = bytes.iter().position(|b| *b == end)?;
    Some((&bytes[..at], &bytes[at + 1..]))
}

/// What follows a beginning.
pub fn after<'x>(bytes: &'x [u8], front: &[u8]) -> Option<&'x [u8]>
    ensures { MatchOption result ((rest : List ℕ) → bytes.now ≢ front.now ++ rest) (λ rest. bytes.now ≡ front.now ++ rest.now) }
{
    bytes.strip_prefix(front)
}

/// The part at this place, of those between such bytes.
pub fn part_at(bytes: &[u8], end: u8, place: usize) -> Option<&[u8]>
    ensures { option_copied result ≡ slice_get (parts_at end bytes.now) place }
{
    bytes.split(|b| *b == end).nth(place)
}
