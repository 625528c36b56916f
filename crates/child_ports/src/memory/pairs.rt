//! Pairs as a map, in which the first pair with a key counts.
ghost use Rattle.std.specs.Prelude.{◌≡◌, ◌++◌, reverse, IfOk, MatchOption, Some, None};
ghost use Rattle.std.specs.FinMap as map;
ghost use Rattle.child_ports.specs.Keeper.{first_pairs, with_pairs};

use crate::{Bytes, Pair, Text};
use std::alloc::{AllocError, Global};

/// The value of the first pair with a key.
pub fn value_of<'x>(pairs: &'x [Pair], key: &str) -> Option<&'x [u8]>
    ensures { MatchOption result (map.get (first_pairs pairs.now) key.now ≡ None) (λ v. map.get (first_pairs pairs.now) key.now ≡ Some v.now) }
{
    for pair in pairs {
        if key == pair.key.as_str() {
            return Some(pair.value.as_slice());
        }
    }
    None
}

// A copy of a pair.
fn copied(alloc: Global, pair: &Pair) -> Result<Pair, AllocError>
    ensures { IfOk result (λ copy. copy ≡ pair.now) }
{
    let mut key = Text::new(alloc);
    key.push(pair.key.as_str())?;
    let value = Bytes::from_slice(alloc, pair.value.as_slice())?;
    Ok(Pair { key, value })
}

/// A copy of pairs, in their order.
pub fn copies(alloc: Global, pairs: &[Pair]) -> Result<Vec<Pair>, AllocError>
    ensures { IfOk result (λ copies. copies.items ≡ pairs.now) }
{
    let mut copies = Vec::new(alloc);
    for pair in pairs {
        copies.push(copied(alloc, pair)?)?;
    }
    Ok(copies)
}

// A copy of pairs, the last first.
fn last_first(alloc: Global, pairs: &[Pair]) -> Result<Vec<Pair>, AllocError>
    ensures { IfOk result (λ copies. copies.items ≡ reverse pairs.now) }
{
    let mut copies = Vec::new(alloc);
    let mut i = pairs.len();
    while i > 0 {
        i -= 1;
        copies.push(copied(alloc, &pairs[i])?)?;
    }
    Ok(copies)
}

/// A copy of the old pairs into which the new ones are put, in order.
pub fn with_more(alloc: Global, old: &[Pair], new: &[Pair]) -> Result<Vec<Pair>, AllocError>
    ensures { IfOk result (λ all. first_pairs all.items ≡ with_pairs (first_pairs old.now) new.now) }
{
    let mut all = last_first(alloc, new)?;
    all.append(&mut copies(alloc, old)?)?;
    Ok(all)
}
