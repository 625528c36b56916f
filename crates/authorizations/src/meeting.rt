//! What sets of keys have in common.
ghost use Rattle.std.specs.Prelude.{◌≡◌, IfOk};
ghost use Rattle.std.specs.FinSet.{intersection};

use crate::KeySet;
use std::alloc::{AllocError, Global};

/// The keys that are in both sets.
pub fn meet(alloc: Global, a: &KeySet, b: &KeySet) -> Result<KeySet, AllocError>
    ensures { IfOk result (λ keys. keys ≡ intersection a.now b.now) }
{
    let mut keys = KeySet::new(alloc);
    for key in a.as_slice() {
        if b.contains(*key) {
            keys.insert(*key)?;
        }
    }
    Ok(keys)
}
