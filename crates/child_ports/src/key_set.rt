//! Sets of keys.
ghost use Rattle.std.specs.Prelude.{◌≡◌, OnOk, OnErr};
ghost use Rattle.std.specs.FinSet as set;
ghost use Rattle.std.specs.List.Sorted.{IsStrictlySortedBy};
ghost use Rattle.child_ports.specs.KeySet.{key_cmp};

#[cfg(test)]
mod tests;

use crate::Fingerprint;
use std::alloc::{AllocError, Global};
use std::marker::Model;

/// A set of keys. Contracts see the finite set of their fingerprints.
#[derive(Debug, Drop)]
pub struct KeySet {
    // ascending by their bytes, each once
    keys: Vec<Fingerprint>,
}

impl Model for KeySet {
    ghost use Rattle.std.specs.FinSet.{from_list};
    ghost use Rattle.std.specs.List.Sorted.{IsStrictlySortedBy};
    ghost use Rattle.child_ports.specs.KeySet.{Keys, coded_keys, key_cmp};

    ghost Value = { Keys };

    ghost coded = { coded_keys };

    ghost view = { λ s. from_list s.keys.items };

    ghost invariant = { λ s. IsStrictlySortedBy key_cmp s.keys.items };
}

impl KeySet {
    /// The set without keys.
    pub fn new(alloc: Global) -> KeySet
        ensures { result ≡ set.empty }
    {
        KeySet {
            keys: Vec::new(alloc),
        }
    }

    /// How many keys there are.
    pub fn len(&self) -> usize
        ensures { result ≡ set.len self.now }
    {
        self.as_slice().len()
    }

    /// Whether the key is in the set.
    pub fn contains(&self, key: Fingerprint) -> bool
        ensures { result ≡ set.contains self.now key }
    {
        self.as_slice().binary_search(&key).is_ok()
    }

    /// The keys, ascending by their bytes, each once.
    pub fn as_slice(&self) -> &[Fingerprint]
        ensures keys { self.now ≡ set.from_list result.now }
        ensures ascending { IsStrictlySortedBy key_cmp result.now }
    {
        self.keys.as_slice()
    }

    /// Adds a key, unless it is in the set.
    pub fn insert(&mut self, key: Fingerprint) -> Result<(), AllocError>
        ensures ok { OnOk result (self.new ≡ set.insert self.old key) }
        ensures err { OnErr result (self.new ≡ self.old) }
    {
        if let Err(place) = self.keys.binary_search(&key) {
            self.keys.insert(place, key)?;
        }
        Ok(())
    }
}
