//! The places of rows by a key of theirs, in an ordered map.
ghost use Rattle.std.specs.Prelude.{◌≡◌, List, ℕ, cond, bytes_eq, OnOk, Some, None};
ghost use Rattle.child_ports.specs.Places.{place_of};

use std::alloc::{AllocError, Global};
use std::collections::BTreeMap;

/// A place for each of some keys.
#[derive(Drop)]
pub struct Places {
    pub map: BTreeMap<Vec<u8>, usize>,
}

impl Places {
    /// No places.
    pub fn new(alloc: Global) -> Places
        ensures { (key : List ℕ) → place_of result key ≡ None }
    {
        Places {
            map: BTreeMap::new(alloc),
        }
    }

    /// The place for a key.
    pub fn get(&self, key: &[u8]) -> Option<usize>
        ensures { result ≡ place_of self.now key.now }
    {
        self.map.get(key).copied()
    }

    /// Puts the place for a key.
    pub fn put(&mut self, alloc: Global, key: &[u8], place: usize) -> Result<(), AllocError>
        ensures { OnOk result ((other : List ℕ) → place_of self.new other ≡ cond (bytes_eq key.now other) (Some place) (place_of self.old other)) }
    {
        let key = Vec::from_slice(alloc, key)?;
        self.map.insert(key, place)?;
        Ok(())
    }
}
