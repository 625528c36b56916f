//! The keeper of records: values by their keys.
ghost use Rattle.std.specs.Prelude.{◌≡◌, ◌⊎◌, ℕ, Bool, IfOk, OnOk, IsErrOf, IsTrue};
ghost use Rattle.std.specs.FinMap as map;
ghost use Rattle.child_ports.specs.Causes.{PortFailsByCount, one_more};
ghost use Rattle.child_ports.specs.Keeper.{Kept, with_pairs};

use crate::{Bytes, Items, PortFail, Text};
use std::alloc::Global;

/// A key and its value.
#[derive(Debug, Drop)]
pub struct Pair {
    pub key: Text,
    pub value: Bytes,
}

pub type Pairs = Items<Pair>;

/// A store of values by keys, in which several pairs are put at once.
pub trait Keeper {
    /// How often a call has failed. It never falls, and stays at the last u64.
    ghost faults: { Self → ℕ };

    /// Whether what is kept is told. It may cease to be at a `store` that failed, and never comes back.
    ghost tells: { Self → Bool };

    /// How often `store` was called, whatever it answered. It stays at the last u64.
    ghost stores: { Self → ℕ };

    /// The values by their keys.
    ghost kept: { Self → Kept };

    /// The value at a key, if there is one.
    fn load(&mut self, alloc: Global, key: &str) -> Result<Option<Bytes>, PortFail>
        ensures told { tells self.new ≡ tells self.old }
        ensures kept { kept self.new ≡ kept self.old }
        ensures stores { stores self.new ≡ stores self.old }
        ensures value { IfOk result (λ value. IsTrue (tells self.old) → value ≡ map.get (kept self.old) key.now) }
        ensures cause { PortFailsByCount (faults self.old) (faults self.new) result };

    /// Puts each pair, in order. After a failed call all of them are there or none, and after want of
    /// memory none.
    fn store(&mut self, pairs: &Pairs) -> Result<(), PortFail>
        ensures told { IsTrue (tells self.new) → IsTrue (tells self.old) }
        ensures ok { OnOk result (IsTrue (tells self.old) → IsTrue (tells self.new) × (kept self.new ≡ with_pairs (kept self.old) pairs.now)) }
        ensures failed { IsErrOf result PortFail.Failed → IsTrue (tells self.old) → IsTrue (tells self.new) →
            (kept self.new ≡ kept self.old) ⊎ (kept self.new ≡ with_pairs (kept self.old) pairs.now) }
        ensures memory { IsErrOf result PortFail.Memory → IsTrue (tells self.old) → IsTrue (tells self.new) × (kept self.new ≡ kept self.old) }
        ensures stores { stores self.new ≡ one_more (stores self.old) }
        ensures cause { PortFailsByCount (faults self.old) (faults self.new) result };
}
