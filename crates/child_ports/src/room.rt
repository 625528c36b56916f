//! The files that words name.
ghost use Rattle.std.specs.Prelude.{◌≡◌, ℕ, Bool, IfOk, IsTrue};
ghost use Rattle.std.specs.FinMap as map;
ghost use Rattle.child_ports.specs.Causes.{PortFailsByCount};
ghost use Rattle.child_ports.specs.Keeper.{Kept};

use crate::{Bytes, PortFail};
use std::alloc::Global;

/// Files that are only read.
pub trait FileRoom {
    /// How often a call has failed. It never falls, and stays at the last u64.
    ghost faults: { Self → ℕ };

    /// Whether the files are told.
    ghost tells: { Self → Bool };

    /// The files' bytes by their paths. No call changes them.
    ghost files: { Self → Kept };

    /// The bytes of a file, or None where the path isn't there.
    fn read(&mut self, alloc: Global, path: &str) -> Result<Option<Bytes>, PortFail>
        ensures told { tells self.new ≡ tells self.old }
        ensures files { files self.new ≡ files self.old }
        ensures value { IfOk result (λ bytes. IsTrue (tells self.old) → bytes ≡ map.get (files self.old) path.now) }
        ensures cause { PortFailsByCount (faults self.old) (faults self.new) result };
}
