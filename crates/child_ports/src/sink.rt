//! Where texts go.
ghost use Rattle.std.specs.Prelude.{◌≡◌, ◌++◌, List, ℕ, Bool, OnOk, OnErr, IsTrue};
ghost use Rattle.child_ports.specs.Causes.{FailsByCount};
ghost use Rattle.child_ports.specs.Sink.{TakesFront};

use crate::Failed;

/// A stream that takes bytes.
pub trait Sink {
    /// How often a call has failed. It never falls, and stays at the last u64.
    ghost faults: { Self → ℕ };

    /// Whether what was taken is told.
    ghost tells: { Self → Bool };

    /// All that was taken.
    ghost taken: { Self → List ℕ };

    /// Takes all the bytes, or fails and takes a front of them.
    fn put(&mut self, bytes: &[u8]) -> Result<(), Failed>
        ensures told { tells self.new ≡ tells self.old }
        ensures ok { OnOk result (IsTrue (tells self.old) → taken self.new ≡ taken self.old ++ bytes.now) }
        ensures failed { OnErr result (IsTrue (tells self.old) → TakesFront (taken self.old) (taken self.new) bytes.now) }
        ensures cause { FailsByCount (faults self.old) (faults self.new) result };
}
