//! gpgv, as a program that says what a signature is worth under a keyring.
ghost use Rattle.std.specs.Prelude.{◌≡◌, List, ℕ, Bool, IfOk, OnOk, OnErr, IsTrue};
ghost use Rattle.child_ports.specs.Causes.{PortFailsByCount, one_more};
ghost use Rattle.child_ports.specs.Sig.{verdict};

use crate::{Bytes, Items, PortFail};
use std::alloc::Global;

/// What gpgv says of a signature on a payload, under a keyring: the bytes of its status output.
#[derive(Debug, Drop)]
pub struct SigRow {
    pub keyring: Bytes,
    pub signature: Bytes,
    pub payload: Bytes,
    pub answer: Bytes,
}

/// gpgv's verdicts. Of two rows for one question the first counts.
pub type SigRows = Items<SigRow>;

/// `gpgv`: a keyring is loaded, and then signatures are verified under it.
pub trait SigPort {
    ghost use Rattle.child_ports.specs.declared.sig.SigRow.{SigRow};

    /// How often a call has failed. It never falls, and stays at the last u64.
    ghost faults: { Self → ℕ };

    /// Whether the verdicts are told.
    ghost tells: { Self → Bool };

    /// The verdicts. No call changes them.
    ghost table: { Self → List SigRow };

    /// The keyring of the last `load` that answered Ok, empty at first.
    ghost loaded: { Self → List ℕ };

    /// How often `verify` was called, whatever it answered. It stays at the last u64.
    ghost asked: { Self → ℕ };

    /// Takes this keyring for the questions that follow.
    fn load(&mut self, keyring: &[u8]) -> Result<(), PortFail>
        ensures told { tells self.new ≡ tells self.old }
        ensures table { table self.new ≡ table self.old }
        ensures ok { OnOk result (loaded self.new ≡ keyring.now) }
        ensures err { OnErr result (loaded self.new ≡ loaded self.old) }
        ensures asked { asked self.new ≡ asked self.old }
        ensures cause { PortFailsByCount (faults self.old) (faults self.new) result };

    /// The status output on a signature and a payload.
    fn verify(&mut self, alloc: Global, signature: &[u8], payload: &[u8]) -> Result<Bytes, PortFail>
        ensures told { tells self.new ≡ tells self.old }
        ensures table { table self.new ≡ table self.old }
        ensures loaded { loaded self.new ≡ loaded self.old }
        ensures asked { asked self.new ≡ one_more (asked self.old) }
        ensures answer { IfOk result (λ status. IsTrue (tells self.old) → status ≡ verdict (table self.old) (loaded self.old) signature.now payload.now) }
        ensures cause { PortFailsByCount (faults self.old) (faults self.new) result };
}
