//! What a call on the outside may answer in place of its value.
ghost use Rattle.std.specs.Prelude.{◌≡◌};
ghost use Rattle.child_ports.specs.declared.fail.PortFail.TheVariants as fails;

use std::alloc::AllocError;

/// A call on a port failed.
#[derive(Clone, Copy, Debug, PartialEq, Eq)]
pub struct Failed;

/// Why a call that takes memory has no value.
#[derive(Clone, Copy, Debug, PartialEq, Eq)]
pub enum PortFail {
    /// The call failed.
    Failed,
    /// Memory is wanting; nothing failed.
    Memory,
}

impl From<AllocError> for PortFail {
    ghost from_gives = { λ _ e. e ≡ fails.Memory };

    fn from(_: AllocError) -> Self {
        PortFail::Memory
    }
}

impl From<Failed> for PortFail {
    ghost from_gives = { λ _ e. e ≡ fails.Failed };

    fn from(_: Failed) -> Self {
        PortFail::Failed
    }
}
