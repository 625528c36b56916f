//! Why a file gives no keys.
use std::alloc::AllocError;

/// Why a key file gives no keys: its armour's fault, else that of its packets.
#[derive(Clone, Copy, Debug, PartialEq, Eq)]
pub enum KeyFail {
    /// The armour block that begins in this line, counted from 1, isn't of the form.
    Armor(u64),
    /// The packet at this offset of the dearmored bytes has no header of a packet.
    Packet(u64),
    /// The packet at this offset of the dearmored bytes has no length, or its body isn't whole, or is too long for a key.
    Length(u64),
    /// No packet is a version 4 key.
    NoKey,
    /// Memory is wanting.
    Memory,
}

impl From<AllocError> for KeyFail {
    ghost use Rattle.std.specs.Prelude.{◌≡◌};
    ghost use Rattle.keyring_branch.specs.declared.key_fail.KeyFail.TheVariants.{Memory};

    ghost from_gives = { λ _ e. e ≡ Memory };

    fn from(_: AllocError) -> Self {
        KeyFail::Memory
    }
}
