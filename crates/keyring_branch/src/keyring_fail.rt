//! Why a branch gives no keyring.
use crate::KeyFail;
use child_ports::{Bytes, PortFail};
use object_frames::{FrameFail, Kind};
use std::alloc::AllocError;
use tree_entries::TreeFail;

/// Why a key file gives no keys.
#[derive(Clone, Copy, Debug, PartialEq, Eq)]
pub enum FileBad {
    /// Nothing has its id.
    Missing,
    /// Git's answer to its id isn't the object's frame, or the object is longer than a key file may be.
    Frame(FrameFail),
    /// It is of this kind, and not a blob.
    Kind(Kind),
    /// It is no key file.
    Key(KeyFail),
}

/// Why a branch gives no keyring. Neither a failed call nor want of memory stands inside another variant.
#[derive(Debug, Drop)]
pub enum KeyringFail {
    /// A call of git failed.
    GitFault,
    /// Each of the names is missing.
    NoBranch,
    /// Git's answer to the first name that isn't missing is no object's frame, or the object is longer than a tree may be.
    Frame(FrameFail),
    /// It is of this kind, and not a tree.
    Kind(Kind),
    /// It can't be read as a tree.
    Tree(TreeFail),
    /// The first key file at fault, in the tree's order.
    File { name: Bytes, bad: FileBad },
    /// The packets of the key files so far pass 67,108,864 bytes.
    TooLarge,
    /// Memory is wanting.
    Memory,
}

impl From<AllocError> for KeyringFail {
    ghost use Rattle.std.specs.Prelude.{◌≡◌};
    ghost use Rattle.keyring_branch.specs.declared.keyring_fail.KeyringFail.TheVariants.{Memory};

    ghost from_gives = { λ _ e. e ≡ Memory };

    fn from(_: AllocError) -> Self {
        KeyringFail::Memory
    }
}

impl From<PortFail> for KeyringFail {
    ghost use Rattle.std.specs.Prelude.{◌≡◌};
    ghost use Rattle.keyring_branch.specs.PortFails.{fail_of};

    ghost from_gives = { λ fail e. e ≡ fail_of fail };

    fn from(fail: PortFail) -> Self {
        match fail {
            PortFail::Failed => KeyringFail::GitFault,
            PortFail::Memory => KeyringFail::Memory,
        }
    }
}
