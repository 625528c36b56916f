//! A keyring.
use child_ports::{Bytes, KeySet};
use object_frames::Id;

/// The keyring of a branch.
#[derive(Debug, Drop)]
pub struct Keyring {
    /// The id of the branch's root tree.
    pub tree: Id,
    /// The packets of its key files, joined in the tree's order, which gpgv takes as a keyring.
    pub bytes: Bytes,
    /// The fingerprints of the keys among them.
    pub keys: KeySet,
}
