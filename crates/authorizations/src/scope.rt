//! What a history is checked against.
use crate::{Fingerprint, KeySet};
use object_frames::Id;

/// What one check of a history holds by, after Guix's manual, "Channels".
#[derive(Debug, Drop)]
pub struct Scope {
    /// The commit that introduces the channel.
    pub intro: Id,
    /// The key that signed the introduction.
    pub signer: Fingerprint,
    /// The tree of the commit that has the keys.
    pub keyring_tree: Id,
    /// The keys that count where a commit has no file of authorisations.
    pub historical: KeySet,
}
