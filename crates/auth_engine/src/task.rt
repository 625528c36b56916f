//! What is to be authenticated, and the verdict.
use authorizations::{Fingerprint, KeySet};
use child_ports::{Items, Names, Pair, Text};
use object_frames::Id;

/// A target, and the introduction that trust begins with.
#[derive(Debug, Drop)]
pub struct Task {
    /// The directory of the repository.
    pub dir: Text,
    /// The names of the target, tried in order.
    pub target: Names,
    /// The introduction's id.
    pub intro: Id,
    /// The key that has to have signed the introduction.
    pub signer: Fingerprint,
    /// The keys that count where a commit has no file of authorisations.
    pub historical: KeySet,
    /// The names of the keyring branch's root tree, tried in order.
    pub keyring: Names,
    /// The key under which the cache is kept.
    pub cache_key: Text,
}

/// How many of the commits that were judged a key signed.
#[derive(Clone, Copy, Debug, PartialEq, Eq)]
pub struct Signer {
    pub key: Fingerprint,
    pub commits: u32,
}

/// Signers, by descending count and then by fingerprint.
pub type SignerList = Items<Signer>;

/// What an accepted target came to.
#[derive(Debug, Drop)]
pub struct Verdict {
    pub target: Id,
    /// Whether the target is an ancestor of the introduction.
    pub older: bool,
    /// How many commits were judged.
    pub judged: u32,
    pub signers: SignerList,
    /// What is to be kept: the cache with the target in it, unless the cache or the introduction covers the target.
    pub store: Option<Pair>,
}
