//! The commands.
use child_ports::{Fingerprint, Text};
use object_frames::Id;

/// What `authenticate` is asked for.
#[derive(Debug, Drop)]
pub struct Plan {
    pub intro: Id,
    pub signer: Fingerprint,
    pub repository: Text,
    /// The branch of keys.
    pub keyring: Text,
    /// What names the target commit.
    pub end: Text,
    pub stats: bool,
    pub cache_key: Text,
    /// The file of historical keys, where one is named.
    pub historical: Option<Text>,
}

/// What `channels` is asked for.
#[derive(Debug, Drop)]
pub struct ChannelsPlan {
    pub file: Text,
    /// The folder of the clones.
    pub clones: Text,
    pub allow_downgrades: bool,
    /// Whether channels are checked at all.
    pub check: bool,
}

/// A command that words state.
#[derive(Debug, Drop)]
pub enum Command {
    Help,
    Authenticate(Plan),
    Channels(ChannelsPlan),
}
