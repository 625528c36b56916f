//! Channels, and what is said of one.
use child_ports::{Fingerprint, Items, Text};
use object_frames::Id;

/// The commit from which on a channel is authentic, and the key that signed it.
#[derive(Clone, Copy, Debug, Drop, PartialEq, Eq)]
pub struct Introduction {
    /// The first commit whose signer counts.
    pub commit: Id,
    /// The key that signed this commit.
    pub signer: Fingerprint,
}

/// A channel, after Guix's manual, "Channels".
#[derive(Debug, Drop)]
pub struct Channel {
    /// 1 to 64 ASCII letters, digits, or bytes of `-_+.`, the first a letter or a digit.
    pub name: Text,
    /// Where the channel is fetched from.
    pub url: Text,
    /// The branch that is taken, `master` where none is named.
    pub branch: Text,
    /// The commit that is taken in place of the branch's last one.
    pub commit: Option<Id>,
    /// What a check of the channel begins with.
    pub introduction: Option<Introduction>,
}

/// Channels, in order.
pub type ChannelList = Items<Channel>;

/// What a channel says of itself in its file `.guix-channel`.
#[derive(Debug, Drop)]
pub struct Metadata {
    /// Where the modules of the channel stand.
    pub directory: Option<Text>,
    /// Where the channel is fetched from, if this isn't a mirror.
    pub url: Option<Text>,
    /// The branch that has the keys.
    pub keyring_reference: Option<Text>,
    /// The file that has the news.
    pub news_file: Option<Text>,
    /// The channels that this one needs, in order.
    pub dependencies: ChannelList,
}
