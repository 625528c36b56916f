//! A set of channels, and the verdict on it.
use channel_file::ChannelList;
use child_ports::{Items, Pairs, Text};
use object_frames::Id;

/// Channels that are authenticated together, with all that they depend on.
#[derive(Debug, Drop)]
pub struct SetTask {
    /// The folder of the clones: that of the channel NAME is `CLONES/NAME`.
    pub clones: Text,
    /// The channels that are given.
    pub channels: ChannelList,
    /// Whether a channel may go back, to an unrelated commit, or from one that is lost.
    pub allow_downgrades: bool,
    /// Whether channels are checked at all.
    pub check: bool,
}

/// How a channel's target stands to the commit that is deployed.
#[derive(Clone, Copy, Debug, PartialEq, Eq)]
pub enum Move {
    /// Nothing is deployed.
    New,
    Same,
    Forward,
    Back,
    Unrelated,
    /// The deployed commit is missing.
    Lost,
}

/// Whether a channel's target is authentic.
#[derive(Clone, Copy, Debug, PartialEq, Eq)]
pub enum Standing {
    Authentic,
    /// It is an ancestor of the introduction.
    Older,
    /// It wasn't checked: the channel has no introduction, or nothing is checked.
    Unchecked,
}

/// A channel of the set.
#[derive(Debug, Drop)]
pub struct Member {
    pub name: Text,
    pub target: Id,
    pub moved: Move,
    pub standing: Standing,
    pub url: Text,
    /// Where the channel says that it is fetched from.
    pub primary: Option<Text>,
    /// Whether it has an introduction.
    pub introduced: bool,
}

/// Channels of a set, in order.
pub type MemberList = Items<Member>;

/// What an accepted set came to.
#[derive(Debug, Drop)]
pub struct SetVerdict {
    pub members: MemberList,
    /// What is to be kept: for each channel its cache, where it changed, and its deployed commit, where it is another.
    pub store: Pairs,
}
