//! What is found of one channel, step by step.
use crate::{Member, Standing};
use channel_file::{ChannelList, Metadata};
use child_ports::{Pair, Pairs};
use object_frames::Id;

/// What a channel's clone says.
#[derive(Debug, Drop)]
pub struct Known {
    pub target: Id,
    pub metadata: Metadata,
}

/// What its check came to.
#[derive(Debug, Drop)]
pub struct Checked {
    pub standing: Standing,
    /// What is to be kept of it.
    pub cache: Option<Pair>,
}

/// All that is found of it.
#[derive(Debug, Drop)]
pub struct Taken {
    pub member: Member,
    /// What is to be kept for it.
    pub store: Pairs,
    /// The channels that it mentions.
    pub mentions: ChannelList,
}
