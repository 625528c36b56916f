//! Why a set of channels isn't accepted.
use auth_engine::EngineFail;
use channel_file::ChannelFail;
use child_ports::Text;
use object_frames::Id;

/// Why a set isn't accepted: the first of these, channel by channel.
#[derive(Debug, Drop)]
pub enum SetFail {
    /// A channel's target can't be had or isn't authentic. Never a fault of a port, and never `Memory`.
    Channel { name: Text, fail: EngineFail },
    /// Its file `.guix-channel` isn't of the form. Never `Memory`.
    Metadata { name: Text, fail: ChannelFail },
    /// What is kept as its deployed commit is no record.
    Record(Text),
    /// Its target is an ancestor of the deployed commit.
    Downgrade { name: Text, old: Id, new: Id },
    /// Neither of its target and the deployed commit reaches the other.
    UnrelatedMove { name: Text, old: Id, new: Id },
    /// Its deployed commit is missing.
    DeployedMissing { name: Text, old: Id },
    /// There are more than 256 channels.
    TooManyChannels,
    /// A call of git failed.
    GitFault,
    /// A call of gpgv failed.
    SigFault,
    /// A call of the keeper failed.
    KeepFault,
    /// Memory is wanting.
    Memory,
}
