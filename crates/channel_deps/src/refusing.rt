//! Refusals of one channel.
ghost use Rattle.channel_deps.specs.Answers.{IsPlainFail};
ghost use Rattle.channel_deps.specs.Steps.{IsToldOf, IsMetadataTold};

use crate::SetFail;
use crate::places::copied;
use auth_engine::EngineFail;
use channel_file::{Channel, ChannelFail};
use std::alloc::Global;

/// A refusal of one channel, told with its name. A fault and want of memory are told as themselves.
pub fn channel_fail(alloc: Global, channel: &Channel, fail: EngineFail) -> SetFail
    ensures told { IsToldOf channel.now fail result }
    ensures plain { IsPlainFail result }
{
    match fail {
        EngineFail::GitFault => SetFail::GitFault,
        EngineFail::SigFault => SetFail::SigFault,
        EngineFail::KeepFault => SetFail::KeepFault,
        EngineFail::Memory => SetFail::Memory,
        fail => match copied(alloc, &channel.name) {
            Ok(name) => SetFail::Channel { name, fail },
            Err(_) => SetFail::Memory,
        },
    }
}

/// A fault of a channel's metadata, told with its name.
pub fn metadata_fail(alloc: Global, channel: &Channel, fail: ChannelFail) -> SetFail
    ensures { IsMetadataTold channel.now fail result }
{
    match fail {
        ChannelFail::Memory => SetFail::Memory,
        fail => match copied(alloc, &channel.name) {
            Ok(name) => SetFail::Metadata { name, fail },
            Err(_) => SetFail::Memory,
        },
    }
}
