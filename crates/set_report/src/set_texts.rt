//! Why a set of channels isn't accepted, as a line.
ghost use Rattle.std.specs.Prelude.{◌≡◌, ◌++◌, codes, OnOk, IfOk};
ghost use Rattle.hex.specs.Hex.{encode_lower};
ghost use Rattle.channel_deps.specs.declared.set_fail.SetFail.TheVariants.{Channel, Metadata, Downgrade, UnrelatedMove, DeployedMissing};
ghost use Rattle.auth_report.specs.Parts.{shown};
ghost use Rattle.set_report.specs.SetTexts.{set_text, set_refusal_line};

use crate::list_texts::push_channel_fail;
use crate::names::push_between;
use auth_engine::EngineFail;
use auth_report::{push_fail, push_id};
use channel_deps::SetFail;
use channel_file::ChannelFail;
use child_ports::{Bytes, Text};
use object_frames::Id;
use std::alloc::{AllocError, Global};

// Adds a channel of which the target can't be had or isn't authentic, and why.
fn push_channel(text: &mut Bytes, name: &Text, fail: &EngineFail) -> Result<(), AllocError>
    ensures { OnOk result (text.new ≡ text.old ++ set_text (Channel name.now fail.now)) }
{
    push_between(text, b"channel ", name, b": ")?;
    push_fail(text, fail)
}

// Adds a channel of which the metadata isn't of the form, and why.
fn push_metadata(text: &mut Bytes, name: &Text, fail: &ChannelFail) -> Result<(), AllocError>
    ensures { OnOk result (text.new ≡ text.old ++ set_text (Metadata name.now fail.now)) }
{
    push_between(text, b"channel ", name, b": .guix-channel: ")?;
    push_channel_fail(text, fail)
}

// Adds a channel that would move from one commit to another.
fn push_moved(
    text: &mut Bytes,
    name: &Text,
    words: &[u8],
    old: Id,
    more: &[u8],
    new: Id,
) -> Result<(), AllocError>
    ensures { OnOk result (text.new ≡ text.old ++ (codes "channel " ++ shown name.now ++ words.now ++ encode_lower old ++ more.now ++ encode_lower new)) }
{
    push_between(text, b"channel ", name, words)?;
    push_id(text, old)?;
    text.extend(more)?;
    push_id(text, new)
}

// Adds a channel that would go back.
fn push_downgrade(text: &mut Bytes, name: &Text, old: Id, new: Id) -> Result<(), AllocError>
    ensures { OnOk result (text.new ≡ text.old ++ set_text (Downgrade name.now old new)) }
{
    push_moved(text, name, b" would go back from ", old, b" to ", new)
}

// Adds a channel that would move to an unrelated commit.
fn push_unrelated(text: &mut Bytes, name: &Text, old: Id, new: Id) -> Result<(), AllocError>
    ensures { OnOk result (text.new ≡ text.old ++ set_text (UnrelatedMove name.now old new)) }
{
    push_moved(
        text,
        name,
        b" would move from ",
        old,
        b" to unrelated ",
        new,
    )
}

// Adds a channel of which the deployed commit is missing.
fn push_missing(text: &mut Bytes, name: &Text, old: Id) -> Result<(), AllocError>
    ensures { OnOk result (text.new ≡ text.old ++ set_text (DeployedMissing name.now old)) }
{
    push_between(text, b"channel ", name, b": deployed commit ")?;
    push_id(text, old)?;
    text.extend(b" is missing")
}

// Adds why a set isn't accepted.
fn push_set_fail(text: &mut Bytes, fail: &SetFail) -> Result<(), AllocError>
    ensures { OnOk result (text.new ≡ text.old ++ set_text fail.now) }
{
    match fail {
        SetFail::Channel { name, fail } => push_channel(text, name, fail),
        SetFail::Metadata { name, fail } => push_metadata(text, name, fail),
        SetFail::Record(name) => push_between(text, b"channel ", name, b": bad deployed record"),
        SetFail::Downgrade { name, old, new } => push_downgrade(text, name, *old, *new),
        SetFail::UnrelatedMove { name, old, new } => push_unrelated(text, name, *old, *new),
        SetFail::DeployedMissing { name, old } => push_missing(text, name, *old),
        SetFail::TooManyChannels => text.extend(b"more than 256 channels"),
        SetFail::GitFault => text.extend(b"git failed"),
        SetFail::SigFault => text.extend(b"gpgv failed"),
        SetFail::KeepFault => text.extend(b"the store failed"),
        SetFail::Memory => text.extend(b"out of memory"),
    }
}

/// The line on standard error for a set that isn't accepted.
pub fn set_refusal(alloc: Global, fail: &SetFail) -> Result<Bytes, AllocError>
    ensures { IfOk result (λ line. line ≡ set_refusal_line fail.now) }
{
    let mut line = Bytes::new(alloc);
    line.extend(b"guix-auth: ")?;
    push_set_fail(&mut line, fail)?;
    line.extend(b"\n")?;
    Ok(line)
}
