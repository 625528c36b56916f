//! What is to be known of the channels of an accepted set, as lines on standard error.
ghost use Rattle.std.specs.Prelude.{◌≡◌, ◌++◌, OnOk, IfOk};
ghost use Rattle.set_report.specs.Warnings.{mirror_line, mirror_warning, unauthenticated_line, unauthenticated_warning, member_warnings, set_warnings_text};

use crate::names::{push_between, push_text};
use channel_deps::{Member, SetVerdict};
use child_ports::{Bytes, Text};
use std::alloc::{AllocError, Global};

// Adds the warning on a mirror.
fn push_mirror_line(
    text: &mut Bytes,
    name: &Text,
    url: &Text,
    primary: &Text,
) -> Result<(), AllocError>
    ensures { OnOk result (text.new ≡ text.old ++ mirror_line name.now url.now primary.now) }
{
    push_between(
        text,
        b"guix-auth: warning: channel ",
        name,
        b" is fetched from ",
    )?;
    push_text(text, url)?;
    text.extend(b", a mirror of ")?;
    push_text(text, primary)?;
    text.extend(b"\n")
}

// Adds the warning on a channel that is fetched from elsewhere than it says.
fn push_mirror(text: &mut Bytes, member: &Member) -> Result<(), AllocError>
    ensures { OnOk result (text.new ≡ text.old ++ mirror_warning member.now) }
{
    let Some(primary) = &member.primary else {
        return Ok(());
    };
    if primary.as_str() == member.url.as_str() {
        return Ok(());
    }
    push_mirror_line(text, &member.name, &member.url, primary)
}

// Adds the warning on a channel that isn't authenticated.
fn push_unauthenticated_line(text: &mut Bytes, name: &Text) -> Result<(), AllocError>
    ensures { OnOk result (text.new ≡ text.old ++ unauthenticated_line name.now) }
{
    push_between(
        text,
        b"guix-auth: warning: channel ",
        name,
        b" has no introduction and is not authenticated",
    )?;
    text.extend(b"\n")
}

// Adds it where a member has no introduction.
fn push_unauthenticated(text: &mut Bytes, member: &Member) -> Result<(), AllocError>
    ensures { OnOk result (text.new ≡ text.old ++ unauthenticated_warning member.now) }
{
    if member.introduced {
        return Ok(());
    }
    push_unauthenticated_line(text, &member.name)
}

// Adds the warnings on a member.
fn push_warnings(text: &mut Bytes, member: &Member) -> Result<(), AllocError>
    ensures { OnOk result (text.new ≡ text.old ++ member_warnings member.now) }
{
    push_mirror(text, member)?;
    push_unauthenticated(text, member)
}

/// The warnings on each member of a set, in order: that it is a mirror, and that it has no introduction.
pub fn set_warnings(alloc: Global, verdict: &SetVerdict) -> Result<Bytes, AllocError>
    ensures { IfOk result (λ text. text ≡ set_warnings_text verdict.now) }
{
    let mut text = Bytes::new(alloc);
    for member in verdict.members.as_slice() {
        push_warnings(&mut text, member)?;
    }
    Ok(text)
}
