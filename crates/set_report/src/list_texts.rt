//! Why bytes are no list of channels, or no metadata, as a text.
ghost use Rattle.std.specs.Prelude.{◌≡◌, ◌++◌, OnOk, IfOk};
ghost use Rattle.set_report.specs.ListTexts.{field_word, channel_text, list_line};

use crate::names::{push_between, push_text};
use auth_report::{push_name, push_numbered, push_sexp};
use channel_file::{ChannelFail, Field};
use child_ports::Bytes;
use std::alloc::{AllocError, Global};

// Adds what is of another form.
fn push_field(text: &mut Bytes, field: Field) -> Result<(), AllocError>
    ensures { OnOk result (text.new ≡ text.old ++ field_word field) }
{
    match field {
        Field::Channel => text.extend(b"channel"),
        Field::Name => text.extend(b"name"),
        Field::Url => text.extend(b"url"),
        Field::Branch => text.extend(b"branch"),
        Field::Commit => text.extend(b"commit"),
        Field::Introduction => text.extend(b"introduction"),
        Field::Directory => text.extend(b"directory"),
        Field::KeyringReference => text.extend(b"keyring-reference"),
        Field::NewsFile => text.extend(b"news-file"),
        Field::Dependencies => text.extend(b"dependencies"),
    }
}

/// Adds why bytes are no list of channels, or no metadata.
pub fn push_channel_fail(text: &mut Bytes, fail: &ChannelFail) -> Result<(), AllocError>
    ensures { OnOk result (text.new ≡ text.old ++ channel_text fail.now) }
{
    match fail {
        ChannelFail::Sexp(fail) => push_sexp(text, *fail),
        ChannelFail::Evaluates(symbol) => {
            push_text(text, symbol)?;
            text.extend(b" would have to be evaluated")
        }
        ChannelFail::Shape(field) => {
            text.extend(b"bad ")?;
            push_field(text, *field)
        }
        ChannelFail::Version(n) => push_numbered(text, b"version ", *n, b" is not supported"),
        ChannelFail::Name(index) => {
            push_numbered(text, b"channel ", *index, b" has no valid name")
        }
        ChannelFail::Twice(name) => push_between(text, b"channel ", name, b" is listed twice"),
        ChannelFail::Memory => text.extend(b"out of memory"),
    }
}

/// The line on standard error for a file that is no list of channels.
pub fn list_refusal(alloc: Global, path: &str, fail: &ChannelFail) -> Result<Bytes, AllocError>
    ensures { IfOk result (λ line. line ≡ list_line path.now fail.now) }
{
    let mut line = Bytes::new(alloc);
    line.extend(b"guix-auth: file ")?;
    push_name(&mut line, path.as_bytes())?;
    line.extend(b": ")?;
    push_channel_fail(&mut line, fail)?;
    line.extend(b"\n")?;
    Ok(line)
}
