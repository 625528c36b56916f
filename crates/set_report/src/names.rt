//! Names and addresses in a text.
ghost use Rattle.std.specs.Prelude.{◌≡◌, ◌++◌, OnOk};
ghost use Rattle.auth_report.specs.Parts.{shown};

use auth_report::push_name;
use child_ports::{Bytes, Text};
use std::alloc::AllocError;

/// Adds a name as it is printed.
pub fn push_text(text: &mut Bytes, name: &Text) -> Result<(), AllocError>
    ensures { OnOk result (text.new ≡ text.old ++ shown name.now) }
{
    push_name(text, name.as_str().as_bytes())
}

/// Adds a name between words.
pub fn push_between(
    text: &mut Bytes,
    words: &[u8],
    name: &Text,
    more: &[u8],
) -> Result<(), AllocError>
    ensures { OnOk result (text.new ≡ text.old ++ (words.now ++ shown name.now ++ more.now)) }
{
    text.extend(words)?;
    push_text(text, name)?;
    text.extend(more)
}
