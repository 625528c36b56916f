//! Values that own what was read.
ghost use Rattle.std.specs.Prelude.{◌≡◌, IfOk};
ghost use Rattle.std.specs.Option.{option_copied};

use crate::{Channel, Introduction};
use child_ports::Text;
use object_frames::Id;
use std::alloc::{AllocError, Global};

/// A text of its own.
pub fn make_text(alloc: Global, part: &str) -> Result<Text, AllocError>
    ensures { IfOk result (λ text. text ≡ part.now) }
{
    let mut text = Text::new(alloc);
    text.push(part)?;
    Ok(text)
}

/// The same, if there is one.
pub fn make_text_if_any(alloc: Global, part: Option<&str>) -> Result<Option<Text>, AllocError>
    ensures { IfOk result (λ text. text ≡ option_copied part.entry) }
{
    match part {
        Some(part) => Ok(Some(make_text(alloc, part)?)),
        None => Ok(None),
    }
}

/// A channel of these parts.
pub fn make_channel(
    alloc: Global,
    name: &str,
    url: &str,
    branch: &str,
    commit: Option<Id>,
    introduction: Option<Introduction>,
) -> Result<Channel, AllocError>
    ensures { IfOk result (λ channel. channel ≡ record {
      name = name.now;
      url = url.now;
      branch = branch.now;
      commit = commit;
      introduction = introduction;
    }) }
{
    let name = make_text(alloc, name)?;
    let url = make_text(alloc, url)?;
    let branch = make_text(alloc, branch)?;
    Ok(Channel {
        name,
        url,
        branch,
        commit,
        introduction,
    })
}
