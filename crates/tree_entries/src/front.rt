//! The entry at the front of what is left of a content.
ghost use Rattle.std.specs.Prelude.{◌≡◌, Ok, Err, IfOk, MatchResult};
ghost use Rattle.tree_entries.specs.declared.front.FrontEntry.{FrontEntry};
ghost use Rattle.tree_entries.specs.declared.entry.Entry.{Entry};
ghost use Rattle.tree_entries.specs.Tree.{has, is_name};
ghost use Rattle.tree_entries.specs.Reading.{front_of};
ghost use Rattle.tree_entries.specs.Front.{entry_of, Reads};

use crate::mode::begins_mode;
use crate::{Entry, Mode, TreeFail};
use byte_cuts::cut_at;
use child_ports::Bytes;
use object_frames::Id;
use std::alloc::{AllocError, Global};

/// An entry as it stands in a content, and what follows it.
#[derive(Clone, Copy, Drop)]
pub struct FrontEntry<'x> {
    pub mode: Mode,
    pub name: &'x [u8],
    pub id: Id,
    pub rest: &'x [u8],
}

impl FrontEntry<'_> {
    /// The entry, to be handed out.
    pub fn to_entry(&self, alloc: Global) -> Result<Entry, AllocError>
        ensures { IfOk result (λ entry. entry ≡ entry_of self.now) }
    {
        Ok(Entry {
            mode: self.mode,
            name: Bytes::from_slice(alloc, self.name)?,
            id: self.id,
        })
    }
}

// Whether one of the bytes is this.
fn has(byte: u8, bytes: &[u8]) -> bool
    ensures { result ≡ has byte bytes.now }
{
    cut_at(bytes, byte).is_some()
}

/// Reads the entry at the front of what is left, which begins at this place of the content.
pub fn front_entry(content: &[u8], place: u64) -> Result<FrontEntry<'_>, TreeFail>
    ensures { MatchResult result (λ entry. Reads 20 place content.now (entry_of entry) entry.rest.now) (λ fail. front_of 20 place content.now ≡ Err fail) }
{
    let Some((digits, text)) = cut_at(content, b' ') else {
        return Err(if begins_mode(content) {
            TreeFail::Cut(place)
        } else {
            TreeFail::Mode(place)
        });
    };
    let Some(mode) = Mode::of_digits(digits) else {
        return Err(TreeFail::Mode(place));
    };
    let Some((name, text)) = cut_at(text, 0) else {
        return Err(if has(b'/', text) {
            TreeFail::Name(place)
        } else {
            TreeFail::Cut(place)
        });
    };
    if name.is_empty() || has(b'/', name) {
        return Err(TreeFail::Name(place));
    }
    let Some((id, rest)) = text.split_first_chunk::<20>() else {
        return Err(TreeFail::Cut(place));
    };
    Ok(FrontEntry {
        mode,
        name,
        id: Id::of_bytes(*id),
        rest,
    })
}
