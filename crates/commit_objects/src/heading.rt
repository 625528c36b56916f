//! The lines of a commit up to the committer's.
ghost use Rattle.std.specs.Prelude.{◌≡◌, ◌++◌, IfOk, IfErr};
ghost use Rattle.std.specs.List.{AllByRecursion, flat_map};
ghost use Rattle.commit_objects.specs.Form.{sha1_form};
ghost use Rattle.commit_objects.specs.Lines.{IsIdOf, parent_line};
ghost use Rattle.commit_objects.specs.Faults.{NoIdLine, IsFault};
ghost use Rattle.commit_objects.specs.Heading.{HasHeading};

use crate::CommitFail;
use crate::lines::{id_line, text_line};
use byte_cuts::after;
use object_frames::{Id, IdList};
use std::alloc::{AllocError, Global};

/// What stands before the further headers, and what follows it.
#[derive(Drop)]
pub struct Heading<'x> {
    pub tree: Id,
    pub parents: IdList,
    pub rest: &'x [u8],
}

// Parent lines, and what follows them.
fn parent_lines(alloc: Global, text: &[u8]) -> Result<(IdList, &[u8]), AllocError>
    ensures { IfOk result (λ found. AllByRecursion (IsIdOf sha1_form) found.0 × (text.now ≡ flat_map parent_line found.0 ++ found.1.now) × NoIdLine sha1_form parent_line found.1.now) }
{
    let mut parents = IdList::new(alloc);
    let mut rest = text;
    'parents: while let Some(line) = id_line(rest, b"parent ") {
        parents.push(line.id)?;
        rest = line.rest;
    }
    Ok((parents, rest))
}

/// Reads the tree, the parents, the author and the committer.
pub fn read_heading(alloc: Global, content: &[u8]) -> Result<Heading<'_>, CommitFail>
    ensures found { IfOk result (λ h. HasHeading sha1_form content.now h.tree h.parents h.rest.now) }
    ensures fault { IfErr result (λ fail. IsFault sha1_form content.now fail) }
{
    let Some(tree) = id_line(content, b"tree ") else {
        return Err(CommitFail::NoTree);
    };
    let (parents, text) = parent_lines(alloc, tree.rest)?;
    if after(text, b"parent ").is_some() {
        return Err(CommitFail::Line((content.len() - text.len()) as u64));
    }
    let Some((_, text)) = text_line(text, b"author ") else {
        return Err(CommitFail::NoAuthor);
    };
    let Some((_, rest)) = text_line(text, b"committer ") else {
        return Err(CommitFail::NoCommitter);
    };
    if after(rest, b" ").is_some() {
        return Err(CommitFail::Line((content.len() - rest.len()) as u64));
    }
    Ok(Heading {
        tree: tree.id,
        parents,
        rest,
    })
}
