//! Why an object can't be had, as a text.
ghost use Rattle.std.specs.Prelude.{◌≡◌, ◌++◌, OnOk};
ghost use Rattle.auth_report.specs.Texts.{frame_text, kind_text, commit_text, tree_text, what_text, object_text};

use crate::parts::{push_id, push_named, push_number, push_place};
use auth_rules::What;
use child_ports::Bytes;
use commit_objects::CommitFail;
use object_frames::{FrameFail, Id, Kind};
use std::alloc::AllocError;
use tree_entries::TreeFail;

/// Adds why git's answer isn't an object's frame.
pub fn push_frame(text: &mut Bytes, fail: FrameFail) -> Result<(), AllocError>
    ensures { OnOk result (text.new ≡ text.old ++ frame_text fail) }
{
    match fail {
        FrameFail::Failed => text.extend(b"git failed"),
        FrameFail::Header(at) => push_place(text, b"bad answer header at byte ", at),
        FrameFail::Truncated(at) => push_place(text, b"answer ends at byte ", at),
        FrameFail::OtherId(got) => {
            text.extend(b"answered as ")?;
            push_id(text, got)
        }
        FrameFail::TooLarge(size) => {
            text.extend(b"too large: ")?;
            push_number(text, size)?;
            text.extend(b" bytes")
        }
        FrameFail::NoEnd => text.extend(b"answer has no final newline"),
        FrameFail::WrongId { claimed, computed } => {
            text.extend(b"claims id ")?;
            push_id(text, claimed)?;
            text.extend(b" but has id ")?;
            push_id(text, computed)
        }
        FrameFail::Memory => text.extend(b"out of memory"),
    }
}

/// Adds the kind that an object wrongly has.
pub fn push_kind(text: &mut Bytes, kind: Kind) -> Result<(), AllocError>
    ensures { OnOk result (text.new ≡ text.old ++ kind_text kind) }
{
    match kind {
        Kind::Commit => text.extend(b"of kind commit"),
        Kind::Tree => text.extend(b"of kind tree"),
        Kind::Blob => text.extend(b"of kind blob"),
        Kind::Tag => text.extend(b"of kind tag"),
    }
}

// Adds why a content isn't that of a commit.
fn push_commit(text: &mut Bytes, fail: CommitFail) -> Result<(), AllocError>
    ensures { OnOk result (text.new ≡ text.old ++ commit_text fail) }
{
    match fail {
        CommitFail::NoTree => text.extend(b"no tree line"),
        CommitFail::Line(at) => push_place(text, b"bad commit line at byte ", at),
        CommitFail::NoAuthor => text.extend(b"no author line"),
        CommitFail::NoCommitter => text.extend(b"no committer line"),
        CommitFail::TwoSignatures => text.extend(b"two signatures"),
        CommitFail::ForeignSignature => text.extend(b"signature of the other object format"),
        CommitFail::NoBody => text.extend(b"no end of headers"),
        CommitFail::Memory => text.extend(b"out of memory"),
    }
}

/// Adds why a content isn't that of a tree.
pub fn push_tree(text: &mut Bytes, fail: TreeFail) -> Result<(), AllocError>
    ensures { OnOk result (text.new ≡ text.old ++ tree_text fail) }
{
    match fail {
        TreeFail::Mode(at) => push_place(text, b"bad mode at byte ", at),
        TreeFail::Name(at) => push_place(text, b"bad name at byte ", at),
        TreeFail::Cut(at) => push_place(text, b"entry cut short at byte ", at),
        TreeFail::Twice(at) => push_place(text, b"name repeated at byte ", at),
        TreeFail::Memory => text.extend(b"out of memory"),
    }
}

/// Adds why an object can't be had.
pub fn push_what(text: &mut Bytes, what: What) -> Result<(), AllocError>
    ensures { OnOk result (text.new ≡ text.old ++ what_text what) }
{
    match what {
        What::Missing => text.extend(b"missing"),
        What::Frame(fail) => push_frame(text, fail),
        What::Kind(kind) => push_kind(text, kind),
        What::Commit(fail) => push_commit(text, fail),
        What::Tree(fail) => push_tree(text, fail),
    }
}

/// Adds an object that can't be had.
pub fn push_object(text: &mut Bytes, id: Id, what: What) -> Result<(), AllocError>
    ensures { OnOk result (text.new ≡ text.old ++ object_text id what) }
{
    push_named(text, b"object ", id, b": ")?;
    push_what(text, what)
}
