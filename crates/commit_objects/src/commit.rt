//! What a commit says, and why a content is none.
use child_ports::Bytes;
use object_frames::{Id, IdList};
use std::alloc::AllocError;
use thiserror::Error;

/// What the content of a commit says. `specs/Commit.antt` has the grammar.
#[derive(Debug, Drop)]
pub struct Commit {
    pub tree: Id,
    /// The parents, in the order of their lines.
    pub parents: IdList,
    /// The lines of the `gpgsig` header, each with its line feed and without what stands before it.
    pub signature: Option<Bytes>,
    /// What is signed: the content without the lines of the signature's header.
    pub payload: Bytes,
}

/// Why a content isn't that of a commit: the first place that doesn't fit. The number is the offset of a line.
#[derive(Clone, Copy, Debug, PartialEq, Eq, Error)]
pub enum CommitFail {
    /// The content doesn't begin with a tree's line.
    #[error("the commit doesn't begin with its tree")]
    NoTree,
    /// In the parents' place, a line that begins with `parent ` and isn't a parent's; or a line behind the
    /// committer's that begins with a space.
    #[error("the commit has a wrong line at {0}")]
    Line(u64),
    /// No whole line in the author's place begins with `author `.
    #[error("the commit has no author")]
    NoAuthor,
    /// No whole line in the committer's place begins with `committer `.
    #[error("the commit has no committer")]
    NoCommitter,
    /// A second header begins with `gpgsig `.
    #[error("the commit has two signatures")]
    TwoSignatures,
    /// A header begins with `gpgsig-sha256 `.
    #[error("the commit has a signature of another format")]
    ForeignSignature,
    /// The content ends before the empty line.
    #[error("the commit ends before its message")]
    NoBody,
    /// Memory ran out.
    #[error("out of memory")]
    Memory,
}

impl From<AllocError> for CommitFail {
    ghost use Rattle.std.specs.Prelude.{◌≡◌};
    ghost use Rattle.commit_objects.specs.declared.commit.CommitFail.TheVariants.{Memory};

    ghost from_gives = { λ _ e. e ≡ Memory };

    fn from(_: AllocError) -> Self {
        CommitFail::Memory
    }
}
