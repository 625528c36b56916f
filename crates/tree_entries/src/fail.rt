//! Why a content isn't that of a tree.
use std::alloc::AllocError;
use thiserror::Error;

/// Why a tree could not be read. The number is the offset of the first byte of the first entry at fault.
#[derive(Clone, Copy, Debug, PartialEq, Eq, Error)]
pub enum TreeFail {
    /// The content ends inside the entry.
    #[error("the entry at {0} is cut short")]
    Cut(u64),
    /// No mode and space stand at the entry's front.
    #[error("the entry at {0} has no mode")]
    Mode(u64),
    /// The entry's name is empty or has a slash.
    #[error("the entry at {0} has a wrong name")]
    Name(u64),
    /// An earlier entry that was asked for has the entry's name.
    #[error("the entry at {0} has the name of an earlier one")]
    Twice(u64),
    /// Memory ran out.
    #[error("out of memory")]
    Memory,
}

impl From<AllocError> for TreeFail {
    ghost use Rattle.std.specs.Prelude.{◌≡◌};
    ghost use Rattle.tree_entries.specs.declared.fail.TreeFail.TheVariants.{Memory};

    ghost from_gives = { λ _ e. e ≡ Memory };

    fn from(_: AllocError) -> Self {
        TreeFail::Memory
    }
}
