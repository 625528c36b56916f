//! The most bytes that the objects of a history may have.

/// A commit.
pub const COMMIT_LIMIT: u64 = 1_048_576;

/// A tree.
pub const TREE_LIMIT: u64 = 16_777_216;

/// A file of authorisations.
pub const FILE_LIMIT: u64 = 1_048_576;
