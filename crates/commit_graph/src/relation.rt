//! How two commits stand to each other.

/// How an old commit stands to a new one.
#[derive(Clone, Copy, PartialEq, Eq, Debug, Drop)]
pub enum Relation {
    /// They are one.
    Same,
    /// The old one is an ancestor of the new one.
    Ancestor,
    /// The old one is a descendant of the new one.
    Descendant,
    Unrelated,
}
