//! What a graph refuses.
use object_frames::Id;

/// Why a commit was not added, or a graph not ranked. The earlier of two causes is the answer.
#[derive(Clone, Copy, PartialEq, Eq, Debug, Drop)]
pub enum GraphFail {
    /// The commit is held already.
    Present,
    /// 1,000,000 commits are held.
    Full,
    /// This parent isn't held.
    Open(Id),
    /// This commit has no generation: it is on a cycle, or a descendant of one.
    Cycle(Id),
    Memory,
}
