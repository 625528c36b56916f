//! Why there is no history.
use auth_rules::What;
use object_frames::Id;

/// Why a history can't be judged: the first of these that applies, unless a call failed or memory is wanting.
#[derive(Clone, Copy, Debug, PartialEq, Eq)]
pub enum HistoryFail {
    /// More than 1,000,000 commits are reached.
    TooMany,
    /// This commit can't be read, for this reason. It is the least of them.
    Object { id: Id, what: What },
    /// This commit has no generation: it is on a cycle, or a descendant of one. It is the least of them.
    Cycle(Id),
    /// A call of git failed.
    GitFault,
    /// Memory is wanting.
    Memory,
}
