//! Why a target isn't accepted.
ghost use Rattle.std.specs.Prelude.{◌≡◌};
ghost use Rattle.auth_engine.specs.Steps.{engine_fail};

use auth_cache::CacheFail;
use auth_rules::{Cause, What};
use commit_history::HistoryFail;
use keyring_branch::KeyringFail;
use object_frames::Id;

/// The two commits that a task names.
#[derive(Clone, Copy, Debug, PartialEq, Eq)]
pub enum Which {
    Target,
    Introduction,
}

/// Why a target isn't accepted: the first of these that applies, a fault and want of memory apart.
#[derive(Debug, Drop)]
pub enum EngineFail {
    /// The names of the target or the introduction stand for no commit.
    Name { which: Which, what: What },
    /// The keyring can't be had. Never `GitFault` and never `Memory`.
    Keyring(KeyringFail),
    /// What is kept under the cache's key is no cache text. Never `Memory`.
    Cache(CacheFail),
    /// Target and introduction reach more than 1,000,000 commits.
    TooMany,
    /// Of the commits that they reach and that can't be read, the one of the least id.
    Object { id: Id, what: What },
    /// Of the commits that they reach, the one of the least id that has no generation.
    Cycle(Id),
    /// The introduction is refused.
    Intro { id: Id, cause: Cause },
    /// Neither of target and introduction reaches the other.
    Unrelated { target: Id, intro: Id },
    /// Of the commits that are refused, the one of the least generation, and then of the least id.
    Commit { id: Id, cause: Cause },
    /// A call of git failed.
    GitFault,
    /// A call of gpgv failed.
    SigFault,
    /// A call of the keeper failed.
    KeepFault,
    /// Memory is wanting.
    Memory,
}

impl EngineFail {
    /// Why a history can't be judged, as a refusal of the target.
    pub fn of_history(fail: HistoryFail) -> EngineFail
        ensures { result ≡ engine_fail fail }
    {
        match fail {
            HistoryFail::TooMany => EngineFail::TooMany,
            HistoryFail::Object { id, what } => EngineFail::Object { id, what },
            HistoryFail::Cycle(id) => EngineFail::Cycle(id),
            HistoryFail::GitFault => EngineFail::GitFault,
            HistoryFail::Memory => EngineFail::Memory,
        }
    }
}
