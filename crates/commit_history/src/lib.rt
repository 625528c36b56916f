//! The history of a target and an introduction: every commit that either reaches, read and ranked.
//!
//! [`read_history`] follows the parents that git's commits name, and answers the graph of what it read. It refuses more than
//! 1,000,000 commits, then a commit that can't be read, then a cycle. `specs/Members.antt` says which commits are reached and
//! when they can be judged; `specs/Answers.antt` what the call answers. `proofs/CarryLemmas.antt` carries what a graph says of
//! its commits to what git says of them.
#![tactic(auto)]

mod fail;
mod reading;
#[cfg(test)]
mod tests;
mod walk;

pub use fail::HistoryFail;
pub use reading::read_history;
