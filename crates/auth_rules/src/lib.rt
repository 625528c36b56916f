//! The rules for one commit, and for the introduction: who signed it, or why it is refused.
//!
//! [`check_commit`] reads all that has to be consulted, asks gpgv once, and answers the signer or the first cause that applies;
//! [`check_intro`] does so for the introduction. Begin with `specs/Rules.antt`, which has the causes over any world;
//! `specs/World.antt` says which world git's answers and gpgv's verdicts make, and `specs/Answers.antt` what the calls answer.
#![tactic(auto)]

mod cause;
mod check;
mod family;
mod limits;
mod parents;
mod read_fail;
mod reading;
mod root;
mod signed;
#[cfg(test)]
mod tests;

pub use cause::{Cause, RuleFail, What};
pub use check::{check_commit, check_intro};
pub use limits::{FILE_LIMIT, TREE_LIMIT};
pub use read_fail::ReadFail;
pub use reading::{blob_of, read_commit_at, read_content};
