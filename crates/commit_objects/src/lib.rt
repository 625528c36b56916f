//! Commits of Git: what they say, and what of them is signed.
//!
//! [`read_commit`] reads a content, and [`write_commit`] puts a signature into one. `specs/Commit.antt` has the grammar,
//! `specs/Faults.antt` what may not fit, and `specs/Reading.antt` the one answer to each content.
#![tactic(auto)]

mod commit;
mod headers;
mod heading;
mod lines;
mod reading;
#[cfg(test)]
mod tests;
mod writing;

pub use commit::{Commit, CommitFail};
pub use reading::read_commit;
pub use writing::write_commit;
