//! What is asked of a channel's clone beside the check of its target: the commit that names stand for, how two commits
//! stand to each other, and a file of a commit.
#![tactic(auto)]

mod file_reading;
mod relating;
mod resolving;
#[cfg(test)]
mod tests;

pub use file_reading::read_file;
pub use relating::relate;
pub use resolving::resolve;
