//! A run of `channels`: from the plan of its words to status, texts and records.
//!
//! [`run_channels`] reads the list, checks its set, keeps all pairs in one call or none, and shows what is due.
//! `specs/Answers.antt` says what that is, and `specs/Listing.antt` what a file of channels gives.
#![tactic(auto)]

mod listing;
mod running;
mod showing;
#[cfg(test)]
mod tests;

pub use running::run_channels;
