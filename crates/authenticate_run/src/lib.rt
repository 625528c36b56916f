//! A run of `authenticate`: from the plan of its words to status, texts and records.
//!
//! [`run_authenticate`] has the theorem of the program as its contract. `specs/Answers.antt` says what is due to a plan,
//! `specs/Run.antt` what its run comes to, `specs/Outside.antt` which task a plan makes, and `specs/Historical.antt` what a
//! file of historical keys gives.
#![tactic(auto)]

mod ending;
mod historical;
mod running;
mod tasking;
#[cfg(test)]
mod tests;

pub use running::run_authenticate;
