//! What a run answers, and how the answer is shown: status, texts and records.
//!
//! [`tell_refusal`] and [`tell_file`] put one line on standard error, [`finish`] stores and prints what an accepted run
//! leaves. `specs/Answers.antt` says what an answer is, `specs/Ended.antt` how a run ends with one, and `specs/Faults.antt`
//! which statuses tell of failed calls.
#![tactic(auto)]

mod finishing;
mod showing;
#[cfg(test)]
mod tests;

pub use finishing::{Ending, finish};
pub use showing::{
    GIT_FAILED, GPGV_FAILED, OUT_OF_MEMORY, STORE_FAILED, print, status_of, tell, tell_file,
    tell_refusal,
};
