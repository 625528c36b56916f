//! The texts that the program prints, as functions of what it answers.
//!
//! [`refusal`] gives the line for a target that isn't accepted, [`file_refusal`] that for a file which words name.
//! [`statistics`] the lines on who signed. `specs/Texts.antt`, `specs/FileTexts.antt` and
//! `specs/Statistics.antt` have every text. What adds a part to a text serves the texts of other crates, too.
#![tactic(auto)]

mod causes;
mod files;
mod parts;
mod refusals;
mod rings;
mod tallies;
#[cfg(test)]
mod tests;
mod whats;

pub use files::{FileFail, file_refusal, push_sexp};
pub use parts::{push_id, push_name, push_numbered};
pub use refusals::{push_fail, refusal};
pub use tallies::statistics;
