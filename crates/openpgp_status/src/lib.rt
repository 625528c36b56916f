//! What gpgv's status output says of a signature.
//!
//! [`judge`] answers the first that applies of six rules on the status lines; `specs/Judging.antt` states them, and
//! `specs/Fields.antt` how a VALIDSIG line is read.
#![tactic(auto)]

mod fields;
mod judged;
mod judging;
mod seen;
#[cfg(test)]
mod tests;

pub use judged::Judged;
pub use judging::judge;
