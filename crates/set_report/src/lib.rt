//! The texts on lists of channels and on sets, as functions of what these come to.
//!
//! [`list_refusal`] gives the line for a file that is no list of channels, [`set_refusal`] that for a set that isn't accepted,
//! [`set_lines`] those on the members of one that is, and [`set_warnings`] the warnings on them. `specs/ListTexts.antt`,
//! `specs/SetTexts.antt`, `specs/MemberLines.antt` and `specs/Warnings.antt` have every text.
#![tactic(auto)]

mod list_texts;
mod member_lines;
mod names;
mod set_texts;
#[cfg(test)]
mod tests;
mod warnings;

pub use list_texts::list_refusal;
pub use member_lines::set_lines;
pub use set_texts::set_refusal;
pub use warnings::set_warnings;
