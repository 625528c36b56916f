//! S-expressions, in the part of Scheme's syntax that rules and lists of channels need.
//!
//! [`read_first`] gives the first datum of bytes, none, or the first fault; [`print`] writes a datum so that it is read
//! again. `specs/Grammar.antt` says what a datum is, `specs/Reading.antt` which fault comes first, `specs/Tree.antt` how
//! contracts see a [`Datum`], and `specs/Spelling.antt` how one is printed.
#![tactic(auto)]

mod bytes;
mod datum;
mod fail;
mod printing;
mod quoted;
mod reading;
mod skip;
#[cfg(test)]
mod tests;
mod token;

pub use datum::{Datum, DatumList};
pub use fail::SexpFail;
pub use printing::print;
pub use reading::read_first;
