//! Trees of Git: the entry of a name, and the files whose names end alike.
//!
//! [`find`] and [`files_ending`] read a content. `specs/Tree.antt` has the grammar, `specs/Asked.antt` what is asked of a
//! tree, `specs/Faults.antt` the first entry at fault, and `specs/Reading.antt` the one answer to each content.
#![tactic(auto)]

mod entry;
mod fail;
mod front;
mod mode;
mod reading;
#[cfg(test)]
mod tests;

pub use entry::{Entries, Entry};
pub use fail::TreeFail;
pub use mode::Mode;
pub use reading::{files_ending, find};
