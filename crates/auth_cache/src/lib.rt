//! The text of a trusted cache: which commits were found authentic, and under which scope.
//!
//! [`read_cache`] gives the commits that a text records under a scope, and [`write_cache`] writes such a text.
//! `specs/Text.antt` says what the text of a cache is, `specs/Faults.antt` why bytes are none, and
//! `specs/Reading.antt` the one answer to any bytes.
#![tactic(auto)]

mod entries;
mod fail;
mod front;
mod laws;
mod lines;
mod reading;
#[cfg(test)]
mod tests;
mod writing;

pub use entries::Entries;
pub use fail::CacheFail;
pub use laws::{another_scope_has_none, what_is_written_is_read};
pub use reading::read_cache;
pub use writing::write_cache;
