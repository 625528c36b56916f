//! Histories as scripts: keys, commits and branches that a few lines declare, and what git and gpgv answer of them.
//!
//! [`build`] reads a script, and a [`World`] gives the rows for git and gpgv in memory. [`toy_status`] plays gpgv for the
//! signatures of such worlds. `specs/Line.antt` says what a line declares, `specs/Script.antt` what a script does,
//! `specs/Objects.antt` which objects a commit has, `specs/Written.antt` what is read back from a commit,
//! `specs/World.antt` what is answered, and `specs/Toy.antt` what the signatures are worth.
#![tactic(auto)]

mod build_fail;
mod commit;
mod declared;
mod declaring;
mod files;
mod framed;
mod git_rows;
mod hash;
mod key;
mod line;
mod names;
mod sig_rows;
mod status;
#[cfg(test)]
mod tests;
mod texts;
mod toy;
mod world;

pub use build_fail::BuildFail;
pub use status::toy_status;
pub use world::{World, build};
