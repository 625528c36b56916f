//! The outside as the program sees it: git, gpgv, the keeper of records, files and sinks.
//!
//! Each is a trait that says what its calls answer, and when one may fail. `specs/Causes.antt` says how a
//! failed call shows in a port's count of faults, `specs/Git.antt` and `specs/Framed.antt` what git answers,
//! `specs/Named.antt` which of the names that git is asked are counted.
//!
//! `MemGit`, `MemSig`, `MemKeeper`, `MemRoom` and `MemSink` are the outside in memory. Each tells all, and fails
//! at the calls whose numbers it is given, and only there (`specs/Script.antt`); `rows_fit` says which rows
//! can stand for git's answers.
#![tactic(auto)]

mod fail;
mod fingerprint;
mod frame_header;
mod git;
mod items;
mod keeper;
mod key_set;
mod memory;
mod named;
mod room;
mod rows;
mod sig;
mod sink;
mod text;

pub use fail::{Failed, PortFail};
pub use fingerprint::Fingerprint;
pub use frame_header::{FrameHeader, header_size, read_header};
pub use git::{GitPort, GitRow, GitRows};
pub use items::{Bytes, Items, Names, Numbers};
pub use keeper::{Keeper, Pair, Pairs};
pub use key_set::KeySet;
pub use memory::{MemGit, MemKeeper, MemRoom, MemSig, MemSink};
pub use named::{after_name, is_full_id};
pub use room::FileRoom;
pub use rows::{is_name, rows_fit};
pub use sig::{SigPort, SigRow, SigRows};
pub use sink::Sink;
pub use text::{Text, Words};
