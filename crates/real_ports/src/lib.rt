//! The real outside: git and gpgv as children, the files of the system, streams and the environment.
//!
//! `ChildGit`, `ChildSig`, `RealRoom` and `StdSink` keep the traits of `child_ports`. None tells what it
//! holds, since what git, gpgv and the files of the system say is theirs; each counts the calls that failed.
#![tactic(auto)]

mod asked_child;
mod calls;
mod child_git;
mod child_sig;
mod counting;
mod file_front;
mod gpgv_answer;
mod gpgv_files;
mod header_line;
mod locking;
mod place;
mod real_room;
mod rest;
mod running_child;
mod std_sink;
#[cfg(test)]
mod tests;

pub use child_git::ChildGit;
pub use child_sig::ChildSig;
pub use place::{program_named, store_root};
pub use real_room::RealRoom;
pub use std_sink::StdSink;
