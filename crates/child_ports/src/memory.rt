//! The outside in memory: its contents are given, and so are the numbers of the calls that fail.

mod git;
mod keeper;
mod pairs;
mod places;
mod room;
mod script;
mod sig;
mod sink;
#[cfg(test)]
mod tests;

pub use git::MemGit;
pub use keeper::MemKeeper;
pub use room::MemRoom;
pub use script::Script;
pub use sig::MemSig;
pub use sink::MemSink;
