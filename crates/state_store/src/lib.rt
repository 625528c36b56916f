//! The keeper of records over one SQLite table, in a file or in memory.
#![tactic(auto)]

mod memory_table;
mod opening;
mod place;
mod refusing;
mod sql_keeper;
mod statements;
#[cfg(test)]
mod tests;

pub use sql_keeper::SqlKeeper;
