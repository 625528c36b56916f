//! The check of one target.
//!
//! [`authenticate`] answers what a task comes to, a fault of a port exactly where a call on that port failed, or want of memory.
//! Begin with `specs/Authentic.antt`, which says when a target is authentic, and `specs/Outcome.antt`, which says what a task
//! comes to.
#![tactic(auto)]

mod authenticating;
mod caching;
mod counting;
mod deciding;
mod engine_fail;
mod introducing;
mod judging;
pub mod laws;
mod limits;
mod naming;
mod relating;
mod scoping;
mod starting;
mod task;
#[cfg(test)]
mod tests;

pub use authenticating::authenticate;
pub use engine_fail::{EngineFail, Which};
pub use limits::task_fits;
pub use naming::name_first_commit;
pub use task::{Signer, SignerList, Task, Verdict};
