//! Objects of Git, as `git cat-file --batch` answers them.
//!
//! [`fetch`] asks for one name and reads one frame, in whatever pieces it comes, and [`fetch_by_id`] does so for an id. They
//! give an object only where its id is the SHA-1 of its kind, size and content. `specs/Frame.antt` says what a frame is,
//! `specs/Fetched.antt` what a fetch finds, `specs/Faults.antt` which fault comes where.
#![tactic(auto)]

mod body;
mod fetching;
mod frame_fail;
mod fronts;
mod head;
mod header;
mod id;
mod kind;
mod object;
mod reads;
#[cfg(test)]
mod tests;

pub use fetching::{fetch, fetch_by_id};
pub use frame_fail::FrameFail;
pub use id::{Id, IdList};
pub use kind::{Kind, id_of};
pub use object::{Fetched, Object};
