//! What a fetch finds.

use crate::{Id, Kind};
use child_ports::Bytes;

/// An object whose id is the SHA-1 of its kind, size and content.
#[derive(Debug, Drop)]
pub struct Object {
    pub id: Id,
    pub kind: Kind,
    pub content: Bytes,
}

/// What git has under a name.
#[derive(Debug, Drop)]
pub enum Fetched {
    /// Nothing, or more than one object.
    Missing,
    Found(Object),
}
