//! An entry that was asked for.
use crate::Mode;
use child_ports::{Bytes, Items};
use object_frames::Id;

/// An entry of a tree.
#[derive(Debug, Drop)]
pub struct Entry {
    pub mode: Mode,
    pub name: Bytes,
    pub id: Id,
}

/// Entries, in the tree's order.
pub type Entries = Items<Entry>;
