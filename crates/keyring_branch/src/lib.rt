//! The keyring of a branch: its key files, taken out of their armour, and the fingerprints of the keys in them.
//!
//! [`read_keyring`] reads the branch, [`dearmor`] and [`fingerprints`] one key file. `specs/Armour.antt` has the grammar of
//! armour, `specs/Packets.antt` that of packets, and `specs/KeyFile.antt` and `specs/Keyring.antt` say what a file and a
//! branch give.
#![tactic(auto)]

mod block;
mod branch;
mod dearmoring;
mod key_fail;
mod key_file;
mod keyring;
mod keyring_fail;
mod keys;
mod lines;
mod packet;
#[cfg(test)]
mod tests;

pub use branch::read_keyring;
pub use dearmoring::dearmor;
pub use key_fail::KeyFail;
pub use key_file::fingerprints;
pub use keyring::Keyring;
pub use keyring_fail::{FileBad, KeyringFail};
