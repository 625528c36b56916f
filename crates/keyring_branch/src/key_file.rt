//! The keys of a key file.
ghost use Rattle.std.specs.Prelude.{◌≡◌, Ok, IfOk, IfErr};
ghost use Rattle.child_ports.specs.KeySet.{Keys};
ghost use Rattle.keyring_branch.specs.KeyFile.{IsKeyFile, IsKeyFault, part_of, keys_of};
ghost use Rattle.keyring_branch.specs.Fail.{Gives};

use crate::KeyFail;
use crate::dearmoring::dearmor;
use crate::keys::packet_keys;
use child_ports::{Bytes, KeySet};
use std::alloc::Global;

/// A key file's packets, and the fingerprints of the keys among them.
#[derive(Debug, Drop)]
pub struct KeyPart {
    pub bytes: Bytes,
    pub keys: KeySet,
}

/// Reads a key file.
#[tactic(auto, unfolding(crate::specs::KeyFile::part_of))]
pub fn read_part(alloc: Global, file: &[u8]) -> Result<KeyPart, KeyFail>
    ensures { Gives result (part_of file.now) }
{
    let bytes = dearmor(alloc, file)?;
    let keys = packet_keys(alloc, bytes.as_slice())?;
    Ok(KeyPart { bytes, keys })
}

// The keys of a file.
#[tactic(auto, unfolding(crate::specs::KeyFile::part_of))]
fn read_keys(alloc: Global, file: &[u8]) -> Result<KeySet, KeyFail>
    ensures { Gives result (keys_of file.now) }
{
    let part = read_part(alloc, file)?;
    Ok(part.keys)
}

/// The fingerprints of the version 4 keys in a key file, subkeys among them, after RFC 4880, section 12.2.
///
/// The file is taken out of its armour, if it has any, and has to be packets, at least one of them such a key.
pub fn fingerprints(alloc: Global, file: &[u8]) -> Result<KeySet, KeyFail>
    // Unless memory is wanting, the answer is what the reading of lines and packets gives.
    ensures exact { Gives result (keys_of file.now) }
    // What is read is in the grammar, and what is in the grammar is read.
    ensures found { IfOk result (λ keys. IsKeyFile file.now keys) }
    ensures only { (keys : Keys) → IsKeyFile file.now keys → Gives result (Ok keys) }
    // A refusal is the first block at fault, else the first packet at fault, else that there is no key.
    ensures fault { IfErr result (λ fault. IsKeyFault file.now fault) }
{
    read_keys(alloc, file)
}
