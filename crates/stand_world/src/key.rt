//! Toy keys.
ghost use Rattle.std.specs.Prelude.{◌≡◌, ◌≤◌, true, length, IfOk};
ghost use Rattle.keyring_branch.specs.Packets.{fingerprint_of_body};
ghost use Rattle.stand_world.specs.Key.{key_packet, key_of};
ghost use Rattle.stand_world.specs.Names.{is_name};

use child_ports::{Bytes, Fingerprint};
use sha1::Sha1;
use std::alloc::{AllocError, Global};

/// A toy key, as its file in the keyring's tree has it.
#[derive(Debug, Drop)]
pub struct Key {
    pub name: Bytes,
    /// The name of its file.
    pub file: Bytes,
    /// What its file has.
    pub packet: Bytes,
    pub print: Fingerprint,
}

// The fingerprint of a version 4 key.
fn fingerprint_of(body: &[u8]) -> Fingerprint
    requires { length body.now ≤ 65535 }
    ensures { result ≡ fingerprint_of_body body.now }
{
    let size = body.len() as u16;
    let mut hasher = Sha1::new();
    hasher.update(&[0x99]);
    hasher.update(&size.to_be_bytes());
    hasher.update(body);
    Fingerprint(hasher.finalize())
}

// The key's packet.
fn packet_of(alloc: Global, name: &[u8]) -> Result<Bytes, AllocError>
    requires { length name.now ≤ 16 }
    ensures { IfOk result (λ packet. packet ≡ key_packet name.now) }
{
    let size = 6 + name.len() as u8;
    let mut packet = Bytes::from_slice(alloc, &[0x98, size, 4, 0, 0, 0, 0, 1])?;
    packet.extend(name)?;
    Ok(packet)
}

/// The key of this name.
pub fn make_key(alloc: Global, name: &[u8]) -> Result<Key, AllocError>
    requires { is_name name.now ≡ true }
    ensures { IfOk result (λ key. key ≡ key_of name.now) }
{
    let packet = packet_of(alloc, name)?;
    let print = fingerprint_of(&packet.as_slice()[2..]);
    let mut file = Bytes::from_slice(alloc, name)?;
    file.extend(b".key")?;
    Ok(Key {
        name: Bytes::from_slice(alloc, name)?,
        file,
        packet,
        print,
    })
}
