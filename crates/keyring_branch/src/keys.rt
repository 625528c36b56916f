//! The keys in a run of packets.
ghost use Rattle.std.specs.Prelude.{◌≡◌, ◌≤◌, length};
ghost use Rattle.keyring_branch.specs.PacketReading.{packet_keys};
ghost use Rattle.keyring_branch.specs.Packets.{fingerprint_of_body};
ghost use Rattle.keyring_branch.specs.Fail.{Gives};

use crate::KeyFail;
use crate::packet::front_packet;
use child_ports::{Fingerprint, KeySet};
use sha1::Sha1;
use std::alloc::Global;

// The fingerprint of a version 4 key.
fn fingerprint_of(body: &[u8]) -> Fingerprint
    requires { length body.now ≤ 65535 }
    ensures { result ≡ fingerprint_of_body body.now }
{
    let size = body.len() as u16;
    let mut hasher = Sha1::new();
    hasher.update(&[0x99]);
    hasher.update(&size.to_be_bytes());
    hasher.update(body);
    Fingerprint(hasher.finalize())
}

/// The fingerprints of the version 4 keys in the run of packets that the bytes are.
pub fn packet_keys(alloc: Global, bytes: &[u8]) -> Result<KeySet, KeyFail>
    ensures { Gives result (packet_keys bytes.now) }
{
    let mut keys = KeySet::new(alloc);
    let mut rest = bytes;
    'packets: while !rest.is_empty() {
        let place = (bytes.len() - rest.len()) as u64;
        let packet = match front_packet(rest, place) {
            Ok(packet) => packet,
            Err(fail) => return Err(fail),
        };
        if packet.is_key() {
            keys.insert(fingerprint_of(packet.body))?;
        }
        rest = packet.rest;
    }
    if keys.len() == 0 {
        return Err(KeyFail::NoKey);
    }
    Ok(keys)
}
