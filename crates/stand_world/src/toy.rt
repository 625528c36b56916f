//! Toy signatures.
ghost use Rattle.std.specs.Prelude.{◌≡◌, ◌++◌, drop, codes, IfOk, OnOk, decimal};
ghost use Rattle.hex.specs.Hex.{encode_lower, encode_upper};
ghost use Rattle.object_frames.specs.Id.{id_in};
ghost use Rattle.sha1.specs.Sha1.{sha1};
ghost use Rattle.stand_world.specs.Toy.{toy_bytes, toy_in, toy_of, signature_of};

use crate::hash::read_hash;
use crate::texts::{behind, push_fingerprint, push_number};
use byte_cuts::part_at;
use child_ports::{Bytes, Fingerprint};
use sha1::Sha1;
use std::alloc::{AllocError, Global};

/// What a toy signature says: its key, the number of its hash, and the SHA-1 of what it signs.
#[derive(Debug, Drop)]
pub struct Toy {
    pub key: Fingerprint,
    pub hash: u8,
    pub digest: [u8; 20],
}

/// The SHA-1 of these bytes.
pub fn digest_of(bytes: &[u8]) -> [u8; 20]
    ensures { result ≡ sha1 bytes.now }
{
    let mut hasher = Sha1::new();
    hasher.update(bytes);
    hasher.finalize()
}

// Adds a digest in lower case.
fn push_digest(text: &mut Bytes, digest: &[u8; 20]) -> Result<(), AllocError>
    ensures { OnOk result (text.new ≡ text.old ++ encode_lower digest.now) }
{
    let mut digits = [0u8; 40];
    let _ = hex::encode_to_slice(digest.as_slice(), &mut digits);
    text.extend(&digits)
}

// Adds the first two lines.
fn push_key_line(text: &mut Bytes, key: &Fingerprint) -> Result<(), AllocError>
    ensures { OnOk result (text.new ≡ text.old ++ codes "TOY SIGNATURE\nkey " ++ encode_upper key.now.0) }
{
    text.extend(b"TOY SIGNATURE\nkey ")?;
    push_fingerprint(text, key)
}

// The bytes of a signature.
fn write_toy(alloc: Global, toy: &Toy) -> Result<Bytes, AllocError>
    ensures { IfOk result (λ signature. signature ≡ toy_bytes toy.now) }
{
    let mut text = Bytes::new(alloc);
    push_key_line(&mut text, &toy.key)?;
    text.extend(b"\nhash ")?;
    push_number(&mut text, usize::from(toy.hash))?;
    text.extend(b"\nsha1 ")?;
    push_digest(&mut text, &toy.digest)?;
    text.extend(b"\n")?;
    Ok(text)
}

/// The signature of a key on a payload.
pub fn sign(alloc: Global, key: Fingerprint, hash: u8, payload: &[u8]) -> Result<Bytes, AllocError>
    ensures { IfOk result (λ signature. signature ≡ signature_of key hash payload.now) }
{
    let digest = digest_of(payload);
    write_toy(alloc, &Toy { key, hash, digest })
}

// The digest that 40 digits write.
fn read_digest(digits: &[u8]) -> Option<[u8; 20]>
    ensures { result ≡ id_in digits.now }
{
    let mut bytes = [0u8; 20];
    match hex::decode_to_slice(digits, &mut bytes) {
        Ok(()) => Some(bytes),
        Err(_) => None,
    }
}

// What the lines of a signature say.
fn read_lines(signature: &[u8]) -> Option<Toy>
    ensures { result ≡ toy_in signature.now }
{
    let key = Fingerprint::of_hex(behind(part_at(signature, b'\n', 1)?, 4))?;
    let hash = read_hash(behind(part_at(signature, b'\n', 2)?, 5))?;
    let digest = read_digest(behind(part_at(signature, b'\n', 3)?, 5))?;
    Some(Toy { key, hash, digest })
}

/// What these bytes say as a signature, if they are one to the byte.
#[tactic(auto, unfolding(crate::specs::Toy::toy_of))]
pub fn read_toy(alloc: Global, signature: &[u8]) -> Result<Option<Toy>, AllocError>
    ensures { IfOk result (λ toy. toy ≡ toy_of signature.now) }
{
    let Some(toy) = read_lines(signature) else {
        return Ok(None);
    };
    let written = write_toy(alloc, &toy)?;
    if written.as_slice() == signature {
        Ok(Some(toy))
    } else {
        Ok(None)
    }
}
