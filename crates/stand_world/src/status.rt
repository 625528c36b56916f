//! gpgv's part in the worlds of scripts.
ghost use Rattle.std.specs.Prelude.{◌≡◌, ◌≢◌, ◌++◌, false, Some, IfOk, OnOk, codes, decimal};
ghost use Rattle.hex.specs.Hex.{encode_upper};
ghost use Rattle.keyring_branch.specs.Armour.{is_binary};
ghost use Rattle.keyring_branch.specs.PacketReading.{packet_keys};
ghost use Rattle.stand_world.specs.Toy.{short_id, no_key, bad_signature, good_signature, is_among, no_data, status_of, status_under, IsSignature};
ghost use Rattle.stand_world.specs.declared.toy.Toy.{Toy};

use crate::texts::{push_fingerprint, push_number, push_short_id};
use crate::toy::{Toy, digest_of, read_toy};
use child_ports::{Bytes, Fingerprint};
use keyring_branch::{KeyFail, fingerprints};
use std::alloc::{AllocError, Global};

// Whether the keyring's first byte is 128 or more, as that of each packet is.
fn begins_packet(keyring: &[u8]) -> bool
    ensures { result ≡ is_binary keyring.now }
{
    match keyring {
        [first, ..] => *first >= 128,
        [] => false,
    }
}

// A keyring that can't be read has no keys.
fn no_keys(fail: KeyFail) -> Result<bool, AllocError>
    ensures { IfOk result (λ found. (found ≡ false) × (fail ≢ KeyFail.Memory)) }
{
    match fail {
        KeyFail::Memory => Err(AllocError),
        _ => Ok(false),
    }
}

// Whether the key is among those of the keyring, which is read as packets.
fn is_among(alloc: Global, key: Fingerprint, keyring: &[u8]) -> Result<bool, AllocError>
    ensures { IfOk result (λ found. found ≡ is_among key (packet_keys keyring.now)) }
{
    if begins_packet(keyring) {
        match fingerprints(alloc, keyring) {
            Ok(keys) => Ok(keys.contains(key)),
            Err(fail) => no_keys(fail),
        }
    } else {
        Ok(false)
    }
}

// A signature of another key.
fn no_key(alloc: Global, toy: &Toy) -> Result<Bytes, AllocError>
    ensures { IfOk result (λ text. text ≡ no_key toy.now) }
{
    let mut text = Bytes::from_slice(alloc, b"[GNUPG:] ERRSIG ")?;
    push_short_id(&mut text, &toy.key)?;
    text.extend(b" 1 ")?;
    push_number(&mut text, usize::from(toy.hash))?;
    text.extend(b" 00 0 9\n[GNUPG:] NO_PUBKEY ")?;
    push_short_id(&mut text, &toy.key)?;
    text.extend(b"\n")?;
    Ok(text)
}

// A signature of another payload.
fn bad_signature(alloc: Global, toy: &Toy) -> Result<Bytes, AllocError>
    ensures { IfOk result (λ text. text ≡ bad_signature toy.now) }
{
    let mut text = Bytes::from_slice(alloc, b"[GNUPG:] BADSIG ")?;
    push_short_id(&mut text, &toy.key)?;
    text.extend(b" toy\n")?;
    Ok(text)
}

// A good signature.
fn good_signature(alloc: Global, toy: &Toy) -> Result<Bytes, AllocError>
    ensures { IfOk result (λ text. text ≡ good_signature toy.now) }
{
    let mut text = Bytes::from_slice(alloc, b"[GNUPG:] GOODSIG ")?;
    push_short_id(&mut text, &toy.key)?;
    text.extend(b" toy\n[GNUPG:] VALIDSIG ")?;
    push_fingerprint(&mut text, &toy.key)?;
    text.extend(b" 2020-01-01 1577836800 0 4 0 1 ")?;
    push_number(&mut text, usize::from(toy.hash))?;
    text.extend(b" 00 ")?;
    push_fingerprint(&mut text, &toy.key)?;
    text.extend(b"\n")?;
    Ok(text)
}

// What is said of a signature on a payload under a keyring.
fn status_of(
    alloc: Global,
    keyring: &[u8],
    signature: &[u8],
    payload: &[u8],
) -> Result<Bytes, AllocError>
    ensures { IfOk result (λ status. status ≡ status_of keyring.now signature.now payload.now) }
{
    let Some(toy) = read_toy(alloc, signature)? else {
        return Bytes::from_slice(alloc, b"[GNUPG:] NODATA 1\n");
    };
    if !is_among(alloc, toy.key, keyring)? {
        return no_key(alloc, &toy);
    }
    if toy.digest == digest_of(payload) {
        good_signature(alloc, &toy)
    } else {
        bad_signature(alloc, &toy)
    }
}

/// What gpgv would say of a toy signature on a payload, under a keyring: the bytes of its status output.
///
/// The keyring is read as packets, without armour. One that can't be read has no keys.
pub fn toy_status(
    alloc: Global,
    keyring: &[u8],
    signature: &[u8],
    payload: &[u8],
) -> Result<Bytes, AllocError>
    // It is what is said of what the signature's lines say.
    ensures exact { IfOk result (λ status. status ≡ status_of keyring.now signature.now payload.now) }
    // A signature is read as it was written, and nothing else is one.
    ensures signed { (toy : Toy) → IsSignature signature.now toy → IfOk result (λ status. status ≡ status_under (packet_keys keyring.now) payload.now (Some toy)) }
    ensures unsigned { ((toy : Toy) → IsSignature signature.now toy → ⊥) → IfOk result (λ status. status ≡ no_data) }
{
    status_of(alloc, keyring, signature, payload)
}
