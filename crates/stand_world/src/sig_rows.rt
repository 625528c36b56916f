//! What gpgv says in the world of a script.
ghost use Rattle.std.specs.Prelude.{◌≡◌, ◌++◌, ◌∷◌, [], IfOk, OnOk};
ghost use Rattle.std.specs.List.{flat_map};
ghost use Rattle.stand_world.specs.World.{keyring_of, sig_row, signed_rows, signature_rows};

use crate::commit::{Commit, Signed};
use crate::key::Key;
use crate::status::toy_status;
use child_ports::{Bytes, SigRow, SigRows};
use std::alloc::{AllocError, Global};

/// The keys' files, joined.
pub fn keyring_of(alloc: Global, keys: &[Key]) -> Result<Bytes, AllocError>
    ensures { IfOk result (λ keyring. keyring ≡ keyring_of keys.now) }
{
    let mut keyring = Bytes::new(alloc);
    for key in keys {
        keyring.extend(key.packet.as_slice())?;
    }
    Ok(keyring)
}

// What is said of a signature.
fn sig_row(alloc: Global, keyring: &[u8], signed: &Signed) -> Result<SigRow, AllocError>
    ensures { IfOk result (λ row. row ≡ sig_row keyring.now signed.now) }
{
    let signature = signed.signature.as_slice();
    let payload = signed.payload.as_slice();
    let answer = toy_status(alloc, keyring, signature, payload)?;
    let keyring = Bytes::from_slice(alloc, keyring)?;
    let signature = Bytes::from_slice(alloc, signature)?;
    let payload = Bytes::from_slice(alloc, payload)?;
    Ok(SigRow {
        keyring,
        signature,
        payload,
        answer,
    })
}

// Adds what is said of a commit that is signed.
fn push_signed(
    alloc: Global,
    rows: &mut SigRows,
    keyring: &[u8],
    signed: &Option<Signed>,
) -> Result<(), AllocError>
    ensures { OnOk result (rows.new ≡ rows.old ++ signed_rows keyring.now signed.now) }
{
    match signed {
        Some(signed) => rows.push(sig_row(alloc, keyring, signed)?),
        None => Ok(()),
    }
}

// Adds what is said of a commit.
fn push_commit(
    alloc: Global,
    rows: &mut SigRows,
    keyring: &[u8],
    commit: &Commit,
) -> Result<(), AllocError>
    ensures { OnOk result (rows.new ≡ rows.old ++ signature_rows keyring.now commit.now) }
{
    push_signed(alloc, rows, keyring, &commit.signed)
}

/// What is said of the commits under a keyring.
pub fn signature_rows(
    alloc: Global,
    keyring: &[u8],
    commits: &[Commit],
) -> Result<SigRows, AllocError>
    ensures { IfOk result (λ rows. rows ≡ flat_map (signature_rows keyring.now) commits.now) }
{
    let mut rows = SigRows::new(alloc);
    for commit in commits {
        push_commit(alloc, &mut rows, keyring, commit)?;
    }
    Ok(rows)
}
