//! Writing the text of a cache.
ghost use Rattle.std.specs.Prelude.{◌≡◌, ◌++◌, Ok, IfOk, OnOk};
ghost use Rattle.std.specs.List.{AllByRecursion, flat_map};
ghost use Rattle.object_frames.specs.Id.{IsId};
ghost use Rattle.auth_cache.specs.Found.{CanBeRecorded};
ghost use Rattle.auth_cache.specs.Keys.{IsKey};
ghost use Rattle.auth_cache.specs.Lines.{line};
ghost use Rattle.auth_cache.specs.Reading.{cache_of};
ghost use Rattle.auth_cache.specs.Text.{id_text, key_text, heading, historical_line, commit_line, text_of};

use crate::Entries;
use authorizations::Scope;
use child_ports::{Bytes, Fingerprint};
use object_frames::Id;
use std::alloc::{AllocError, Global};

// Adds a line with an id.
fn push_id(text: &mut Bytes, word: &[u8], id: Id) -> Result<(), AllocError>
    ensures text { OnOk result (text.new ≡ text.old ++ line (id_text word.now id)) }
    ensures id { IsId id }
{
    let mut digits = [0u8; 40];
    id.write_hex(&mut digits);
    text.extend(word)?;
    text.extend(&digits)?;
    text.extend(b"\n")
}

// Adds a line with a fingerprint.
fn push_key(text: &mut Bytes, word: &[u8], key: Fingerprint) -> Result<(), AllocError>
    ensures text { OnOk result (text.new ≡ text.old ++ line (key_text word.now key)) }
    ensures key { IsKey key }
{
    let mut digits = [0u8; 40];
    key.write_hex(&mut digits);
    text.extend(word)?;
    text.extend(&digits)?;
    text.extend(b"\n")
}

// Adds the lines before those of the historical keys.
fn push_heading(text: &mut Bytes, scope: &Scope) -> Result<(), AllocError>
    ensures text { OnOk result (text.new ≡ text.old ++ heading scope.now.intro scope.now.signer scope.now.keyring_tree) }
    ensures parts { OnOk result (IsId scope.now.intro × IsKey scope.now.signer × IsId scope.now.keyring_tree) }
{
    text.extend(b"guix-auth-cache 1\n")?;
    push_id(text, b"intro ", scope.intro)?;
    push_key(text, b"signer ", scope.signer)?;
    push_id(text, b"keyring ", scope.keyring_tree)
}

// Adds the lines of historical keys.
fn push_keys(text: &mut Bytes, keys: &[Fingerprint]) -> Result<(), AllocError>
    ensures text { OnOk result (text.new ≡ text.old ++ flat_map historical_line keys.now) }
    ensures each { OnOk result (AllByRecursion IsKey keys.now) }
{
    for key in keys {
        push_key(text, b"historical ", *key)?;
    }
    Ok(())
}

// Adds the lines of commits.
fn push_commits(text: &mut Bytes, ids: &[Id]) -> Result<(), AllocError>
    ensures text { OnOk result (text.new ≡ text.old ++ flat_map commit_line ids.now) }
    ensures each { OnOk result (AllByRecursion IsId ids.now) }
{
    for id in ids {
        push_id(text, b"commit ", *id)?;
    }
    Ok(())
}

/// Writes the text of a scope and of commits.
pub fn write_cache(alloc: Global, scope: &Scope, entries: &Entries) -> Result<Bytes, AllocError>
    ensures text { IfOk result (λ bytes. bytes ≡ text_of scope.now entries.now) }
    // It is such a text as can be read.
    ensures recorded { IfOk result (λ _. CanBeRecorded scope.now entries.now) }
    // Under the same scope it gives the commits.
    ensures reads_back { IfOk result (λ bytes. cache_of bytes scope.now ≡ Ok entries.now) }
{
    let mut text = Bytes::new(alloc);
    push_heading(&mut text, scope)?;
    push_keys(&mut text, scope.historical.as_slice())?;
    push_commits(&mut text, entries.as_slice())?;
    text.extend(b"end\n")?;
    Ok(text)
}
