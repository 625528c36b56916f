//! The keys of a file of authorisations.
ghost use Rattle.std.specs.Prelude.{◌≡◌, ◌≢◌, ◌↔◌, map, Some, None, Ok, Err, IfErr};
ghost use Rattle.sexp_reader.specs.Grammar.{IsFirst, IsEmpty};
ghost use Rattle.sexp_reader.specs.Reading.{first_datum};
ghost use Rattle.sexp_reader.specs.Tree.{Tree, tree, symbol_in};
ghost use Rattle.sexp_reader.specs.declared.fail.SexpFail.TheVariants as sexp;
ghost use Rattle.authorizations.specs.Authorizations.{IsFile};
ghost use Rattle.authorizations.specs.Faults.{IsFault};
ghost use Rattle.authorizations.specs.Reading.{Gives, is_word, version_from, key_of, keys_of};
ghost use Rattle.child_ports.specs.KeySet.{Keys};
ghost use Rattle.authorizations.specs.ReadingInside.{GivesDatum, GivesEntries, GivesKeys};

use crate::{AuthFail, Fingerprint, KeySet};
use sexp_reader::{Datum, SexpFail, read_first};
use std::alloc::Global;

// The first datum of the bytes.
fn datum_in(alloc: Global, bytes: &[u8]) -> Result<Datum, AuthFail>
    ensures datum { GivesDatum result bytes.now }
    ensures memory { result ≢ Err (AuthFail.Sexp sexp.Memory) }
    ensures first { (t : Tree) → (first_datum bytes.now ≡ Ok (Some t)) ↔ IsFirst bytes.now t }
    ensures none { (first_datum bytes.now ≡ Ok None) ↔ IsEmpty bytes.now }
{
    match read_first(alloc, bytes) {
        Ok(Some(datum)) => Ok(datum),
        Ok(None) => Err(AuthFail::Shape),
        Err(SexpFail::Memory) => Err(AuthFail::Memory),
        Err(fail) => Err(AuthFail::Sexp(fail)),
    }
}

// Whether the datum is this symbol.
fn is_word(datum: &Datum, word: &str) -> bool
    ensures { result ≡ is_word word.now (symbol_in (tree datum.now)) }
{
    match datum.as_symbol() {
        Some(symbol) => symbol == word,
        None => false,
    }
}

// The number of `(version N)`.
fn version_of(elements: &[Datum]) -> Option<u64>
    ensures { result ≡ version_from (map tree elements.now) }
{
    let [word, number] = elements else {
        return None;
    };
    if is_word(word, "version") {
        number.as_number()
    } else {
        None
    }
}

// The entries of a list of authorisations.
fn entries_of(datum: &Datum) -> Result<&[Datum], AuthFail>
    ensures entries { GivesEntries result datum.now }
    ensures memory { result ≢ Err (AuthFail.Sexp sexp.Memory) }
{
    let Some([head, version, rest @ ..]) = datum.as_list() else {
        return Err(AuthFail::Shape);
    };
    if !is_word(head, "authorizations") {
        return Err(AuthFail::Shape);
    }
    let Some(elements) = version.as_list() else {
        return Err(AuthFail::Shape);
    };
    let Some(number) = version_of(elements) else {
        return Err(AuthFail::Shape);
    };
    if number != 0 {
        return Err(AuthFail::Version(number));
    }
    let Some(third) = rest.first() else {
        return Err(AuthFail::Shape);
    };
    third.as_list().ok_or(AuthFail::Shape)
}

// The fingerprint of the entry of this number.
fn key_of(entry: &Datum, index: u64) -> Result<Fingerprint, AuthFail>
    ensures key { result ≡ key_of index (tree entry.now) }
    ensures memory { result ≢ Err (AuthFail.Sexp sexp.Memory) }
{
    let Some([name, ..]) = entry.as_list() else {
        return Err(AuthFail::Shape);
    };
    let Some(name) = name.as_text() else {
        return Err(AuthFail::Shape);
    };
    Fingerprint::of_text(name).ok_or(AuthFail::Fingerprint(index))
}

// The keys of entries.
fn keys_of(alloc: Global, entries: &[Datum]) -> Result<KeySet, AuthFail>
    ensures keys { GivesKeys result (map tree entries.now) }
    ensures memory { result ≢ Err (AuthFail.Sexp sexp.Memory) }
{
    let mut keys = KeySet::new(alloc);
    for (index, entry) in entries.iter().enumerate() {
        let key = key_of(entry, index as u64)?;
        keys.insert(key)?;
    }
    Ok(keys)
}

// The keys of the bytes.
fn read_keys(alloc: Global, bytes: &[u8]) -> Result<KeySet, AuthFail>
    ensures keys { Gives result (keys_of bytes.now) }
    ensures memory { result ≢ Err (AuthFail.Sexp sexp.Memory) }
    ensures first { (t : Tree) → (first_datum bytes.now ≡ Ok (Some t)) ↔ IsFirst bytes.now t }
    ensures none { (first_datum bytes.now ≡ Ok None) ↔ IsEmpty bytes.now }
{
    let datum = datum_in(alloc, bytes)?;
    let entries = entries_of(&datum)?;
    keys_of(alloc, entries)
}

/// Reads the keys of a file of authorisations, after Guix's manual, "Channels".
///
/// Only the first datum counts. What follows the third element, and what follows an entry's text, is ignored.
pub fn read_authorizations(alloc: Global, bytes: &[u8]) -> Result<KeySet, AuthFail>
    // Unless memory is wanting, the answer is what the bytes give.
    ensures exact { Gives result (keys_of bytes.now) }
    // They give keys exactly where they are a file of authorisations with those keys.
    ensures found { (keys : Keys) → (keys_of bytes.now ≡ Ok keys) ↔ IsFile bytes.now keys }
    // A refusal is the first thing at fault.
    ensures fault { IfErr result (λ fault. IsFault bytes.now fault) }
    // Want of memory is told as such, wherever it comes.
    ensures memory { result ≢ Err (AuthFail.Sexp sexp.Memory) }
{
    read_keys(alloc, bytes)
}
