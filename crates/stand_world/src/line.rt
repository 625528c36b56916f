//! The lines of a script.
ghost use Rattle.std.specs.Prelude.{◌≡◌, length, IfOk};
ghost use Rattle.std.specs.Option.{option_copied};
ghost use Rattle.byte_cuts.specs.Cuts.{parts_at};
ghost use Rattle.stand_world.specs.Line.{two_of, four_of, names_in, is_dash, list_in, other_hash, signer_with, signer_in, key_statement, meta_statement, commit_statement, branch_statement, behind_word, statement_of};
ghost use Rattle.stand_world.specs.LineInside.{seen_two, seen_four};
ghost use Rattle.stand_world.specs.Names.{hash_in};

use crate::hash::read_hash;
use crate::key::{Key, make_key};
use crate::names::is_name;
use crate::texts::behind;
use byte_cuts::cut_at;
use child_ports::{Bytes, Names};
use std::alloc::{AllocError, Global};

/// The number of a key's hash where a line names none.
const USUAL_HASH: u8 = 8;

/// The key that signs a commit, and the number of its hash.
#[derive(Debug, Drop)]
pub struct Signer {
    pub key: Bytes,
    pub hash: u8,
}

/// A commit's line. A list is absent where the line has `-`.
#[derive(Debug, Drop)]
pub struct CommitLine {
    pub name: Bytes,
    pub parents: Option<Names>,
    pub signer: Option<Signer>,
    pub file: Option<Names>,
}

/// A branch's line.
#[derive(Debug, Drop)]
pub struct BranchLine {
    pub name: Bytes,
    pub commit: Bytes,
}

/// What a line says.
#[derive(Debug, Drop)]
pub enum Statement {
    /// Nothing, since it is empty.
    Nothing,
    Key(Key),
    /// The text of the channel's file from here on, or none.
    Meta(Option<Bytes>),
    Commit(CommitLine),
    Branch(BranchLine),
}

// The two parts around the byte, if there are exactly two.
fn two_parts(text: &[u8], end: u8) -> Option<(&[u8], &[u8])>
    ensures { seen_two result ≡ two_of (parts_at end text.now) }
{
    let (first, second) = cut_at(text, end)?;
    match cut_at(second, end) {
        Some(_) => None,
        None => Some((first, second)),
    }
}

// The four words, if there are exactly four.
fn four_words(text: &[u8]) -> Option<((&[u8], &[u8]), (&[u8], &[u8]))>
    ensures { seen_four result ≡ four_of (parts_at 32 text.now) }
{
    let (first, rest) = cut_at(text, b' ')?;
    let (second, rest) = cut_at(rest, b' ')?;
    let last = two_parts(rest, b' ')?;
    Some(((first, second), last))
}

// Whether a word stands for nothing.
fn is_dash(word: &[u8]) -> bool
    ensures { result ≡ is_dash word.now }
{
    word == b"-".as_slice()
}

// Names, joined by commas.
fn read_names(alloc: Global, text: &[u8]) -> Result<Option<Names>, AllocError>
    ensures { IfOk result (λ names. names ≡ names_in text.now) }
{
    let mut names = Names::new(alloc);
    let mut rest = text;
    'names: while let Some((name, next)) = cut_at(rest, b',') {
        if !is_name(name) {
            return Ok(None);
        }
        names.push(Bytes::from_slice(alloc, name)?)?;
        rest = next;
    }
    if !is_name(rest) {
        return Ok(None);
    }
    names.push(Bytes::from_slice(alloc, rest)?)?;
    Ok(Some(names))
}

// `-`, or names.
fn read_list(alloc: Global, word: &[u8]) -> Result<Option<Option<Names>>, AllocError>
    ensures { IfOk result (λ list. list ≡ list_in word.now) }
{
    if is_dash(word) {
        return Ok(Some(None));
    }
    match read_names(alloc, word)? {
        Some(names) => Ok(Some(Some(names))),
        None => Ok(None),
    }
}

// A hash number other than the usual one.
fn other_hash(digits: &[u8]) -> Option<u8>
    ensures { result ≡ other_hash (hash_in digits.now) }
{
    let number = read_hash(digits)?;
    if number == USUAL_HASH {
        None
    } else {
        Some(number)
    }
}

// The signer with this hash number, if there is one and the key has a name.
fn signer_with(
    alloc: Global,
    key: &[u8],
    hash: Option<u8>,
) -> Result<Option<Option<Signer>>, AllocError>
    ensures { IfOk result (λ signer. signer ≡ signer_with key.now hash) }
{
    let Some(hash) = hash else {
        return Ok(None);
    };
    if !is_name(key) {
        return Ok(None);
    }
    let key = Bytes::from_slice(alloc, key)?;
    Ok(Some(Some(Signer { key, hash })))
}

// `-`, or a key with or without a hash number.
fn read_signer(alloc: Global, word: &[u8]) -> Result<Option<Option<Signer>>, AllocError>
    ensures { IfOk result (λ signer. signer ≡ signer_in word.now) }
{
    if is_dash(word) {
        return Ok(Some(None));
    }
    match two_parts(word, b'/') {
        Some((key, digits)) => signer_with(alloc, key, other_hash(digits)),
        None => signer_with(alloc, word, Some(USUAL_HASH)),
    }
}

fn key_statement(alloc: Global, text: &[u8]) -> Result<Option<Statement>, AllocError>
    ensures { IfOk result (λ statement. statement ≡ key_statement text.now) }
{
    if !is_name(text) {
        return Ok(None);
    }
    Ok(Some(Statement::Key(make_key(alloc, text)?)))
}

fn meta_statement(alloc: Global, text: &[u8]) -> Result<Option<Statement>, AllocError>
    ensures { IfOk result (λ statement. statement ≡ meta_statement text.now) }
{
    if text.is_empty() {
        return Ok(None);
    }
    if is_dash(text) {
        return Ok(Some(Statement::Meta(None)));
    }
    Ok(Some(Statement::Meta(Some(Bytes::from_slice(alloc, text)?))))
}

fn commit_statement(alloc: Global, text: &[u8]) -> Result<Option<Statement>, AllocError>
    ensures { IfOk result (λ statement. statement ≡ commit_statement text.now) }
{
    let Some(((name, parents), (signer, file))) = four_words(text) else {
        return Ok(None);
    };
    let Some(parents) = read_list(alloc, parents)? else {
        return Ok(None);
    };
    let Some(signer) = read_signer(alloc, signer)? else {
        return Ok(None);
    };
    let Some(file) = read_list(alloc, file)? else {
        return Ok(None);
    };
    if !is_name(name) {
        return Ok(None);
    }
    let name = Bytes::from_slice(alloc, name)?;
    Ok(Some(Statement::Commit(CommitLine {
        name,
        parents,
        signer,
        file,
    })))
}

fn branch_statement(alloc: Global, text: &[u8]) -> Result<Option<Statement>, AllocError>
    ensures { IfOk result (λ statement. statement ≡ branch_statement text.now) }
{
    let Some((name, commit)) = two_parts(text, b' ') else {
        return Ok(None);
    };
    if !is_name(name) {
        return Ok(None);
    }
    let name = Bytes::from_slice(alloc, name)?;
    let commit = Bytes::from_slice(alloc, commit)?;
    Ok(Some(Statement::Branch(BranchLine { name, commit })))
}

// What stands behind a word.
fn behind_word<'x>(word: &[u8], text: &'x [u8]) -> Option<&'x [u8]>
    ensures { option_copied result ≡ behind_word word.now text.now }
{
    if text.starts_with(word) {
        Some(behind(text, word.len()))
    } else {
        None
    }
}

/// What a line says, if it is of the form.
#[tactic(auto, unfolding(crate::specs::Line::statement_of))]
pub fn read_line(alloc: Global, line: &[u8]) -> Result<Option<Statement>, AllocError>
    ensures { IfOk result (λ statement. statement ≡ statement_of line.now) }
{
    if line.is_empty() {
        return Ok(Some(Statement::Nothing));
    }
    if let Some(text) = behind_word(b"key ", line) {
        return key_statement(alloc, text);
    }
    if let Some(text) = behind_word(b"meta ", line) {
        return meta_statement(alloc, text);
    }
    if let Some(text) = behind_word(b"commit ", line) {
        return commit_statement(alloc, text);
    }
    if let Some(text) = behind_word(b"branch ", line) {
        return branch_statement(alloc, text);
    }
    Ok(None)
}
