//! An armour block, behind its BEGIN line.
ghost use Rattle.std.specs.Prelude.{◌≡◌, ◌≤◌, ◌++◌, length, IfOk, IfSome, OnOk};
ghost use Rattle.keyring_branch.specs.Armour.{ends_body, content_of};
ghost use Rattle.keyring_branch.specs.ArmourReading.{after_headers, body_of, after_checksum, after_end, block_of};
ghost use Rattle.keyring_branch.specs.Lines.{lines_of};
ghost use Rattle.keyring_branch.specs.Inside.{lines_in, parts_in};

use crate::lines::next_line;
use base64::DecodeAllocError;
use base64::engine::general_purpose::STANDARD;
use child_ports::Bytes;
use std::alloc::{AllocError, Global};

/// What a block has, and the text behind it.
#[derive(Drop)]
pub struct Block<'x> {
    pub content: Bytes,
    pub rest: &'x [u8],
}

// The text behind the headers and the empty line that ends them.
fn after_headers(text: &[u8]) -> Option<&[u8]>
    ensures behind { lines_in result ≡ after_headers (lines_of text.now) }
    ensures fewer { IfSome result (λ rest. length (lines_of rest.now) ≤ length (lines_of text.now)) }
{
    let mut rest = text;
    'lines: while let Some((line, next)) = next_line(rest) {
        if line.is_empty() {
            return Some(next);
        }
        rest = next;
    }
    None
}

// Whether a line isn't of a body.
fn ends_body(line: &[u8]) -> bool
    ensures { result ≡ ends_body line.now }
{
    line.starts_with(b"=") || line.starts_with(b"-")
}

// Joins the lines of a body, and gives the text behind them.
fn join_body<'x>(text: &'x [u8], joined: &mut Bytes) -> Result<&'x [u8], AllocError>
    ensures joined { OnOk result (joined.new ≡ joined.old ++ (body_of (lines_of text.now)).0) }
    ensures behind { IfOk result (λ rest. lines_of rest.now ≡ (body_of (lines_of text.now)).1) }
    ensures fewer { IfOk result (λ rest. length (lines_of rest.now) ≤ length (lines_of text.now)) }
{
    let mut rest = text;
    'lines: while let Some((line, next)) = next_line(rest) {
        if ends_body(line) {
            return Ok(rest);
        }
        joined.extend(line)?;
        rest = next;
    }
    Ok(rest)
}

// The text behind a checksum's line, if one stands there.
#[tactic(auto, unfolding(crate::specs::ArmourReading::after_checksum))]
fn after_checksum(text: &[u8]) -> &[u8]
    ensures behind { lines_of result.now ≡ after_checksum (lines_of text.now) }
    ensures fewer { length (lines_of result.now) ≤ length (lines_of text.now) }
{
    match next_line(text) {
        Some((line, rest)) if line.starts_with(b"=") => rest,
        _ => text,
    }
}

// The text behind the END line, which has to stand there.
#[tactic(auto, unfolding(crate::specs::ArmourReading::after_end))]
fn after_end(text: &[u8]) -> Option<&[u8]>
    ensures behind { lines_in result ≡ after_end (lines_of text.now) }
    ensures fewer { IfSome result (λ rest. length (lines_of rest.now) ≤ length (lines_of text.now)) }
{
    let (line, rest) = next_line(text)?;
    if line == b"-----END PGP PUBLIC KEY BLOCK-----".as_slice() {
        Some(rest)
    } else {
        None
    }
}

// What a body's text decodes to.
#[tactic(auto, unfolding(crate::specs::Armour::content_of, base64::specs::GeneralPurpose::decoded_of))]
fn content_of(alloc: Global, body: &[u8]) -> Result<Option<Bytes>, AllocError>
    ensures { IfOk result (λ content. content ≡ content_of body.now) }
{
    match STANDARD.decode(alloc, body) {
        Ok(content) => Ok(Some(Bytes::from_vec(content))),
        Err(DecodeAllocError::OutOfMemory) => Err(AllocError),
        Err(_) => Ok(None),
    }
}

/// Reads a block behind its BEGIN line; none where the text doesn't go on as a block.
#[tactic(auto, unfolding(crate::specs::ArmourReading::block_of))]
pub fn read_block(alloc: Global, text: &[u8]) -> Result<Option<Block<'_>>, AllocError>
    ensures block { IfOk result (λ block. parts_in block ≡ block_of (lines_of text.now)) }
    ensures fewer { IfOk result (λ block. IfSome block (λ block. length (lines_of block.rest.now) ≤ length (lines_of text.now))) }
{
    let Some(behind) = after_headers(text) else {
        return Ok(None);
    };
    let mut joined = Bytes::new(alloc);
    let behind = join_body(behind, &mut joined)?;
    let Some(rest) = after_end(after_checksum(behind)) else {
        return Ok(None);
    };
    let Some(content) = content_of(alloc, joined.as_slice())? else {
        return Ok(None);
    };
    Ok(Some(Block { content, rest }))
}
