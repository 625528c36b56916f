//! Taking a file out of its armour.
ghost use Rattle.std.specs.Prelude.{◌≡◌, ℕ, List, Ok, IfOk, IfErr};
ghost use Rattle.keyring_branch.specs.Armour.{is_begin, is_binary, IsDearmored};
ghost use Rattle.keyring_branch.specs.ArmourFaults.{IsArmourFault};
ghost use Rattle.keyring_branch.specs.ArmourReading.{contents_of, dearmored};
ghost use Rattle.keyring_branch.specs.Fail.{Gives};

use crate::KeyFail;
use crate::block::read_block;
use crate::lines::{line_count, next_line};
use child_ports::Bytes;
use std::alloc::Global;

fn is_begin(line: &[u8]) -> bool
    ensures { result ≡ is_begin line.now }
{
    line == b"-----BEGIN PGP PUBLIC KEY BLOCK-----".as_slice()
}

// The joined contents of a text's blocks.
fn contents_of(alloc: Global, text: &[u8]) -> Result<Bytes, KeyFail>
    ensures { Gives result (contents_of text.now) }
{
    let mut contents = Bytes::new(alloc);
    let mut rest = text;
    'lines: while let Some((line, next)) = next_line(rest) {
        if is_begin(line) {
            let block = match read_block(alloc, next) {
                Ok(Some(block)) => block,
                Ok(None) => return Err(KeyFail::Armor(line_count(text) - line_count(next))),
                Err(_) => return Err(KeyFail::Memory),
            };
            contents.extend(block.content.as_slice())?;
            rest = block.rest;
        } else {
            rest = next;
        }
    }
    Ok(contents)
}

// Whether a file's first byte is 128 or more.
fn is_binary(file: &[u8]) -> bool
    ensures { result ≡ is_binary file.now }
{
    match file {
        [first, ..] => *first >= 128,
        [] => false,
    }
}

// What a file stands for.
#[tactic(auto, unfolding(crate::specs::ArmourReading::dearmored))]
fn take_off(alloc: Global, file: &[u8]) -> Result<Bytes, KeyFail>
    ensures { Gives result (dearmored file.now) }
{
    if is_binary(file) {
        return Ok(Bytes::from_slice(alloc, file)?);
    }
    contents_of(alloc, file)
}

/// What a key file stands for: the file itself where its first byte is 128 or more, and else the joined contents of the
/// armour blocks in its text, after RFC 4880, section 6.2.
///
/// A text without blocks stands for no bytes. A checksum isn't looked at.
pub fn dearmor(alloc: Global, file: &[u8]) -> Result<Bytes, KeyFail>
    // Unless memory is wanting, the answer is what the reading of the lines gives.
    ensures exact { Gives result (dearmored file.now) }
    // What is read is in the grammar, and what is in the grammar is read.
    ensures found { IfOk result (λ bytes. IsDearmored file.now bytes) }
    ensures only { (bytes : List ℕ) → IsDearmored file.now bytes → Gives result (Ok bytes) }
    // A refusal is the first block at fault.
    ensures fault { IfErr result (λ fault. IsArmourFault file.now fault) }
{
    take_off(alloc, file)
}
