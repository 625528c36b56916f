//! Why there is no keyring, as a text.
ghost use Rattle.std.specs.Prelude.{◌≡◌, ◌++◌, OnOk};
ghost use Rattle.keyring_branch.specs.declared.keyring_fail.KeyringFail.TheVariants.{File};
ghost use Rattle.auth_report.specs.Parts.{shown};
ghost use Rattle.auth_report.specs.Texts.{key_text, bad_text, ring_text};

use crate::parts::{push_name, push_place};
use crate::whats::{push_frame, push_kind, push_tree};
use child_ports::Bytes;
use keyring_branch::{FileBad, KeyFail, KeyringFail};
use std::alloc::AllocError;

// Adds why bytes hold no keys.
fn push_key_fail(text: &mut Bytes, fail: KeyFail) -> Result<(), AllocError>
    ensures { OnOk result (text.new ≡ text.old ++ key_text fail) }
{
    match fail {
        KeyFail::Armor(line) => push_place(text, b"bad armour block at line ", line),
        KeyFail::Packet(at) => push_place(text, b"bad packet at byte ", at),
        KeyFail::Length(at) => push_place(text, b"bad packet length at byte ", at),
        KeyFail::NoKey => text.extend(b"no key of version 4"),
        KeyFail::Memory => text.extend(b"out of memory"),
    }
}

// Adds why a key file gives no keys.
fn push_bad(text: &mut Bytes, bad: FileBad) -> Result<(), AllocError>
    ensures { OnOk result (text.new ≡ text.old ++ bad_text bad) }
{
    match bad {
        FileBad::Missing => text.extend(b"missing"),
        FileBad::Frame(fail) => push_frame(text, fail),
        FileBad::Kind(kind) => push_kind(text, kind),
        FileBad::Key(fail) => push_key_fail(text, fail),
    }
}

// Adds a name between words.
fn push_shown(text: &mut Bytes, words: &[u8], name: &[u8], more: &[u8]) -> Result<(), AllocError>
    ensures { OnOk result (text.new ≡ text.old ++ (words.now ++ shown name.now ++ more.now)) }
{
    text.extend(words)?;
    push_name(text, name)?;
    text.extend(more)
}

// Adds which key file is at fault, and why.
fn push_file(text: &mut Bytes, name: &Bytes, bad: FileBad) -> Result<(), AllocError>
    ensures { OnOk result (text.new ≡ text.old ++ ring_text (File name.now bad)) }
{
    push_shown(text, b"keyring file ", name.as_slice(), b": ")?;
    push_bad(text, bad)
}

/// Adds why there is no keyring.
pub fn push_ring(text: &mut Bytes, fail: &KeyringFail) -> Result<(), AllocError>
    ensures { OnOk result (text.new ≡ text.old ++ ring_text fail.now) }
{
    match fail {
        KeyringFail::GitFault => text.extend(b"git failed"),
        KeyringFail::NoBranch => text.extend(b"keyring branch: missing"),
        KeyringFail::Frame(fail) => {
            text.extend(b"keyring branch: ")?;
            push_frame(text, *fail)
        }
        KeyringFail::Kind(kind) => {
            text.extend(b"keyring branch: ")?;
            push_kind(text, *kind)
        }
        KeyringFail::Tree(fail) => {
            text.extend(b"keyring branch: ")?;
            push_tree(text, *fail)
        }
        KeyringFail::File { name, bad } => push_file(text, name, *bad),
        KeyringFail::TooLarge => text.extend(b"keyring is longer than 67108864 bytes"),
        KeyringFail::Memory => text.extend(b"out of memory"),
    }
}
