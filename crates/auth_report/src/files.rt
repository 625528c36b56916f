//! Why a file that words name gives no keys, as a line.
ghost use Rattle.std.specs.Prelude.{◌≡◌, ◌++◌, OnOk, IfOk, decimal};
ghost use Rattle.auth_report.specs.FileTexts.{sexp_text, auth_text, trouble_text, file_line};

use crate::parts::{push_name, push_numbered, push_place};
use authorizations::AuthFail;
use child_ports::Bytes;
use sexp_reader::SexpFail;
use std::alloc::{AllocError, Global};

/// Why a file of authorisations that words name gives no keys.
#[derive(Clone, Copy, Debug, PartialEq, Eq)]
pub enum FileFail {
    /// Nothing is there.
    Missing,
    /// It is longer than 1,048,576 bytes.
    TooLong,
    /// It is no file of authorisations.
    Malformed(AuthFail),
    /// It can't be read.
    Failed,
    /// Memory is wanting.
    Memory,
}

/// Adds why bytes have no first datum.
pub fn push_sexp(text: &mut Bytes, fail: SexpFail) -> Result<(), AllocError>
    ensures { OnOk result (text.new ≡ text.old ++ sexp_text fail) }
{
    match fail {
        SexpFail::NotUtf8(at) => push_place(text, b"not UTF-8 at byte ", at),
        SexpFail::Escape(at) => push_place(text, b"unknown escape at byte ", at),
        SexpFail::Open(at) => push_place(text, b"unfinished at byte ", at),
        SexpFail::Close(at) => push_place(text, b"unmatched bracket at byte ", at),
        SexpFail::Number(at) => push_place(text, b"number too large at byte ", at),
        SexpFail::Hash(at) => push_place(text, b"unsupported character at byte ", at),
        SexpFail::Deep(at) => push_place(text, b"nested too deeply at byte ", at),
        SexpFail::Memory => text.extend(b"out of memory"),
    }
}

/// Adds why bytes are no file of authorisations.
pub fn push_auth(text: &mut Bytes, fail: AuthFail) -> Result<(), AllocError>
    ensures { OnOk result (text.new ≡ text.old ++ auth_text fail) }
{
    match fail {
        AuthFail::Sexp(fail) => push_sexp(text, fail),
        AuthFail::Shape => text.extend(b"not an authorizations form"),
        AuthFail::Version(n) => {
            push_numbered(text, b"authorizations version ", n, b" is not supported")
        }
        AuthFail::Fingerprint(index) => {
            push_numbered(text, b"entry ", index, b" has no valid fingerprint")
        }
        AuthFail::Memory => text.extend(b"out of memory"),
    }
}

// Adds what is wrong with a file, behind its name.
fn push_trouble(text: &mut Bytes, fail: FileFail) -> Result<(), AllocError>
    ensures { OnOk result (text.new ≡ text.old ++ trouble_text fail) }
{
    match fail {
        FileFail::Missing => text.extend(b" is missing"),
        FileFail::TooLong => text.extend(b" is longer than 1048576 bytes"),
        FileFail::Malformed(fail) => {
            text.extend(b": ")?;
            push_auth(text, fail)
        }
        FileFail::Failed => text.extend(b" cannot be read"),
        FileFail::Memory => text.extend(b": out of memory"),
    }
}

/// The line on standard error for a file that gives no keys.
pub fn file_refusal(alloc: Global, path: &str, fail: &FileFail) -> Result<Bytes, AllocError>
    ensures { IfOk result (λ line. line ≡ file_line path.now fail.now) }
{
    let mut line = Bytes::new(alloc);
    line.extend(b"guix-auth: file ")?;
    push_name(&mut line, path.as_bytes())?;
    push_trouble(&mut line, *fail)?;
    line.extend(b"\n")?;
    Ok(line)
}
