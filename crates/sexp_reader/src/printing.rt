//! The text of a datum.
ghost use Rattle.std.specs.Prelude.{◌≡◌, ◌<◌, ◌^◌, ◌++◌, Ok, Some, false, decimal, IfOk, OnOk};
ghost use Rattle.sexp_reader.specs.Spelling as spell;
ghost use Rattle.sexp_reader.specs.Spelling.{spelling, quoted_spelling, written, CutsLiteral, IsPrintable, NumbersFit};
ghost use Rattle.sexp_reader.specs.Reading.{first_datum};
ghost use Rattle.sexp_reader.specs.Tree.{tree};

use crate::Datum;
use crate::bytes::{first_byte, past_first};
use child_ports::{Bytes, Text};
use itoa::Buffer;
use std::alloc::{AllocError, Global};

// A byte of a text that is written as itself.
fn is_literal(b: u8) -> bool
    ensures { result ≡ spell.is_literal b }
{
    b != b'\\' && b != b'"' && b != b'\n' && b != b'\t'
}

// How another byte is written.
fn escape_of(b: u8) -> &'static str
    requires { spell.is_literal b ≡ false }
    ensures { result.now ≡ written b }
{
    match b {
        b'\\' => "\\\\",
        b'"' => "\\\"",
        b'\n' => "\\n",
        _ => "\\t",
    }
}

// What stands before the next byte that isn't written as itself, and the rest.
fn cut_literal(text: &str) -> (&str, &str)
    ensures { CutsLiteral text.now result.0.now result.1.now }
{
    let bytes = text.as_bytes();
    let mut end = 0;
    while end < bytes.len() && is_literal(bytes[end]) {
        end += 1;
    }
    (&text[..end], &text[end..])
}

// Writes a text in quotes.
fn print_text(out: &mut Text, text: &str) -> Result<(), AllocError>
    ensures { OnOk result (out.new ≡ out.old ++ quoted_spelling text.now) }
{
    out.push("\"")?;
    let mut rest = text;
    loop {
        let (literal, next) = cut_literal(rest);
        out.push(literal)?;
        let Some(first) = first_byte(next) else {
            out.push("\"")?;
            return Ok(());
        };
        out.push(escape_of(first))?;
        rest = past_first(next);
    }
}

// Writes a number.
fn print_number(out: &mut Text, number: u64) -> Result<(), AllocError>
    ensures text { OnOk result (out.new ≡ out.old ++ decimal number) }
    ensures fits { number < 2 ^ 64 }
{
    let mut buffer = Buffer::new();
    out.push(buffer.format(number))?;
    Ok(())
}

// Writes a datum.
fn print_datum(out: &mut Text, datum: &Datum) -> Result<(), AllocError>
    ensures text { OnOk result (out.new ≡ out.old ++ spelling (tree datum.now)) }
    ensures numbers { OnOk result (NumbersFit (tree datum.now)) }
{
    match datum {
        Datum::Symbol(symbol) => {
            out.push(symbol.as_str())?;
            Ok(())
        }
        Datum::Text(text) => {
            print_text(out, text.as_str())?;
            Ok(())
        }
        Datum::Number(number) => {
            print_number(out, *number)?;
            Ok(())
        }
        Datum::List(items) => {
            out.push("(")?;
            for (i, item) in items.as_slice().iter().enumerate() {
                if i > 0 {
                    out.push(" ")?;
                }
                print_datum(out, item)?;
            }
            out.push(")")?;
            Ok(())
        }
    }
}

/// The text of a datum, which is read as this datum again.
pub fn print(alloc: Global, datum: &Datum) -> Result<Bytes, AllocError>
    requires { IsPrintable (tree datum.now) }
    ensures text { IfOk result (λ bytes. bytes ≡ spelling (tree datum.now)) }
    ensures again { IfOk result (λ bytes. first_datum bytes ≡ Ok (Some (tree datum.now))) }
{
    let mut out = Text::new(alloc);
    print_datum(&mut out, datum)?;
    let bytes = Bytes::from_slice(alloc, out.as_str().as_bytes())?;
    Ok(bytes)
}
