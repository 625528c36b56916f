//! Texts in quotes.
ghost use Rattle.std.specs.Prelude.{◌≡◌, ◌++◌, [], ◌∷◌, MatchOption, None, Some};
ghost use Rattle.sexp_reader.specs.Grammar as grammar;
ghost use Rattle.sexp_reader.specs.Quoted.{CutsPlain, ReadsText, StandsFor};

use crate::bytes::{first_byte, past_first};
use crate::fail::{Cause, ReadFail};
use child_ports::Text;
use std::alloc::Global;

// What stands before the next quote or backslash, and the rest.
fn cut_plain(text: &str) -> (&str, &str)
    ensures { CutsPlain text.now result.0.now result.1.now }
{
    let bytes = text.as_bytes();
    let mut end = 0;
    while end < bytes.len() && bytes[end] != b'"' && bytes[end] != b'\\' {
        end += 1;
    }
    (&text[..end], &text[end..])
}

// What a byte after a backslash stands for.
fn escaped(b: u8) -> Option<&'static str>
    ensures { StandsFor b result }
{
    match b {
        b'\\' => Some("\\"),
        b'"' => Some("\""),
        b'n' => Some("\n"),
        b't' => Some("\t"),
        _ => None,
    }
}

/// The text after its first quote, up to its last.
pub fn text_of(alloc: Global, text: &str) -> Result<(Text, &str), ReadFail>
    ensures { ReadsText text.now result }
{
    let mut found = Text::new(alloc);
    let mut rest = text;
    loop {
        let (plain, next) = cut_plain(rest);
        found.push(plain)?;
        let Some(quote) = first_byte(next) else {
            return Err(ReadFail::Fault(Cause::Open, 0));
        };
        let after = past_first(next);
        if quote == b'"' {
            return Ok((found, after));
        }
        let Some(letter) = first_byte(after) else {
            return Err(ReadFail::Fault(Cause::Open, 0));
        };
        let Some(part) = escaped(letter) else {
            return Err(ReadFail::Fault(Cause::Escape, after.len()));
        };
        found.push(part)?;
        rest = past_first(after);
    }
}
