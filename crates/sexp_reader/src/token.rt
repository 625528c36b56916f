//! Tokens: numbers and symbols.
ghost use Rattle.std.specs.Prelude.{◌≡◌, ◌<◌, ◌++◌, IfOk, true, not, length, string_bytes};
ghost use Rattle.sexp_reader.specs.Grammar.{all_digits};
ghost use Rattle.sexp_reader.specs.Grammar as grammar;
ghost use Rattle.sexp_reader.specs.Token.{Cuts, IsTokens};

use crate::Datum;
use crate::bytes::ends_token;
use crate::fail::{Cause, ReadFail};
use child_ports::Text;
use std::alloc::Global;

/// The longest run of a token's bytes, and what follows it.
pub fn cut_token(text: &str) -> (&str, &str)
    ensures { Cuts text.now result.0.now result.1.now }
{
    let bytes = text.as_bytes();
    let mut end = 0;
    while end < bytes.len() && !ends_token(bytes[end]) {
        end += 1;
    }
    (&text[..end], &text[end..])
}

fn is_digits(token: &str) -> bool
    ensures { result ≡ all_digits token.now }
{
    token.as_bytes().iter().all(|b| b.is_ascii_digit())
}

/// The number or the symbol of a token. A fault leaves what the token and the bytes after it have.
pub fn datum_of(alloc: Global, token: &str, left: usize) -> Result<Datum, ReadFail>
    requires { 0 < length token.now }
    ensures { IsTokens token.now left result }
{
    if is_digits(token) {
        let Ok(number) = token.parse::<u64>() else {
            return Err(ReadFail::Fault(Cause::Number, left));
        };
        return Ok(Datum::Number(number));
    }
    if token == "." {
        return Err(ReadFail::Fault(Cause::Hash, left));
    }
    let mut symbol = Text::new(alloc);
    symbol.push(token)?;
    Ok(Datum::Symbol(symbol))
}
