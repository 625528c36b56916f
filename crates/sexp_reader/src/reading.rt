//! Data, from the left.
ghost use Rattle.std.specs.Prelude.{◌≡◌, ◌↔◌, ◌≤◌, ◌<◌, ◌+◌, ℕ, List, IfOk, IfSome};
ghost use Rattle.sexp_reader.specs.Descent.{ReadsDatum, ReadsData, ReadsLone, Begins, quoted_data};
ghost use Rattle.sexp_reader.specs.Grammar.{IsEmpty, IsFirst};
ghost use Rattle.sexp_reader.specs.Reading.{first_datum, Gives};
ghost use Rattle.sexp_reader.specs.Spelling.{IsPrintable};
ghost use Rattle.sexp_reader.specs.Tree.{Tree, tree};

use crate::bytes::{first_byte, is_refused, past_first};
use crate::fail::{Cause, ReadFail};
use crate::quoted::text_of;
use crate::skip::skip;
use crate::token::{cut_token, datum_of};
use crate::{Datum, DatumList, SexpFail};
use child_ports::Text;
use std::alloc::{AllocError, Global};

/// How many levels of lists there may be.
const MAX_LEVELS: usize = 128;

// The list of the symbol `quote` and a datum.
fn quote_of(alloc: Global, datum: Datum) -> Result<DatumList, AllocError>
    ensures { IfOk result (λ items. items ≡ quoted_data datum) }
{
    let mut word = Text::new(alloc);
    word.push("quote")?;
    let mut items = DatumList::new(alloc);
    items.push(Datum::Symbol(word))?;
    items.push(datum)?;
    Ok(items)
}

// The datum that begins here.
#[cycle(descent)]
fn datum(alloc: Global, text: &str, level: usize) -> Result<(Datum, &str), ReadFail>
    requires begins { Begins text.now }
    requires level { level ≤ 128 }
    ensures { ReadsDatum level text.now result }
{
    let first = text.as_bytes()[0];
    if first == b'"' {
        let (found, rest) = text_of(alloc, past_first(text))?;
        return Ok((Datum::Text(found), rest));
    }
    if first == b'(' {
        if level == MAX_LEVELS {
            return Err(ReadFail::Fault(Cause::Deep, text.len()));
        }
        let (items, rest) = data(alloc, past_first(text), level + 1)?;
        return Ok((Datum::List(items), rest));
    }
    if first == b'\'' {
        if level == MAX_LEVELS {
            return Err(ReadFail::Fault(Cause::Deep, text.len()));
        }
        let Some((quoted, rest)) = lone(alloc, past_first(text), level + 1)? else {
            return Err(ReadFail::Fault(Cause::Open, 0));
        };
        let items = quote_of(alloc, quoted)?;
        return Ok((Datum::List(items), rest));
    }
    if is_refused(first) {
        return Err(ReadFail::Fault(Cause::Hash, text.len()));
    }
    let (token, rest) = cut_token(text);
    let found = datum_of(alloc, token, text.len())?;
    Ok((found, rest))
}

// The data of a list, up to the bracket that closes it.
#[cycle(descent)]
fn data(alloc: Global, text: &str, level: usize) -> Result<(DatumList, &str), ReadFail>
    requires { level ≤ 128 }
    ensures { ReadsData level text.now result }
{
    let mut items = DatumList::new(alloc);
    let mut rest = text;
    loop {
        let next = skip(rest);
        let Some(first) = first_byte(next) else {
            return Err(ReadFail::Fault(Cause::Open, 0));
        };
        if first == b')' {
            return Ok((items, past_first(next)));
        }
        let (item, after) = datum(alloc, next, level)?;
        items.push(item)?;
        rest = after;
    }
}

// A datum outside any list, or directly after a quote, if there is one.
#[cycle(descent)]
fn lone(alloc: Global, text: &str, level: usize) -> Result<Option<(Datum, &str)>, ReadFail>
    requires { level ≤ 128 }
    ensures { ReadsLone level text.now result }
{
    let next = skip(text);
    let Some(first) = first_byte(next) else {
        return Ok(None);
    };
    if first == b')' {
        return Err(ReadFail::Fault(Cause::Close, next.len()));
    }
    let (found, rest) = datum(alloc, next, level)?;
    Ok(Some((found, rest)))
}

// What the reading from the left answers.
fn first_of(alloc: Global, bytes: &[u8]) -> Result<Option<Datum>, SexpFail>
    ensures { Gives result (first_datum bytes.now) }
{
    let text = match str::from_utf8(bytes) {
        Ok(text) => text,
        Err(e) => return Err(SexpFail::NotUtf8(e.valid_up_to() as u64)),
    };
    match lone(alloc, text, 0) {
        Ok(None) => Ok(None),
        Ok(Some((datum, _))) => Ok(Some(datum)),
        Err(ReadFail::Fault(cause, left)) => Err(cause.at((bytes.len() - left) as u64)),
        Err(ReadFail::Memory) => Err(SexpFail::Memory),
    }
}

/// The first datum, or none where there is only white space and comments.
///
/// What follows the first datum is only looked at for being UTF-8.
pub fn read_first(alloc: Global, bytes: &[u8]) -> Result<Option<Datum>, SexpFail>
    // Unless memory is wanting, the answer is what a reading from the left finds, or the first fault that it meets.
    ensures exact { Gives result (first_datum bytes.now) }
    // It finds a datum exactly where the grammar has it first.
    ensures found { (t : Tree) → (first_datum bytes.now ≡ Ok (Some t)) ↔ IsFirst bytes.now t }
    // It finds none exactly where only white space and comments stand.
    ensures none { (first_datum bytes.now ≡ Ok None) ↔ IsEmpty bytes.now }
    // What was read can be printed.
    ensures printable { IfOk result (λ found. IfSome found (λ d. IsPrintable (tree d))) }
{
    first_of(alloc, bytes)
}
