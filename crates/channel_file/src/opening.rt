//! What a file begins with.
ghost use Rattle.std.specs.Prelude.{◌≡◌, ◌≢◌, map, Err};
ghost use Rattle.sexp_reader.specs.Reading.{first_datum};
ghost use Rattle.sexp_reader.specs.Tree.{tree};
ghost use Rattle.sexp_reader.specs.declared.fail.SexpFail.TheVariants as sexp;
ghost use Rattle.channel_file.specs.Dependencies.{behind_version};
ghost use Rattle.channel_file.specs.Reading.{Gives, datum_in};
ghost use Rattle.channel_file.specs.ReadingInside.{tree_read, trees_read};

use crate::elements::version_in;
use crate::{ChannelFail, Field};
use sexp_reader::{Datum, SexpFail, read_first};
use std::alloc::Global;

/// The first datum of the bytes.
pub fn datum_in(alloc: Global, bytes: &[u8]) -> Result<Datum, ChannelFail>
    ensures datum { Gives (tree_read result) (datum_in (first_datum bytes.now)) }
    ensures memory { result ≢ Err (ChannelFail.Sexp sexp.Memory) }
{
    match read_first(alloc, bytes) {
        Ok(Some(datum)) => Ok(datum),
        Ok(None) => Err(ChannelFail::Shape(Field::Channel)),
        Err(SexpFail::Memory) => Err(ChannelFail::Memory),
        Err(fail) => Err(ChannelFail::Sexp(fail)),
    }
}

/// What follows `(version 0)`.
pub fn behind_version(field: Field, elements: &[Datum]) -> Result<&[Datum], ChannelFail>
    ensures rest { trees_read result ≡ behind_version field (map tree elements.now) }
    ensures memory { result ≢ Err (ChannelFail.Sexp sexp.Memory) }
{
    let [version, rest @ ..] = elements else {
        return Err(ChannelFail::Shape(field));
    };
    let Some(number) = version_in(version) else {
        return Err(ChannelFail::Shape(field));
    };
    if number != 0 {
        return Err(ChannelFail::Version(number));
    }
    Ok(rest)
}
