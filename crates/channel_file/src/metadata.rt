//! The metadata of a channel.
ghost use Rattle.std.specs.Prelude.{◌≡◌, ◌≢◌, [], map, codes, unwrap_or, IfOk, Err};
ghost use Rattle.sexp_reader.specs.Tree.{tree};
ghost use Rattle.sexp_reader.specs.declared.fail.SexpFail.TheVariants as sexp;
ghost use Rattle.channel_file.specs.Channels.{each};
ghost use Rattle.channel_file.specs.Dependencies.{dependency};
ghost use Rattle.channel_file.specs.Elements.{first_behind};
ghost use Rattle.channel_file.specs.Fields.{path_in};
ghost use Rattle.channel_file.specs.Limits.{IsFitMetadata};
ghost use Rattle.channel_file.specs.Metadata.{properties_of, text_of, metadata_from, metadata_of};
ghost use Rattle.channel_file.specs.Reading.{Gives};
ghost use Rattle.channel_file.specs.ReadingInside.{trees_read, text_read_if_any};

use crate::dependencies::{dependencies_in, reference_of};
use crate::elements::{behind, first_behind, only};
use crate::fields::path_in;
use crate::making::make_text_if_any;
use crate::opening::{behind_version, datum_in};
use crate::{ChannelFail, ChannelList, Field, Metadata};
use sexp_reader::Datum;
use std::alloc::Global;

// The properties behind the version.
fn properties_of(datum: &Datum) -> Result<&[Datum], ChannelFail>
    ensures { trees_read result ≡ properties_of (tree datum.now) }
{
    let Some(elements) = behind("channel", datum) else {
        return Err(ChannelFail::Shape(Field::Channel));
    };
    behind_version(Field::Channel, elements)
}

// The text of a property, if there is one of this name.
fn path_of<'a>(
    field: Field,
    word: &str,
    properties: &'a [Datum],
) -> Result<Option<&'a str>, ChannelFail>
    ensures { text_read_if_any result ≡ text_of field path_in word.now (map tree properties.now) }
{
    let Some(given) = first_behind(word, properties) else {
        return Ok(None);
    };
    let Some(datum) = only(given) else {
        return Err(ChannelFail::Shape(field));
    };
    match path_in(datum) {
        Some(path) => Ok(Some(path)),
        None => Err(ChannelFail::Shape(field)),
    }
}

// The dependencies among properties.
fn dependencies_among(alloc: Global, properties: &[Datum]) -> Result<ChannelList, ChannelFail>
    ensures channels { Gives result (each dependency 0
        (unwrap_or (first_behind (codes "dependencies") (map tree properties.now)) [])) }
    ensures memory { result ≢ Err (ChannelFail.Sexp sexp.Memory) }
{
    match first_behind("dependencies", properties) {
        Some(elements) => dependencies_in(alloc, elements),
        None => Ok(ChannelList::new(alloc)),
    }
}

// The metadata of properties.
fn metadata_from(alloc: Global, properties: &[Datum]) -> Result<Metadata, ChannelFail>
    ensures metadata { Gives result (metadata_from (map tree properties.now)) }
    ensures memory { result ≢ Err (ChannelFail.Sexp sexp.Memory) }
{
    let directory = path_of(Field::Directory, "directory", properties)?;
    let url = path_of(Field::Url, "url", properties)?;
    let keyring = reference_of(Field::KeyringReference, "keyring-reference", properties)?;
    let news = path_of(Field::NewsFile, "news-file", properties)?;
    let dependencies = dependencies_among(alloc, properties)?;
    let directory = make_text_if_any(alloc, directory)?;
    let url = make_text_if_any(alloc, url)?;
    let keyring_reference = make_text_if_any(alloc, keyring)?;
    let news_file = make_text_if_any(alloc, news)?;
    Ok(Metadata {
        directory,
        url,
        keyring_reference,
        news_file,
        dependencies,
    })
}

// The metadata of the bytes.
fn read_properties(alloc: Global, bytes: &[u8]) -> Result<Metadata, ChannelFail>
    ensures reads { Gives result (metadata_of bytes.now) }
    ensures memory { result ≢ Err (ChannelFail.Sexp sexp.Memory) }
{
    let datum = datum_in(alloc, bytes)?;
    let properties = properties_of(&datum)?;
    metadata_from(alloc, properties)
}

/// Reads the metadata that a channel has in its file `.guix-channel`, after Guix's manual, "Channels".
///
/// Only the first datum counts, and of the properties of one name only the first.
pub fn read_metadata(alloc: Global, bytes: &[u8]) -> Result<Metadata, ChannelFail>
    // Unless memory is wanting, the answer is what the bytes give.
    ensures reads { Gives result (metadata_of bytes.now) }
    // Each text and each dependency keeps its limits.
    ensures fit { IfOk result (λ metadata. IsFitMetadata metadata) }
    // Want of memory is told as such, wherever it comes.
    ensures memory { result ≢ Err (ChannelFail.Sexp sexp.Memory) }
{
    read_properties(alloc, bytes)
}
