//! The channels that metadata depends on.
ghost use Rattle.std.specs.Prelude.{◌≡◌, ◌≢◌, [], map, codes, Err};
ghost use Rattle.std.specs.Option.{ok_or};
ghost use Rattle.sexp_reader.specs.Tree.{tree};
ghost use Rattle.sexp_reader.specs.declared.fail.SexpFail.TheVariants as sexp;
ghost use Rattle.channel_file.specs.Channels.{each};
ghost use Rattle.channel_file.specs.Dependencies.{bare_name, one, if_any, stated_introduction, dependency_of, dependency, name_of, url_of, branch_of, commit_of, introduction_of};
ghost use Rattle.channel_file.specs.Elements.{first_behind};
ghost use Rattle.channel_file.specs.Fields.{url_in, reference_in, commit_in};
ghost use Rattle.channel_file.specs.Reading.{Gives};
ghost use Rattle.channel_file.specs.ReadingInside.{text_read, text_read_if_any};

use crate::elements::{behind, first_behind, only};
use crate::fields::{commit_in, reference_in, url_in};
use crate::introductions::stated_in;
use crate::listing::branch_or_default;
use crate::making::make_channel;
use crate::names::is_channel_name;
use crate::opening::behind_version;
use crate::{Channel, ChannelFail, ChannelList, Field, Introduction};
use object_frames::Id;
use sexp_reader::Datum;
use std::alloc::Global;

// The bare symbol that names a dependency.
fn bare_name(index: u64, given: &[Datum]) -> Result<&str, ChannelFail>
    ensures { text_read result ≡ bare_name index (map tree given.now) }
{
    let Some(datum) = only(given) else {
        return Err(ChannelFail::Shape(Field::Name));
    };
    let Some(name) = datum.as_symbol() else {
        return Err(ChannelFail::Shape(Field::Name));
    };
    if is_channel_name(name) {
        Ok(name)
    } else {
        Err(ChannelFail::Name(index))
    }
}

// The name of the dependency of this number.
fn name_of(index: u64, fields: &[Datum]) -> Result<&str, ChannelFail>
    ensures { text_read result ≡ name_of index (map tree fields.now) }
{
    match first_behind("name", fields) {
        Some(given) => bare_name(index, given),
        None => Err(ChannelFail::Name(index)),
    }
}

// The address of a dependency.
fn url_of(fields: &[Datum]) -> Result<&str, ChannelFail>
    ensures { text_read result ≡ url_of (map tree fields.now) }
{
    let Some(given) = first_behind("url", fields) else {
        return Err(ChannelFail::Shape(Field::Url));
    };
    let Some(datum) = only(given) else {
        return Err(ChannelFail::Shape(Field::Url));
    };
    url_in(datum).ok_or(ChannelFail::Shape(Field::Url))
}

// The reference that a field or a property of this name has, if there is one.
pub fn reference_of<'a>(
    field: Field,
    word: &str,
    elements: &'a [Datum],
) -> Result<Option<&'a str>, ChannelFail>
    ensures { text_read_if_any result ≡ if_any (one field reference_in) (first_behind word.now (map tree elements.now)) }
{
    let Some(given) = first_behind(word, elements) else {
        return Ok(None);
    };
    let Some(datum) = only(given) else {
        return Err(ChannelFail::Shape(field));
    };
    match reference_in(datum) {
        Some(reference) => Ok(Some(reference)),
        None => Err(ChannelFail::Shape(field)),
    }
}

// The commit of a dependency, if it has one.
fn commit_of(fields: &[Datum]) -> Result<Option<Id>, ChannelFail>
    ensures { result ≡ commit_of (map tree fields.now) }
{
    let Some(given) = first_behind("commit", fields) else {
        return Ok(None);
    };
    let Some(datum) = only(given) else {
        return Err(ChannelFail::Shape(Field::Commit));
    };
    match commit_in(datum) {
        Some(commit) => Ok(Some(commit)),
        None => Err(ChannelFail::Shape(Field::Commit)),
    }
}

// The introduction that data state.
fn stated_introduction(given: &[Datum]) -> Result<Introduction, ChannelFail>
    ensures introduction { result ≡ stated_introduction (map tree given.now) }
    ensures memory { result ≢ Err (ChannelFail.Sexp sexp.Memory) }
{
    let Some(datum) = only(given) else {
        return Err(ChannelFail::Shape(Field::Introduction));
    };
    let Some(parts) = behind("channel-introduction", datum) else {
        return Err(ChannelFail::Shape(Field::Introduction));
    };
    let rest = behind_version(Field::Introduction, parts)?;
    stated_in(rest).ok_or(ChannelFail::Shape(Field::Introduction))
}

// The introduction of a dependency, if it has one.
fn introduction_of(fields: &[Datum]) -> Result<Option<Introduction>, ChannelFail>
    ensures introduction { result ≡ introduction_of (map tree fields.now) }
    ensures memory { result ≢ Err (ChannelFail.Sexp sexp.Memory) }
{
    match first_behind("introduction", fields) {
        Some(given) => Ok(Some(stated_introduction(given)?)),
        None => Ok(None),
    }
}

// The dependency of these fields.
fn dependency_of(alloc: Global, index: u64, fields: &[Datum]) -> Result<Channel, ChannelFail>
    ensures channel { Gives result (dependency_of index (map tree fields.now)) }
    ensures memory { result ≢ Err (ChannelFail.Sexp sexp.Memory) }
{
    let name = name_of(index, fields)?;
    let url = url_of(fields)?;
    let branch = branch_or_default(reference_of(Field::Branch, "branch", fields)?);
    let commit = commit_of(fields)?;
    let introduction = introduction_of(fields)?;
    let channel = make_channel(alloc, name, url, branch, commit, introduction)?;
    Ok(channel)
}

// The dependency of an element, which has this number.
fn dependency(alloc: Global, index: u64, element: &Datum) -> Result<Channel, ChannelFail>
    ensures channel { Gives result (dependency index (tree element.now)) }
    ensures memory { result ≢ Err (ChannelFail.Sexp sexp.Memory) }
{
    let Some(fields) = behind("channel", element) else {
        return Err(ChannelFail::Shape(Field::Dependencies));
    };
    dependency_of(alloc, index, fields)
}

/// The dependencies of elements.
pub fn dependencies_in(alloc: Global, elements: &[Datum]) -> Result<ChannelList, ChannelFail>
    ensures channels { Gives result (each dependency 0 (map tree elements.now)) }
    ensures memory { result ≢ Err (ChannelFail.Sexp sexp.Memory) }
{
    let mut channels = ChannelList::new(alloc);
    for (index, element) in elements.iter().enumerate() {
        let channel = dependency(alloc, index as u64, element)?;
        channels.push(channel)?;
    }
    Ok(channels)
}
