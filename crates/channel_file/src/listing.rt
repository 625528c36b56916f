//! One channel of a list.
ghost use Rattle.std.specs.Prelude.{◌≡◌, ◌≢◌, map, codes, unwrap_or, IfOk, Err};
ghost use Rattle.std.specs.Option.{option_copied, option_or};
ghost use Rattle.sexp_reader.specs.Tree.{tree, symbol_in};
ghost use Rattle.sexp_reader.specs.declared.fail.SexpFail.TheVariants as sexp;
ghost use Rattle.channel_file.specs.Channels.{other_form, elements_of, channel_of, listed_channel};
ghost use Rattle.channel_file.specs.Elements.{head_of};
ghost use Rattle.channel_file.specs.Fields.{quoted_name, url_in, reference_in, commit_in, value};
ghost use Rattle.channel_file.specs.Introductions.{made_introduction};
ghost use Rattle.channel_file.specs.Reading.{Gives};
ghost use Rattle.channel_file.specs.ReadingInside.{trees_read};

use crate::elements::{behind, first_behind, head_of, only};
use crate::fields::{commit_in, quoted_name, reference_in, url_in};
use crate::introductions::made_introduction;
use crate::judging::judge_elements;
use crate::making::{make_channel, make_text};
use crate::{Channel, ChannelFail, Field, Introduction};
use object_frames::Id;
use sexp_reader::Datum;
use std::alloc::{AllocError, Global};

/// Which branch is taken where none is named.
pub const DEFAULT_BRANCH: &str = "master";

// The fault of a datum that isn't of a list's form.
fn other_form(alloc: Global, datum: &Datum) -> Result<ChannelFail, AllocError>
    ensures { IfOk result (λ fault.
        fault ≡ other_form (option_or (symbol_in (tree datum.now)) (head_of (tree datum.now)))) }
{
    let symbol = match datum.as_symbol() {
        Some(symbol) => Some(symbol),
        None => head_of(datum),
    };
    match symbol {
        Some(symbol) => Ok(ChannelFail::Evaluates(make_text(alloc, symbol)?)),
        None => Ok(ChannelFail::Shape(Field::Channel)),
    }
}

/// The elements behind this word, in a list that it heads.
pub fn elements_of<'a>(
    alloc: Global,
    word: &str,
    datum: &'a Datum,
) -> Result<&'a [Datum], ChannelFail>
    ensures elements { Gives (trees_read result) (elements_of word.now (tree datum.now)) }
    ensures memory { result ≢ Err (ChannelFail.Sexp sexp.Memory) }
{
    match behind(word, datum) {
        Some(elements) => Ok(elements),
        None => Err(other_form(alloc, datum)?),
    }
}

// The name among these fields.
fn name_among(fields: &[Datum]) -> Option<&str>
    ensures { option_copied result ≡ value quoted_name (codes "name") (map tree fields.now) }
{
    quoted_name(only(first_behind("name", fields)?)?)
}

// The address among these fields.
fn url_among(fields: &[Datum]) -> Option<&str>
    ensures { option_copied result ≡ value url_in (codes "url") (map tree fields.now) }
{
    url_in(only(first_behind("url", fields)?)?)
}

// The branch among these fields.
fn branch_among(fields: &[Datum]) -> Option<&str>
    ensures { option_copied result ≡ value reference_in (codes "branch") (map tree fields.now) }
{
    reference_in(only(first_behind("branch", fields)?)?)
}

// The commit among these fields.
fn commit_among(fields: &[Datum]) -> Option<Id>
    ensures { result ≡ value commit_in (codes "commit") (map tree fields.now) }
{
    commit_in(only(first_behind("commit", fields)?)?)
}

// The introduction among these fields.
fn introduction_among(fields: &[Datum]) -> Option<Introduction>
    ensures { result ≡ value made_introduction (codes "introduction") (map tree fields.now) }
{
    made_introduction(only(first_behind("introduction", fields)?)?)
}

/// The branch, or else the one that is taken where none is named.
pub fn branch_or_default(branch: Option<&str>) -> &str
    ensures { result.now ≡ unwrap_or (option_copied branch.entry) (codes "master") }
{
    match branch {
        Some(branch) => branch,
        None => DEFAULT_BRANCH,
    }
}

// The channel of these fields.
fn channel_of(alloc: Global, index: u64, fields: &[Datum]) -> Result<Channel, ChannelFail>
    ensures channel { Gives result (channel_of index (map tree fields.now)) }
    ensures memory { result ≢ Err (ChannelFail.Sexp sexp.Memory) }
{
    judge_elements(alloc, index, fields)?;
    let Some(name) = name_among(fields) else {
        return Err(ChannelFail::Name(index));
    };
    let Some(url) = url_among(fields) else {
        return Err(ChannelFail::Shape(Field::Url));
    };
    let branch = branch_or_default(branch_among(fields));
    let commit = commit_among(fields);
    let introduction = introduction_among(fields);
    let channel = make_channel(alloc, name, url, branch, commit, introduction)?;
    Ok(channel)
}

/// The channel of an element of a list, which has this number.
pub fn listed_channel(alloc: Global, index: u64, element: &Datum) -> Result<Channel, ChannelFail>
    ensures channel { Gives result (listed_channel index (tree element.now)) }
    ensures memory { result ≢ Err (ChannelFail.Sexp sexp.Memory) }
{
    let fields = elements_of(alloc, "channel", element)?;
    channel_of(alloc, index, fields)
}
