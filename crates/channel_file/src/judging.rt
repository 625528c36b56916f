//! Which fault the elements of a channel in a list have.
ghost use Rattle.std.specs.Prelude.{◌≡◌, ◌≢◌, [], map, IfOk, Err};
ghost use Rattle.channel_file.specs.Elements.{head_of};
ghost use Rattle.sexp_reader.specs.Tree.{tree};
ghost use Rattle.sexp_reader.specs.declared.fail.SexpFail.TheVariants as sexp;
ghost use Rattle.channel_file.specs.Judging.{field_of, has_form, is_own_head, own_fault, form_fault, datum_judged, field_judged, element_judged, elements_judged};
ghost use Rattle.channel_file.specs.Reading.{Gives};

use crate::elements::{first_behind, head_of};
use crate::fields::{commit_in, quoted_name, reference_in, url_in};
use crate::introductions::made_introduction;
use crate::making::make_text;
use crate::{ChannelFail, Field};
use sexp_reader::Datum;
use std::alloc::{AllocError, Global};

// The field of a channel that this word names.
fn field_of(word: &str) -> Option<Field>
    ensures { result ≡ field_of word.now }
{
    if word == "name" {
        Some(Field::Name)
    } else if word == "url" {
        Some(Field::Url)
    } else if word == "branch" {
        Some(Field::Branch)
    } else if word == "commit" {
        Some(Field::Commit)
    } else if word == "introduction" {
        Some(Field::Introduction)
    } else {
        None
    }
}

// Whether a datum has the form of the field.
fn has_form(field: Field, datum: &Datum) -> bool
    ensures { result ≡ has_form field (tree datum.now) }
{
    match field {
        Field::Name => quoted_name(datum).is_some(),
        Field::Url => url_in(datum).is_some(),
        Field::Branch => reference_in(datum).is_some(),
        Field::Commit => commit_in(datum).is_some(),
        Field::Introduction => made_introduction(datum).is_some(),
        _ => false,
    }
}

// Whether this symbol heads the form of the field.
fn is_own_head(field: Field, head: &str) -> bool
    ensures { result ≡ is_own_head field head.now }
{
    match field {
        Field::Name => head == "quote",
        Field::Introduction => head == "make-channel-introduction",
        _ => false,
    }
}

// The fault of a datum of another form.
fn own_fault(index: u64, field: Field) -> ChannelFail
    ensures { result ≡ own_fault index field }
{
    match field {
        Field::Name => ChannelFail::Name(index),
        _ => ChannelFail::Shape(field),
    }
}

// The same, where it may have another head.
fn form_fault(
    alloc: Global,
    index: u64,
    field: Field,
    datum: &Datum,
) -> Result<ChannelFail, AllocError>
    ensures { IfOk result (λ fault. fault ≡ form_fault index field (head_of (tree datum.now))) }
{
    let Some(head) = head_of(datum) else {
        return Ok(own_fault(index, field));
    };
    if is_own_head(field, head) {
        Ok(own_fault(index, field))
    } else {
        Ok(ChannelFail::Evaluates(make_text(alloc, head)?))
    }
}

// The datum of a field.
fn judge_datum(alloc: Global, index: u64, field: Field, datum: &Datum) -> Result<(), ChannelFail>
    ensures judged { Gives result (datum_judged index field (tree datum.now)) }
    ensures memory { result ≢ Err (ChannelFail.Sexp sexp.Memory) }
{
    if has_form(field, datum) {
        Ok(())
    } else {
        Err(form_fault(alloc, index, field, datum)?)
    }
}

// A field of this name, behind these elements.
fn judge_field(
    alloc: Global,
    index: u64,
    before: &[Datum],
    word: &str,
    datum: &Datum,
) -> Result<(), ChannelFail>
    ensures judged { Gives result (field_judged index (map tree before.now) word.now (tree datum.now)) }
    ensures memory { result ≢ Err (ChannelFail.Sexp sexp.Memory) }
{
    if first_behind(word, before).is_some() {
        return Err(ChannelFail::Shape(Field::Channel));
    }
    let Some(field) = field_of(word) else {
        return Err(ChannelFail::Shape(Field::Channel));
    };
    judge_datum(alloc, index, field, datum)
}

// An element behind these.
fn judge_element(
    alloc: Global,
    index: u64,
    before: &[Datum],
    element: &Datum,
) -> Result<(), ChannelFail>
    ensures judged { Gives result (element_judged index (map tree before.now) (tree element.now)) }
    ensures memory { result ≢ Err (ChannelFail.Sexp sexp.Memory) }
{
    let Some([head, datum]) = element.as_list() else {
        return Err(ChannelFail::Shape(Field::Channel));
    };
    let Some(word) = head.as_symbol() else {
        return Err(ChannelFail::Shape(Field::Channel));
    };
    judge_field(alloc, index, before, word, datum)
}

/// The elements of the channel of this number, in order. A sound one has fields alone, of different names, each of its form.
pub fn judge_elements(alloc: Global, index: u64, elements: &[Datum]) -> Result<(), ChannelFail>
    ensures judged { Gives result (elements_judged index [] (map tree elements.now)) }
    ensures memory { result ≢ Err (ChannelFail.Sexp sexp.Memory) }
{
    for (place, element) in elements.iter().enumerate() {
        judge_element(alloc, index, &elements[..place], element)?;
    }
    Ok(())
}
