//! The command that words state.
ghost use Rattle.std.specs.Prelude.{◌≡◌, ◌++◌, Some, IfOk, IfSome, OnOk, drop, map, option_and_then, unwrap_or};
ghost use Rattle.std.specs.List.{All};
ghost use Rattle.std.specs.Str.{IsUtf8};
ghost use Rattle.clap.specs.Words.{found_of, rows_of};
ghost use Rattle.auth_words.specs.Arguments.{Between, arguments_from};
ghost use Rattle.auth_words.specs.Grammars.{authenticate};
ghost use Rattle.hex.specs.Hex.{encode_lower};
ghost use Rattle.auth_words.specs.GivenInside.{options_seen, value_seen, IsPlanOf};
ghost use Rattle.auth_words.specs.Words as rule;
ghost use Rattle.auth_words.specs.Words.{are_fit, default_key, plan_from, authenticate_in, plan_in, help_by, command_in, command_of, HasFittingPlan};

use crate::app;
use crate::channels::read_channels;
use crate::given::{Options, matches_in, options_in};
use crate::limits::{are_words, fits_cache_key, fits_path, fits_reference};
use crate::plan::{Command, Plan};
use crate::texts::{copied, texts_of};
use child_ports::{Fingerprint, Text, Words};
use clap::ArgMatches;
use object_frames::Id;
use std::alloc::{AllocError, Global};
use std::str;

const MAX_WORDS: usize = 64;

// A copy of a value that is given, or of what stands in its place.
fn copied_or(alloc: Global, value: Option<&str>, other: &str) -> Result<Text, AllocError>
    ensures { IfOk result (λ copy. copy ≡ unwrap_or (value_seen value.entry) other.now) }
{
    match value {
        Some(value) => copied(alloc, value),
        None => copied(alloc, other),
    }
}

// A copy of a value, if there is one.
fn copied_if(alloc: Global, value: Option<&str>) -> Result<Option<Text>, AllocError>
    ensures { IfOk result (λ copy. copy ≡ value_seen value.entry) }
{
    match value {
        Some(value) => Ok(Some(copied(alloc, value)?)),
        None => Ok(None),
    }
}

// Adds an id in lower case.
fn push_id(text: &mut Text, id: Id) -> Result<(), AllocError>
    ensures { OnOk result (text.new ≡ text.old ++ encode_lower id) }
{
    let mut digits = [0u8; 40];
    id.write_hex(&mut digits);
    match str::from_utf8(&digits) {
        Ok(digits) => text.push(digits),
        // Never: digits are ASCII.
        Err(_) => Ok(()),
    }
}

// The key of an introduction.
fn default_key(alloc: Global, intro: Id) -> Result<Text, AllocError>
    ensures { IfOk result (λ key. key ≡ default_key intro) }
{
    let mut key = copied(alloc, "git-")?;
    push_id(&mut key, intro)?;
    Ok(key)
}

// The key that is given, or the introduction's.
fn cache_key(alloc: Global, key: Option<&str>, intro: Id) -> Result<Text, AllocError>
    ensures { IfOk result (λ copy. copy ≡ unwrap_or (value_seen key.entry) (default_key intro)) }
{
    match key {
        Some(key) => copied(alloc, key),
        None => default_key(alloc, intro),
    }
}

// Whether each value that is given has its form.
fn are_fit(options: &Options) -> bool
    ensures { result ≡ are_fit (options_seen options.now) }
{
    fits_path(options.repository)
        && fits_reference(options.keyring)
        && fits_reference(options.end)
        && fits_cache_key(options.cache_key)
        && fits_path(options.historical)
}

// The plan of these options, and what stands where one isn't given.
fn plan_from(
    alloc: Global,
    intro: Id,
    signer: Fingerprint,
    options: &Options,
) -> Result<Plan, AllocError>
    ensures { IfOk result (λ plan. plan_from (Some intro) (Some signer) (options_seen options.now) ≡ Some plan) }
{
    Ok(Plan {
        intro,
        signer,
        repository: copied_or(alloc, options.repository, ".")?,
        keyring: copied_or(alloc, options.keyring, "keyring")?,
        end: copied_or(alloc, options.end, "HEAD")?,
        stats: options.stats,
        cache_key: cache_key(alloc, options.cache_key, intro)?,
        historical: copied_if(alloc, options.historical)?,
    })
}

// The plan of two positional words and of options that are fit.
fn plan_of(
    alloc: Global,
    commit: &str,
    signer: &str,
    options: &Options,
) -> Result<Option<Plan>, AllocError>
    ensures { IfOk result (λ plan. plan ≡ rule.plan_of_two commit.now signer.now (options_seen options.now)) }
{
    if !are_fit(options) {
        return Ok(None);
    }
    let Some(intro) = Id::of_hex(commit.as_bytes()) else {
        return Ok(None);
    };
    let Some(signer) = Fingerprint::of_text(signer) else {
        return Ok(None);
    };
    Ok(Some(plan_from(alloc, intro, signer, options)?))
}

// The plan of matches.
fn plan_of_matches(alloc: Global, matches: &ArgMatches) -> Result<Option<Plan>, AllocError>
    ensures { IfOk result (IsPlanOf (rows_of (found_of matches.now))) }
{
    match matches.get_str("commit") {
        Some(commit) => match matches.get_str("signer") {
            Some(signer) => plan_of(alloc, commit, signer, &options_in(matches)),
            None => Ok(None),
        },
        None => Ok(None),
    }
}

// The plan of a command's words.
fn plan_of_texts(alloc: Global, texts: &[&str]) -> Result<Option<Plan>, AllocError>
    requires { All IsUtf8 (map (λ s. s.now) texts.now) }
    ensures { IfOk result (λ plan. plan ≡ option_and_then plan_in (arguments_from authenticate Between (drop 1 (map (λ s. s.now) texts.now)))) }
{
    match matches_in(app::authenticate(alloc)?, texts)? {
        Some(matches) => plan_of_matches(alloc, &matches),
        None => Ok(None),
    }
}

// The command `authenticate` with the plan of its words.
fn read_authenticate(alloc: Global, words: &[Text]) -> Result<Option<Command>, AllocError>
    ensures { IfOk result (λ command. command ≡ authenticate_in (drop 1 words.now)) }
{
    let texts = texts_of(alloc, words)?;
    match plan_of_texts(alloc, texts.as_slice())? {
        Some(plan) => Ok(Some(Command::Authenticate(plan))),
        None => Ok(None),
    }
}

// The help, unless more words follow.
fn read_help(more: &[Text]) -> Option<Command>
    ensures { result ≡ help_by more.now }
{
    if more.is_empty() {
        Some(Command::Help)
    } else {
        None
    }
}

// The command of words that are no more, and no longer, than they may be.
fn read_command(alloc: Global, words: &[Text]) -> Result<Option<Command>, AllocError>
    ensures { IfOk result (λ command. command ≡ command_in words.now) }
{
    let Some((command, more)) = words.split_first() else {
        return Ok(None);
    };
    if command.as_str() == "--help" {
        return Ok(read_help(more));
    }
    if command.as_str() == "authenticate" {
        return read_authenticate(alloc, words);
    }
    if command.as_str() == "channels" {
        return read_channels(alloc, words);
    }
    Ok(None)
}

/// The command that the words state, or None.
pub fn read_words(alloc: Global, words: &Words) -> Result<Option<Command>, AllocError>
    ensures exact { IfOk result (λ command. command ≡ command_of words.now) }
    ensures fitting { IfOk result (λ command. IfSome command HasFittingPlan) }
{
    if words.len() > MAX_WORDS || !are_words(words.as_slice()) {
        return Ok(None);
    }
    read_command(alloc, words.as_slice())
}
