//! What words give.
ghost use Rattle.std.specs.Prelude.{◌≡◌, ◌≢◌, None, map, true, IfOk};
ghost use Rattle.clap.specs.Words.{app_of, found_of, is_simple_and_free, kind_of, rows_of};
ghost use Rattle.auth_words.specs.GivenInside.{Gives, Takes, options_seen};

use clap::error::ErrorKind;
use clap::{ArgMatches, Command, Error};
use std::alloc::AllocError;

/// The values of options, and whether `--stats` stands.
#[derive(Clone, Copy, Debug)]
pub struct Options<'a> {
    pub repository: Option<&'a str>,
    pub keyring: Option<&'a str>,
    pub end: Option<&'a str>,
    pub cache_key: Option<&'a str>,
    pub historical: Option<&'a str>,
    pub stats: bool,
}

/// The options of matches.
pub fn options_in<'a>(matches: &ArgMatches<'a>) -> Options<'a>
    ensures { Gives (rows_of (found_of matches.now)) (options_seen result) }
{
    Options {
        repository: matches.get_str("repository"),
        keyring: matches.get_str("keyring"),
        end: matches.get_str("end"),
        cache_key: matches.get_str("cache-key"),
        historical: matches.get_str("historical-authorizations"),
        stats: matches.get_flag("stats"),
    }
}

// No matches, unless memory was wanting.
fn refused<'a>(error: &Error) -> Result<Option<ArgMatches<'a>>, AllocError>
    ensures { IfOk result (λ matches. (matches ≡ None) × (kind_of error.now ≢ ErrorKind.OutOfMemory)) }
{
    match error.kind() {
        ErrorKind::OutOfMemory => Err(AllocError),
        _ => Ok(None),
    }
}

/// The matches of a command's words, or None where clap refuses them.
pub fn matches_in<'a>(
    command: Command<'a>,
    words: &'a [&'a str],
) -> Result<Option<ArgMatches<'a>>, AllocError>
    requires { is_simple_and_free (app_of command) ≡ true }
    ensures { IfOk result (Takes (app_of command.entry) (map (λ s. s.now) words.entry.now)) }
{
    match command.try_get_matches_from(words) {
        Ok(matches) => Ok(Some(matches)),
        Err(error) => refused(&error),
    }
}
