//! The command `channels` that words state.
ghost use Rattle.std.specs.Prelude.{◌≡◌, IfOk, drop, map, option_and_then};
ghost use Rattle.std.specs.List.{All};
ghost use Rattle.std.specs.Str.{IsUtf8};
ghost use Rattle.clap.specs.Words.{found_of, rows_of};
ghost use Rattle.auth_words.specs.Arguments.{Between, arguments_from};
ghost use Rattle.auth_words.specs.Grammars.{channels};
ghost use Rattle.auth_words.specs.GivenInside.{IsChannelsPlanOf};
ghost use Rattle.auth_words.specs.Words.{channels_from, channels_plan_in, channels_in};

use crate::app;
use crate::given::matches_in;
use crate::plan::{ChannelsPlan, Command};
use crate::texts::{copied, texts_of};
use child_ports::Text;
use clap::ArgMatches;
use name_limits::is_path;
use std::alloc::{AllocError, Global};

// The plan of FILE, of the folder of clones and of both flags.
fn channels_from(
    alloc: Global,
    file: &str,
    clones: &str,
    allow_downgrades: bool,
    unchecked: bool,
) -> Result<Option<ChannelsPlan>, AllocError>
    ensures { IfOk result (λ plan. plan ≡ channels_from file.now clones.now allow_downgrades unchecked) }
{
    if !is_path(file) || !is_path(clones) {
        return Ok(None);
    }
    Ok(Some(ChannelsPlan {
        file: copied(alloc, file)?,
        clones: copied(alloc, clones)?,
        allow_downgrades,
        check: !unchecked,
    }))
}

// The plan of matches.
fn plan_of_matches(alloc: Global, matches: &ArgMatches) -> Result<Option<ChannelsPlan>, AllocError>
    ensures { IfOk result (IsChannelsPlanOf (rows_of (found_of matches.now))) }
{
    let allow_downgrades = matches.get_flag("allow-downgrades");
    let unchecked = matches.get_flag("disable-authentication");
    match matches.get_str("file") {
        Some(file) => match matches.get_str("clones") {
            Some(clones) => channels_from(alloc, file, clones, allow_downgrades, unchecked),
            None => Ok(None),
        },
        None => Ok(None),
    }
}

// The plan of a command's words.
fn plan_of_texts(alloc: Global, texts: &[&str]) -> Result<Option<ChannelsPlan>, AllocError>
    requires { All IsUtf8 (map (λ s. s.now) texts.now) }
    ensures { IfOk result (λ plan. plan ≡ option_and_then channels_plan_in (arguments_from channels Between (drop 1 (map (λ s. s.now) texts.now)))) }
{
    match matches_in(app::channels(alloc)?, texts)? {
        Some(matches) => plan_of_matches(alloc, &matches),
        None => Ok(None),
    }
}

/// The command `channels` with the plan of its words.
pub fn read_channels(alloc: Global, words: &[Text]) -> Result<Option<Command>, AllocError>
    ensures { IfOk result (λ command. command ≡ channels_in (drop 1 words.now)) }
{
    let texts = texts_of(alloc, words)?;
    match plan_of_texts(alloc, texts.as_slice())? {
        Some(plan) => Ok(Some(Command::Channels(plan))),
        None => Ok(None),
    }
}
