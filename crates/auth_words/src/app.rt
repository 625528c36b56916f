//! The commands, for clap.
ghost use Rattle.std.specs.Prelude.{◌≡◌, false, IfOk};
ghost use Rattle.clap.specs.Words.{app_of, rule_of};
ghost use Rattle.auth_words.specs.App.{auth_app, bare_app, channels_app, clones_rule, flag_rule, keyring_rule, option_rule, options_app, repository_rule, word_rule};

use clap::{Arg, ArgAction, Command};
use std::alloc::{AllocError, Global};

// An option with a value.
fn option<'a>(alloc: Global, name: &'a str) -> Arg<'a>
    ensures rule { rule_of result ≡ option_rule name.now }
    ensures local { result.global ≡ false }
{
    Arg::new(alloc, name).long(name)
}

fn flag<'a>(alloc: Global, name: &'a str) -> Arg<'a>
    ensures rule { rule_of result ≡ flag_rule name.now }
    ensures local { result.global ≡ false }
{
    Arg::new(alloc, name).long(name).action(ArgAction::SetTrue)
}

// A positional word.
fn word<'a>(alloc: Global, name: &'a str) -> Arg<'a>
    ensures rule { rule_of result ≡ word_rule name.now }
    ensures local { result.global ≡ false }
{
    Arg::new(alloc, name).required(true)
}

fn repository<'a>(alloc: Global) -> Arg<'a>
    ensures rule { rule_of result ≡ repository_rule }
    ensures local { result.global ≡ false }
{
    option(alloc, "repository").short('r')
}

fn keyring<'a>(alloc: Global) -> Arg<'a>
    ensures rule { rule_of result ≡ keyring_rule }
    ensures local { result.global ≡ false }
{
    option(alloc, "keyring").short('k')
}

fn clones<'a>(alloc: Global) -> Arg<'a>
    ensures rule { rule_of result ≡ clones_rule }
    ensures local { result.global ≡ false }
{
    option(alloc, "clones").required(true)
}

// A command without its arguments. Help is asked for elsewhere, a name counts in full, and an option stands once.
fn bare<'a>(alloc: Global, name: &'a str) -> Command<'a>
    ensures { app_of result ≡ bare_app name.now }
{
    Command::new(alloc, name)
        .disable_help_flag(true)
        .infer_long_args(false)
        .args_override_self(false)
}

// The command `authenticate` without its positional words.
fn options<'a>(alloc: Global) -> Result<Command<'a>, AllocError>
    ensures { IfOk result (λ c. app_of c ≡ options_app) }
{
    let c1 = bare(alloc, "authenticate").arg(repository(alloc))?;
    let c2 = c1.arg(keyring(alloc))?;
    let c3 = c2.arg(option(alloc, "end"))?;
    let c4 = c3.arg(option(alloc, "cache-key"))?;
    let c5 = c4.arg(option(alloc, "historical-authorizations"))?;
    c5.arg(flag(alloc, "stats"))
}

/// The command `authenticate`.
pub fn authenticate<'a>(alloc: Global) -> Result<Command<'a>, AllocError>
    ensures { IfOk result (λ c. app_of c ≡ auth_app) }
{
    let c6 = options(alloc)?;
    let c7 = c6.arg(word(alloc, "commit"))?;
    c7.arg(word(alloc, "signer"))
}

/// The command `channels`.
pub fn channels<'a>(alloc: Global) -> Result<Command<'a>, AllocError>
    ensures { IfOk result (λ c. app_of c ≡ channels_app) }
{
    let c1 = bare(alloc, "channels").arg(clones(alloc))?;
    let c2 = c1.arg(flag(alloc, "allow-downgrades"))?;
    let c3 = c2.arg(flag(alloc, "disable-authentication"))?;
    c3.arg(word(alloc, "file"))
}
