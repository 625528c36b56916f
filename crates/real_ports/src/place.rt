//! Where programs and records stand, by the environment.
ghost use Rattle.std.specs.Prelude.{◌≡◌, IfOk, MatchResult, string_bytes};
ghost use Rattle.real_ports.specs.Place.{IsSetting, TellsUnread, set_or, root_in, root_of_home};

use std::alloc::{AllocError, Global};
use std::env::VarError;
use std::io::ErrorKind;
use std::rt::Env;
use std::{env, io};

// What a variable is set to, by the system's answer. One that isn't UTF-8 is an error, and never another program or
// folder in its place.
fn setting(answer: Result<String, VarError>) -> io::Result<Option<String>>
    ensures { MatchResult answer (λ text. IsSetting text result) (λ error. TellsUnread error result) }
{
    match answer {
        Ok(text) if text.is_empty() => Ok(None),
        Ok(text) => Ok(Some(text)),
        Err(VarError::NotPresent) => Ok(None),
        Err(VarError::NotUnicode) => Err(io::Error::from(ErrorKind::InvalidData)),
        Err(VarError::OutOfMemory) => Err(io::Error::from(ErrorKind::OutOfMemory)),
    }
}

// A variable of the environment that is set and isn't empty.
fn variable<R: Env + AllocGlobal>(rt: &R, name: &str) -> io::Result<Option<String>> {
    setting(env::var(rt, name))
}

// The text that is set, or the usual one.
fn set_or(alloc: Global, set: Option<String>, usual: &str) -> Result<String, AllocError>
    ensures { IfOk result (λ text. string_bytes text ≡ set_or set usual.now) }
{
    match set {
        Some(text) => Ok(text),
        None => String::from_str(alloc, usual),
    }
}

// The folder of the records in the user's cache.
fn root_in(alloc: Global, cache: &str) -> Result<String, AllocError>
    ensures { IfOk result (λ root. string_bytes root ≡ root_in cache.now) }
{
    format!(in alloc; "{cache}/guix/authentication")
}

// The same by the home folder.
fn root_of_home(alloc: Global, home: Option<String>) -> Result<String, AllocError>
    ensures { IfOk result (λ root. string_bytes root ≡ root_of_home home) }
{
    match home {
        Some(home) => format!(in alloc; "{home}/.cache/guix/authentication"),
        None => String::from_str(alloc, ".cache/guix/authentication"),
    }
}

/// The program that a variable names, or the usual one.
pub fn program_named<R: Env + AllocGlobal>(rt: &R, name: &str, usual: &str) -> io::Result<String> {
    let set = variable(rt, name)?;
    Ok(set_or(rt.alloc(), set, usual)?)
}

/// The folder of the records and of gpgv's files: `guix/authentication` in the user's cache (XDG Base Directory
/// Specification).
pub fn store_root<R: Env + AllocGlobal>(rt: &R) -> io::Result<String> {
    if let Some(cache) = variable(rt, "XDG_CACHE_HOME")? {
        return Ok(root_in(rt.alloc(), cache.as_str())?);
    }
    let home = variable(rt, "HOME")?;
    Ok(root_of_home(rt.alloc(), home)?)
}
