//! The program `stand_in`: it plays git and gpgv over the history of a script, for tests on real files.
//!
//! As `stand_in -C DIR --no-replace-objects cat-file --batch` it answers names as git does, over the world that the script
//! `DIR/history.script` declares. As `stand_in --status-fd 1 --keyring KEYRING SIGNATURE PAYLOAD` it says as gpgv does what
//! the signature is worth. It ends with status 2 after other words, and with 1 where a file can't be read or the script is
//! at fault.
#![tactic(auto)]

mod as_git;
mod as_gpgv;

use crate::as_git::answer_names;
use crate::as_gpgv::tell_status;
use child_ports::{Text, Words};
use std::process::ExitCode;
use std::{env, io};

// The words after the program's name.
fn words_of(rt: &HostRuntime) -> io::Result<Words> {
    let mut words = Words::new(rt.alloc());
    for arg in env::args(rt)?.skip(1) {
        let mut word = Text::new(rt.alloc());
        word.push(arg.as_str())?;
        words.push(word)?;
    }
    Ok(words)
}

// The word at this place, or nothing.
fn word_at(words: &Words, place: usize) -> &str {
    match words.get(place) {
        Some(word) => word.as_str(),
        None => "",
    }
}

// Plays the part that the first word names.
fn run_words(rt: HostRuntime, words: &Words) -> io::Result<u8> {
    let part = word_at(words, 0);
    if part == "-C" {
        answer_names(rt, word_at(words, 1))?;
        Ok(0)
    } else if part == "--status-fd" {
        tell_status(rt, word_at(words, 3), word_at(words, 4), word_at(words, 5))?;
        Ok(0)
    } else {
        Ok(2)
    }
}

fn main(rt: HostRuntime) -> ExitCode {
    let status = match words_of(&rt) {
        Ok(words) => run_words(rt, &words),
        Err(e) => Err(e),
    };
    match status {
        Ok(status) => ExitCode::from(status),
        Err(_) => ExitCode::from(1),
    }
}
