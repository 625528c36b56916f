//! The program `guix-auth`: it authenticates Git histories by the rules of GNU Guix channels.
//!
//! `running::run` is the top call, and its contract is the theorem of the program. `specs/Answers.antt` says what
//! is due to words; how a run ends with that stands in `run_answers`. `starting` says which words a run is given, and the
//! status that the program ends with. `main` makes the real children and streams, and calls them.
#![tactic(auto)]

mod help;
mod running;
mod starting;
#[cfg(test)]
mod tests;

use crate::running::run;
use crate::starting::{exit_code, words_given};
use child_ports::Sink;
use real_ports::{ChildGit, ChildSig, RealRoom, StdSink, program_named, store_root};
use state_store::SqlKeeper;
use std::io::writer;
use std::process::ExitCode;
use std::{env, io};

// Makes each real port, once, and runs the words. No clause says what the system is asked for, so it has to be believed of these
// lines, and of the calls that make the ports: the words are those of `env::args`, git and gpgv are the programs of their own
// variables, and records and gpgv's files stand under the root of the environment.
fn run_program<E: Sink>(rt: HostRuntime, err: &mut E) -> io::Result<u8> {
    let alloc = rt.alloc();
    let words = words_given(alloc, env::args(&rt))?;
    let git = program_named(&rt, "GUIX_AUTH_GIT", "git")?;
    let gpgv = program_named(&rt, "GUIX_AUTH_GPGV", "gpgv")?;
    let root = store_root(&rt)?;
    let records = format!(in alloc; "{root}/kept.sqlite")?;
    let out = rt.stdout();
    Ok(run(
        alloc,
        &words,
        &mut ChildGit::new(rt, git.as_str())?,
        &mut ChildSig::new(rt, gpgv.as_str(), root.as_str())?,
        &mut SqlKeeper::at(rt, alloc, records.as_str())?,
        &mut RealRoom::new(rt),
        &mut StdSink::new(writer(&out)),
        err,
    ))
}

// What is left to believe here: the program ends with the code of its run.
fn main(rt: HostRuntime) -> ExitCode {
    let to_err = rt.stderr();
    let mut err = StdSink::new(writer(&to_err));
    let ran = run_program(rt, &mut err);
    exit_code(&mut err, ran)
}
