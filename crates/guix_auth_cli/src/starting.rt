//! What a run is given by the system, and how the program ends.
ghost use Rattle.std.specs.Prelude.{◌≡◌, IfErr, IfOk, IsOk, IsTrue};
ghost use Rattle.std.specs.Process.{exit_status};
ghost use Rattle.std.specs.IoError.{error_kind};
ghost use Rattle.run_answers.specs.Shown.{IsPut};
ghost use Rattle.guix_auth_cli.specs.Starting.{AreGiven, is_want, line_of_failure, status_of, words_of};

use child_ports::{Sink, Text, Words};
use run_answers::{OUT_OF_MEMORY, tell};
use std::alloc::{AllocError, Global};
use std::env::Args;
use std::io;
use std::io::ErrorKind;
use std::process::ExitCode;

const ENVIRONMENT: &[u8] = b"guix-auth: the environment cannot be read\n";

// The program's arguments without the first, which is its name.
fn words_after_first(alloc: Global, args: Args) -> Result<Words, AllocError>
    ensures { IfOk result (λ words. words ≡ words_of args) }
{
    let mut args = args;
    let _name = args.next();
    let mut words = Words::new(alloc);
    for arg in args {
        let mut word = Text::new(alloc);
        word.push(arg.as_str())?;
        words.push(word)?;
    }
    Ok(words)
}

/// The words of the program's arguments. One that isn't UTF-8 makes them words that state no command: none.
pub fn words_given(alloc: Global, args: io::Result<Args>) -> io::Result<Words>
    ensures { AreGiven args result }
{
    match args {
        Ok(args) => Ok(words_after_first(alloc, args)?),
        Err(e) if e.kind() == ErrorKind::InvalidData => Ok(Words::new(alloc)),
        Err(e) => Err(e),
    }
}

fn is_want_of_memory(e: &io::Error) -> bool
    ensures { result ≡ is_want (error_kind e.now) }
{
    matches!(e.kind(), ErrorKind::OutOfMemory)
}

// The status that the program ends with, told by a line where no run could begin.
fn status_told<E: Sink>(err: &mut E, ran: io::Result<u8>) -> u8
    ensures status { result ≡ status_of ran }
    ensures quiet { IsOk ran → err.new ≡ err.old }
    ensures line { IsTrue (E.tells err.old) → IfErr ran (λ e. IsPut (E.taken err.old) (E.taken err.new) (line_of_failure e) (E.faults err.old) (E.faults err.new)) }
{
    match ran {
        Ok(status) => status,
        Err(e) if is_want_of_memory(&e) => tell(err, OUT_OF_MEMORY, 6),
        Err(_) => tell(err, ENVIRONMENT, 3),
    }
}

/// How the program ends: with the status of its run, or with a line that says why there was none.
pub fn exit_code<E: Sink>(err: &mut E, ran: io::Result<u8>) -> ExitCode
    ensures status { exit_status result ≡ status_of ran }
    ensures quiet { IsOk ran → err.new ≡ err.old }
    ensures line { IsTrue (E.tells err.old) → IfErr ran (λ e. IsPut (E.taken err.old) (E.taken err.new) (line_of_failure e) (E.faults err.old) (E.faults err.new)) }
{
    ExitCode::from(status_told(err, ran))
}
