//! What gpgv is asked, and its answer.
ghost use Rattle.std.specs.Prelude.{◌≡◌, ◌≤◌, length, IfOk, IfSome, IsNone, IsSomeAnd, IsErrAnd};
ghost use Rattle.std.specs.IoError.{error_kind};
ghost use Rattle.std.specs.Path.{path_buf_bytes};
ghost use Rattle.std.specs.Process.{command_program, command_args};
ghost use Rattle.real_ports.specs.Calls.{gpgv_words, SetsGpgvVars};
ghost use Rattle.real_ports.specs.Heard.{IsOutput};

use crate::calls::gpgv_call;
use crate::gpgv_files::{Question, put_question};
use crate::running_child::RunningChild;
use std::alloc::{AllocError, Global};
use std::io;
use std::io::{ErrorKind, Read};
use std::process::{Command, Processes, Stdio};
use std::rt::{Env, Files};

/// The most bytes of status output that are taken. More are a fault.
const MOST: u64 = 65_536;

// The call that asks a question.
fn call_of<F: Drop>(
    alloc: Global,
    program: &str,
    asked: &Question<F>,
) -> Result<Command, AllocError>
    ensures program { IfOk result (λ call. command_program call ≡ program.now) }
    ensures words { IfOk result (λ call. command_args call ≡ gpgv_words (path_buf_bytes asked.now.keyring) (path_buf_bytes asked.now.signature.path) (path_buf_bytes asked.now.payload.path)) }
    ensures vars { IfOk result (λ call. SetsGpgvVars call) }
{
    gpgv_call(
        alloc,
        program,
        asked.keyring.as_str(),
        asked.signature.path(),
        asked.payload.path(),
    )
}

// All that a child puts out. More than is taken is an error, and no front of it an answer.
fn whole_output<O: Read + Drop>(alloc: Global, output: O) -> io::Result<Vec<u8>>
    ensures whole { IfOk result (λ answer. IfSome (O.remaining output) (λ bytes. answer.items ≡ bytes)) }
    ensures limit { IfOk result (λ answer. length answer.items ≤ 65536) }
{
    let mut answer = Vec::new(alloc);
    output.take(MOST + 1).read_to_end(&mut answer)?;
    if answer.len() as u64 > MOST {
        return Err(io::Error::from(ErrorKind::FileTooLarge));
    }
    Ok(answer)
}

// The answer that comes through a child's output. Without one there is no answer, not an empty one.
fn answer_of<O: Read + Drop>(alloc: Global, output: Option<O>) -> io::Result<Vec<u8>>
    ensures unheard { IsNone output → IsErrAnd result (λ e. error_kind e ≡ ErrorKind.BrokenPipe) }
    ensures whole { IfOk result (λ answer. IsSomeAnd output (λ pipe. IfSome (O.remaining pipe) (λ bytes. answer.items ≡ bytes))) }
    ensures limit { IfOk result (λ answer. length answer.items ≤ 65536) }
{
    match output {
        Some(output) => whole_output(alloc, output),
        None => Err(io::Error::from(ErrorKind::BrokenPipe)),
    }
}

/// Asks gpgv what a signature on a payload is worth, and gives its status output.
pub fn ask_gpgv<R: Processes + Files + Env + AllocGlobal>(
    rt: &R,
    program: &str,
    work: &str,
    signature: &[u8],
    payload: &[u8],
) -> io::Result<Vec<u8>>
    ensures heard { IfOk result (λ answer. IsOutput R.Started.Stdout.remaining answer.items) }
    ensures limit { IfOk result (λ answer. length answer.items ≤ 65536) }
{
    let asked = put_question(rt, work, signature, payload)?;
    let child = call_of(rt.alloc(), program, &asked)?
        .stdin(Stdio::null())
        .stdout(Stdio::piped())
        .stderr(Stdio::null())
        .spawn(rt)?;
    let mut running = RunningChild { child };
    answer_of(rt.alloc(), running.child.stdout.take())
}
