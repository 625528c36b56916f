//! The words with which git and gpgv are called.
ghost use Rattle.std.specs.Prelude.{◌≡◌, ◌∷◌, ◌++◌, [], IfOk, None, Some};
ghost use Rattle.std.specs.Process.{command_program, command_args, command_dir, command_var, clears_env, SameEnv, SameDir, SameOtherVars, SameProgramAndArgs};
ghost use Rattle.real_ports.specs.Calls.{git_words, gpgv_words, SetsGitVars, SetsGpgvVars};

use std::alloc::{AllocError, Global};
use std::process::Command;

// The call with one more word.
fn with_word(mut call: Command, word: &str) -> Result<Command, AllocError>
    ensures words { IfOk result (λ now. command_args now ≡ command_args call ++ word.now ∷ []) }
    ensures program { IfOk result (λ now. command_program now ≡ command_program call) }
    ensures vars { IfOk result (λ now. SameEnv call now) }
    ensures folder { IfOk result (λ now. SameDir call now) }
{
    call.arg(word)?;
    Ok(call)
}

// The call with one more variable.
fn with_var(mut call: Command, name: &str, value: &str) -> Result<Command, AllocError>
    ensures set { IfOk result (λ now. command_var now name.now ≡ Some (Some value.now)) }
    ensures others { IfOk result (λ now. SameOtherVars call now name.now) }
    ensures words { IfOk result (λ now. SameProgramAndArgs call now) }
    ensures clears { IfOk result (λ now. clears_env now ≡ clears_env call) }
    ensures folder { IfOk result (λ now. SameDir call now) }
{
    call.env(name, value)?;
    Ok(call)
}

// A call without words, which speaks no other language.
fn plain_call(alloc: Global, program: &str) -> Result<Command, AllocError>
    ensures program { IfOk result (λ call. command_program call ≡ program.now) }
    ensures words { IfOk result (λ call. command_args call ≡ []) }
    ensures vars { IfOk result (λ call. SetsGpgvVars call) }
    ensures folder { IfOk result (λ call. command_dir call ≡ None) }
{
    let call = Command::new(alloc, program)?;
    with_var(call, "LC_ALL", "C")
}

/// Git as a program that answers names in a directory.
pub fn git_call(alloc: Global, program: &str, dir: &str) -> Result<Command, AllocError>
    ensures program { IfOk result (λ call. command_program call ≡ program.now) }
    ensures words { IfOk result (λ call. command_args call ≡ git_words dir.now) }
    ensures vars { IfOk result (λ call. SetsGitVars call) }
    ensures folder { IfOk result (λ call. command_dir call ≡ None) }
{
    let call = plain_call(alloc, program)?;
    let call = with_var(call, "GIT_NO_LAZY_FETCH", "1")?;
    let call = with_word(call, "-C")?;
    let call = with_word(call, dir)?;
    let call = with_word(call, "--no-replace-objects")?;
    let call = with_word(call, "cat-file")?;
    with_word(call, "--batch")
}

/// gpgv as a program that says what a signature on a payload is worth under a keyring, each a file.
pub fn gpgv_call(
    alloc: Global,
    program: &str,
    keyring: &str,
    signature: &str,
    payload: &str,
) -> Result<Command, AllocError>
    ensures program { IfOk result (λ call. command_program call ≡ program.now) }
    ensures words { IfOk result (λ call. command_args call ≡ gpgv_words keyring.now signature.now payload.now) }
    ensures vars { IfOk result (λ call. SetsGpgvVars call) }
    ensures folder { IfOk result (λ call. command_dir call ≡ None) }
{
    let call = plain_call(alloc, program)?;
    let call = with_word(call, "--status-fd")?;
    let call = with_word(call, "1")?;
    let call = with_word(call, "--keyring")?;
    let call = with_word(call, keyring)?;
    let call = with_word(call, signature)?;
    with_word(call, payload)
}
