//! Texts put into sinks.
ghost use Rattle.std.specs.Prelude.{◌≡◌, ◌≢◌, ◌⊎◌, [], nat_eq, IsTrue};
ghost use Rattle.child_ports.specs.Causes.{Rose, RoseWhen};
ghost use Rattle.auth_report.specs.FileTexts.{file_line};
ghost use Rattle.run_answers.specs.Answers.{status_of};
ghost use Rattle.run_answers.specs.Shown.{ShowsRefusal, ShowsRead, ShowsFile, IsFileStatus, IsPut, IsStatus};

use auth_engine::EngineFail;
use auth_report::{FileFail, file_refusal, refusal};
use child_ports::Sink;
use std::alloc::Global;

/// The line for a failed call of git.
pub const GIT_FAILED: &[u8] = b"guix-auth: git failed\n";

/// The line for a failed call of gpgv.
pub const GPGV_FAILED: &[u8] = b"guix-auth: gpgv failed\n";

/// The line for a failed call of the keeper.
pub const STORE_FAILED: &[u8] = b"guix-auth: the store failed\n";

/// The line for want of memory.
pub const OUT_OF_MEMORY: &[u8] = b"guix-auth: out of memory\n";

/// Puts a line on standard error, and gives the status. Where the line can't be put the status stays.
pub fn tell<E: Sink>(err: &mut E, line: &[u8], status: u8) -> u8
    ensures status { result ≡ status }
    ensures told { E.tells err.new ≡ E.tells err.old }
    ensures put { IsTrue (E.tells err.old) → IsPut (E.taken err.old) (E.taken err.new) line.now (E.faults err.old) (E.faults err.new) }
{
    match err.put(line) {
        Ok(()) | Err(_) => status,
    }
}

/// Prints a text, if there is something in it.
pub fn print<O: Sink>(out: &mut O, text: &[u8]) -> u8
    ensures status { RoseWhen (nat_eq result 5) (O.faults out.old) (O.faults out.new) }
    ensures some { IsTrue (nat_eq result 5) → text.now ≢ [] }
    ensures answer { IsStatus (Rose (O.faults out.old) (O.faults out.new)) 0 result }
    ensures told { O.tells out.new ≡ O.tells out.old }
    ensures put { IsTrue (O.tells out.old) → IsPut (O.taken out.old) (O.taken out.new) text.now (O.faults out.old) (O.faults out.new) }
{
    if text.is_empty() {
        return 0;
    }
    match out.put(text) {
        Ok(()) => 0,
        Err(_) => 5,
    }
}

/// The status of a refusal.
pub fn status_of(fail: &EngineFail) -> u8
    ensures { result ≡ status_of fail.now }
{
    match fail {
        EngineFail::Intro { .. } | EngineFail::Unrelated { .. } | EngineFail::Commit { .. } => 1,
        EngineFail::Name { .. }
        | EngineFail::Keyring(_)
        | EngineFail::Cache(_)
        | EngineFail::TooMany
        | EngineFail::Object { .. }
        | EngineFail::Cycle(_) => 3,
        EngineFail::GitFault | EngineFail::SigFault => 4,
        EngineFail::KeepFault => 5,
        EngineFail::Memory => 6,
    }
}

/// Puts the line of a refusal on standard error, and gives its status. A fault and want of memory take no memory.
pub fn tell_refusal<E: Sink>(alloc: Global, err: &mut E, fail: &EngineFail) -> u8
    ensures told { E.tells err.new ≡ E.tells err.old }
    ensures shown { IsTrue (E.tells err.old) → ShowsRefusal fail.now result (E.taken err.old) (E.taken err.new) (E.faults err.old) (E.faults err.new) }
    ensures status { (result ≡ status_of fail.now) ⊎ (result ≡ 6) }
    ensures fault { nat_eq result 4 ≡ nat_eq (status_of fail.now) 4 }
    ensures keeper_fault { nat_eq result 5 ≡ nat_eq (status_of fail.now) 5 }
{
    match fail {
        EngineFail::GitFault => tell(err, GIT_FAILED, 4),
        EngineFail::SigFault => tell(err, GPGV_FAILED, 4),
        EngineFail::KeepFault => tell(err, STORE_FAILED, 5),
        EngineFail::Memory => tell(err, OUT_OF_MEMORY, 6),
        fail => match refusal(alloc, fail) {
            Ok(line) => tell(err, line.as_slice(), status_of(fail)),
            Err(_) => tell(err, OUT_OF_MEMORY, 6),
        },
    }
}

// Puts the line of a file that was read and gives no keys on standard error.
fn tell_read<E: Sink>(alloc: Global, err: &mut E, path: &str, fail: &FileFail) -> u8
    ensures told { E.tells err.new ≡ E.tells err.old }
    ensures shown { IsTrue (E.tells err.old) → ShowsRead path.now fail.now result (E.taken err.old) (E.taken err.new) (E.faults err.old) (E.faults err.new) }
    ensures status { (result ≡ 3) ⊎ (result ≡ 6) }
{
    match file_refusal(alloc, path, fail) {
        Ok(line) => tell(err, line.as_slice(), 3),
        Err(_) => tell(err, OUT_OF_MEMORY, 6),
    }
}

/// Puts the line of a file that gives no keys on standard error, and gives its status. The line for a file that can't be
/// read is given, so that its status needs no memory.
pub fn tell_file<E: Sink>(
    alloc: Global,
    err: &mut E,
    path: &str,
    unread: &[u8],
    fail: &FileFail,
) -> u8
    requires line { unread.now ≡ file_line path.now FileFail.Failed }
    ensures told { E.tells err.new ≡ E.tells err.old }
    ensures shown { IsTrue (E.tells err.old) → ShowsFile path.now fail.now result (E.taken err.old) (E.taken err.new) (E.faults err.old) (E.faults err.new) }
    ensures status { IsFileStatus fail.now result }
{
    match fail {
        FileFail::Failed => tell(err, unread, 5),
        FileFail::Memory => tell(err, OUT_OF_MEMORY, 6),
        fail => tell_read(alloc, err, path, fail),
    }
}
