//! The lines of lists and sets that aren't accepted.
ghost use Rattle.std.specs.Prelude.{◌≡◌, ◌⊎◌, nat_eq, IsTrue};
ghost use Rattle.auth_report.specs.declared.files.FileFail.TheVariants as file;
ghost use Rattle.auth_report.specs.FileTexts.{file_line};
ghost use Rattle.channel_deps.specs.Answers.{IsPlainFail};
ghost use Rattle.channels_run.specs.Answers.{set_status};
ghost use Rattle.channels_run.specs.Shown.{IsListStatus, ShowsList, ShowsSetRefusal};

use crate::listing::ListFail;
use channel_deps::SetFail;
use child_ports::Sink;
use run_answers::{
    GIT_FAILED, GPGV_FAILED, OUT_OF_MEMORY, STORE_FAILED, status_of, tell, tell_file,
};
use set_report::{list_refusal, set_refusal};
use std::alloc::Global;

/// Puts the line of a file that gives no channels on standard error, and gives its status. The line for a file that can't be
/// read is given, so that its status needs no memory.
pub fn tell_list<E: Sink>(
    alloc: Global,
    err: &mut E,
    path: &str,
    unread: &[u8],
    fail: &ListFail,
) -> u8
    requires line { unread.now ≡ file_line path.now file.Failed }
    ensures told { E.tells err.new ≡ E.tells err.old }
    ensures shown { IsTrue (E.tells err.old) → ShowsList path.now fail.now result (E.taken err.old) (E.taken err.new) (E.faults err.old) (E.faults err.new) }
    ensures status { IsListStatus fail.now result }
{
    match fail {
        ListFail::File(fail) => tell_file(alloc, err, path, unread, fail),
        ListFail::Malformed(fail) => match list_refusal(alloc, path, fail) {
            Ok(line) => tell(err, line.as_slice(), 3),
            Err(_) => tell(err, OUT_OF_MEMORY, 6),
        },
    }
}

// The status of a refusal.
fn own_status(fail: &SetFail) -> u8
    ensures { result ≡ set_status fail.now }
{
    match fail {
        SetFail::Channel { fail, .. } => status_of(fail),
        SetFail::Downgrade { .. }
        | SetFail::UnrelatedMove { .. }
        | SetFail::DeployedMissing { .. } => 1,
        SetFail::Metadata { .. } | SetFail::Record(_) | SetFail::TooManyChannels => 3,
        SetFail::GitFault | SetFail::SigFault => 4,
        SetFail::KeepFault => 5,
        SetFail::Memory => 6,
    }
}

/// Puts the line of a set that isn't accepted on standard error, and gives its status. A fault and want of memory take no
/// memory.
pub fn tell_set_refusal<E: Sink>(alloc: Global, err: &mut E, fail: &SetFail) -> u8
    requires plain { IsPlainFail fail.now }
    ensures told { E.tells err.new ≡ E.tells err.old }
    ensures shown { IsTrue (E.tells err.old) → ShowsSetRefusal fail.now result (E.taken err.old) (E.taken err.new) (E.faults err.old) (E.faults err.new) }
    ensures status { (result ≡ set_status fail.now) ⊎ (result ≡ 6) }
    ensures fault { nat_eq result 4 ≡ nat_eq (set_status fail.now) 4 }
    ensures keeper_fault { nat_eq result 5 ≡ nat_eq (set_status fail.now) 5 }
{
    match fail {
        SetFail::GitFault => tell(err, GIT_FAILED, 4),
        SetFail::SigFault => tell(err, GPGV_FAILED, 4),
        SetFail::KeepFault => tell(err, STORE_FAILED, 5),
        SetFail::Memory => tell(err, OUT_OF_MEMORY, 6),
        fail => match set_refusal(alloc, fail) {
            Ok(line) => tell(err, line.as_slice(), own_status(fail)),
            Err(_) => tell(err, OUT_OF_MEMORY, 6),
        },
    }
}
