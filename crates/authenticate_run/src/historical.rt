//! The historical keys of a file that words name.
ghost use Rattle.std.specs.Prelude.{◌≡◌, ◌≢◌, ◌⊎◌, Ok, Err, IsOk, IsTrue, IfOk, IfErr};
ghost use Rattle.child_ports.specs.Causes.{RoseWhen};
ghost use Rattle.auth_report.specs.declared.files.FileFail.TheVariants as file;
ghost use Rattle.auth_report.specs.FileTexts.{file_line};
ghost use Rattle.run_answers.specs.Ended.{TellsNone, sunk};
ghost use Rattle.authenticate_run.specs.Historical.{keys_in, keys_at, GivesKeys, is_failed};
ghost use Rattle.authenticate_run.specs.Outside.{historical_of};
ghost use Rattle.authenticate_run.specs.Run.{TellsNoKeys, is_unread_status};

use auth_report::{FileFail, file_refusal};
use auth_words::Plan;
use authorizations::{AuthFail, KeySet, read_authorizations};
use child_ports::{FileRoom, PortFail, Sink};
use run_answers::{OUT_OF_MEMORY, tell, tell_file};
use std::alloc::Global;

// The keys of a file's bytes.
fn keys_in(alloc: Global, bytes: &[u8]) -> Result<KeySet, FileFail>
    ensures keys { GivesKeys result (keys_in bytes.now) }
    ensures no_fault { result ≢ Err file.Failed }
{
    if bytes.len() > 1_048_576 {
        return Err(FileFail::TooLong);
    }
    match read_authorizations(alloc, bytes) {
        Ok(keys) => Ok(keys),
        Err(AuthFail::Memory) => Err(FileFail::Memory),
        Err(fail) => Err(FileFail::Malformed(fail)),
    }
}

/// The keys of the file at a path. `Failed` exactly where the call of the room failed.
pub fn read_historical<R: FileRoom>(
    alloc: Global,
    room: &mut R,
    path: &str,
) -> Result<KeySet, FileFail>
    ensures keys { IsTrue (R.tells room.old) → GivesKeys result (keys_at (R.files room.old) path.now) }
    ensures fault { RoseWhen (is_failed result) (R.faults room.old) (R.faults room.new) }
    ensures told { R.tells room.new ≡ R.tells room.old }
    ensures files { R.files room.new ≡ R.files room.old }
{
    match room.read(alloc, path) {
        Ok(Some(bytes)) => keys_in(alloc, bytes.as_slice()),
        Ok(None) => Err(FileFail::Missing),
        Err(PortFail::Failed) => Err(FileFail::Failed),
        Err(PortFail::Memory) => Err(FileFail::Memory),
    }
}

// Tells that a file gives no keys. The line for one that can't be read is made before the room is called, so that its failure
// is always told with its own status.
fn read_named<R: FileRoom, E: Sink>(
    alloc: Global,
    path: &str,
    room: &mut R,
    err: &mut E,
) -> Result<KeySet, u8>
    ensures keys { IfOk result (λ keys. IsTrue (R.tells room.old) → keys_at (R.files room.old) path.now ≡ Ok keys) }
    ensures shown { IfErr result (λ status. IsTrue (R.tells room.old) → IsTrue (E.tells err.old) →
        TellsNone (keys_at (R.files room.old) path.now) (file_line path.now) (file_line path.now file.Failed) status (sunk (E.taken err.old) (E.faults err.old)) (sunk (E.taken err.new) (E.faults err.new)) (R.faults room.old) (R.faults room.new)) }
    ensures room_fault { RoseWhen (is_unread_status result) (R.faults room.old) (R.faults room.new) }
    ensures status { IfErr result (λ status. (status ≡ 3) ⊎ (status ≡ 5) ⊎ (status ≡ 6)) }
    ensures given { IfErr result (λ status. IsTrue (R.tells room.old) → IsOk (keys_at (R.files room.old) path.now) → (status ≡ 5) ⊎ (status ≡ 6)) }
    ensures err_taken { IfOk result (λ keys. E.taken err.new ≡ E.taken err.old) }
    ensures err_faults { IfOk result (λ keys. E.faults err.new ≡ E.faults err.old) }
    ensures err_told { E.tells err.new ≡ E.tells err.old }
    ensures room_told { R.tells room.new ≡ R.tells room.old }
    ensures files { R.files room.new ≡ R.files room.old }
{
    let Ok(unread) = file_refusal(alloc, path, &FileFail::Failed) else {
        return Err(tell(err, OUT_OF_MEMORY, 6));
    };
    match read_historical(alloc, room, path) {
        Ok(keys) => Ok(keys),
        Err(fail) => Err(tell_file(alloc, err, path, unread.as_slice(), &fail)),
    }
}

/// The historical keys of a plan: those of its file, if it names one. Where there are none to be had this is told, and the
/// answer is the status.
pub fn historical_keys<R: FileRoom, E: Sink>(
    alloc: Global,
    plan: &Plan,
    room: &mut R,
    err: &mut E,
) -> Result<KeySet, u8>
    ensures keys { IfOk result (λ keys. IsTrue (R.tells room.old) → historical_of (R.files room.old) plan.now ≡ Ok keys) }
    ensures shown { IfErr result (λ status. IsTrue (R.tells room.old) → IsTrue (E.tells err.old) →
        TellsNoKeys (R.files room.old) plan.now status (sunk (E.taken err.old) (E.faults err.old)) (sunk (E.taken err.new) (E.faults err.new)) (R.faults room.old) (R.faults room.new)) }
    ensures room_fault { RoseWhen (is_unread_status result) (R.faults room.old) (R.faults room.new) }
    ensures status { IfErr result (λ status. (status ≡ 3) ⊎ (status ≡ 5) ⊎ (status ≡ 6)) }
    ensures given { IfErr result (λ status. IsTrue (R.tells room.old) → IsOk (historical_of (R.files room.old) plan.now) → (status ≡ 5) ⊎ (status ≡ 6)) }
    ensures err_taken { IfOk result (λ keys. E.taken err.new ≡ E.taken err.old) }
    ensures err_faults { IfOk result (λ keys. E.faults err.new ≡ E.faults err.old) }
    ensures err_told { E.tells err.new ≡ E.tells err.old }
    ensures room_told { R.tells room.new ≡ R.tells room.old }
    ensures files { R.files room.new ≡ R.files room.old }
{
    match &plan.historical {
        Some(path) => read_named(alloc, path.as_str(), room, err),
        None => Ok(KeySet::new(alloc)),
    }
}
