//! The channels of a file that words name.
ghost use Rattle.std.specs.Prelude.{◌≡◌, ◌≢◌, ◌⊎◌, Ok, Err, IsOk, IsTrue, IfOk, IfErr};
ghost use Rattle.child_ports.specs.Causes.{RoseWhen};
ghost use Rattle.auth_report.specs.declared.files.FileFail.TheVariants as file;
ghost use Rattle.auth_report.specs.FileTexts.{file_line};
ghost use Rattle.channel_file.specs.Limits.{AreListed};
ghost use Rattle.run_answers.specs.Ended.{TellsNone, sunk};
ghost use Rattle.channels_run.specs.declared.listing.ListFail.TheVariants as list;
ghost use Rattle.channels_run.specs.Listing.{list_in, list_at, GivesList, is_unread, trouble_line};
ghost use Rattle.channels_run.specs.Shown.{is_unread_status};

use crate::showing::tell_list;
use auth_report::{FileFail, file_refusal};
use channel_file::{ChannelFail, ChannelList, read_channels};
use child_ports::{FileRoom, PortFail, Sink};
use run_answers::{OUT_OF_MEMORY, tell};
use std::alloc::Global;

/// Why a file gives no channels.
#[derive(Debug, Drop)]
pub enum ListFail {
    /// The file itself is at fault, or can't be read.
    File(FileFail),
    /// Its bytes are no list of channels. Never `Memory`.
    Malformed(ChannelFail),
}

// The channels of a file's bytes.
fn list_in(alloc: Global, bytes: &[u8]) -> Result<ChannelList, ListFail>
    ensures list { GivesList result (list_in bytes.now) }
    ensures listed { IfOk result AreListed }
    ensures no_fault { result ≢ Err (list.File file.Failed) }
{
    if bytes.len() > 1_048_576 {
        return Err(ListFail::File(FileFail::TooLong));
    }
    match read_channels(alloc, bytes) {
        Ok(channels) => Ok(channels),
        Err(ChannelFail::Memory) => Err(ListFail::File(FileFail::Memory)),
        Err(fail) => Err(ListFail::Malformed(fail)),
    }
}

// The channels of the file at a path. `Failed` exactly where the call of the room failed.
fn read_list<R: FileRoom>(alloc: Global, room: &mut R, path: &str) -> Result<ChannelList, ListFail>
    ensures list { IsTrue (R.tells room.old) → GivesList result (list_at (R.files room.old) path.now) }
    ensures listed { IfOk result AreListed }
    ensures fault { RoseWhen (is_unread result) (R.faults room.old) (R.faults room.new) }
    ensures told { R.tells room.new ≡ R.tells room.old }
    ensures files { R.files room.new ≡ R.files room.old }
{
    match room.read(alloc, path) {
        Ok(Some(bytes)) => list_in(alloc, bytes.as_slice()),
        Ok(None) => Err(ListFail::File(FileFail::Missing)),
        Err(PortFail::Failed) => Err(ListFail::File(FileFail::Failed)),
        Err(PortFail::Memory) => Err(ListFail::File(FileFail::Memory)),
    }
}

/// The channels of the file at a path. Where there are none to be had this is told, and the answer is the status. The line for
/// a file that can't be read is made before the room is called, so that its failure is always told with its own status.
pub fn listed_channels<R: FileRoom, E: Sink>(
    alloc: Global,
    path: &str,
    room: &mut R,
    err: &mut E,
) -> Result<ChannelList, u8>
    ensures list { IfOk result (λ channels. IsTrue (R.tells room.old) → list_at (R.files room.old) path.now ≡ Ok channels) }
    ensures listed { IfOk result AreListed }
    ensures shown { IfErr result (λ status. IsTrue (R.tells room.old) → IsTrue (E.tells err.old) →
        TellsNone (list_at (R.files room.old) path.now) (trouble_line path.now) (file_line path.now file.Failed) status (sunk (E.taken err.old) (E.faults err.old)) (sunk (E.taken err.new) (E.faults err.new)) (R.faults room.old) (R.faults room.new)) }
    ensures room_fault { RoseWhen (is_unread_status result) (R.faults room.old) (R.faults room.new) }
    ensures status { IfErr result (λ status. (status ≡ 3) ⊎ (status ≡ 5) ⊎ (status ≡ 6)) }
    ensures given { IfErr result (λ status. IsTrue (R.tells room.old) → IsOk (list_at (R.files room.old) path.now) → (status ≡ 5) ⊎ (status ≡ 6)) }
    ensures err_taken { IfOk result (λ channels. E.taken err.new ≡ E.taken err.old) }
    ensures err_faults { IfOk result (λ channels. E.faults err.new ≡ E.faults err.old) }
    ensures err_told { E.tells err.new ≡ E.tells err.old }
    ensures room_told { R.tells room.new ≡ R.tells room.old }
    ensures files { R.files room.new ≡ R.files room.old }
{
    let Ok(unread) = file_refusal(alloc, path, &FileFail::Failed) else {
        return Err(tell(err, OUT_OF_MEMORY, 6));
    };
    match read_list(alloc, room, path) {
        Ok(channels) => Ok(channels),
        Err(fail) => Err(tell_list(alloc, err, path, unread.as_slice(), &fail)),
    }
}
