//! The opening of the table's file.
ghost use Rattle.std.specs.Prelude.{IfOk, IsTrue};
ghost use Rattle.sqlite_std_file.specs.File.{file_is_usable};

use crate::statements::make_table;
use sqlite::{
    Connection, Error, ErrorCode, File, FileFrom, FileStore, Files, Options, Start, Unknown,
};
use sqlite_std_file::OpenError;
use std::fs;
use std::hash::{BuildHasher, RandomState};
use std::io::ErrorKind;
use std::rt::HostRuntime;

/// The answer of a table that isn't open. It is never that a key has no value.
pub const NOT_OPEN: Error = Error::SqliteFailure(ErrorCode::CannotOpen);

// No memory for a call.
const NO_MEMORY: Error = Error::SqliteFailure(ErrorCode::OutOfMemory);

// For so many pages the library takes memory as it opens a file, and clears it. Its own number is 2,000, which takes longer than all
// else that a run asks of the records.
const CACHED_PAGES: usize = 256;

/// A table in a file.
pub type FileTable = Connection<FileStore<File>>;

// Makes the folder of a path, where it isn't there.
fn make_folder(rt: &HostRuntime, path: &str) -> Result<(), Error> {
    let Some((folder, _)) = path.rsplit_once('/') else {
        return Ok(());
    };
    match fs::create_dir_all(rt, folder) {
        Ok(()) => Ok(()),
        Err(e) if e.kind() == ErrorKind::OutOfMemory => Err(NO_MEMORY),
        Err(_) => Err(NOT_OPEN),
    }
}

// The files at a path, made where they aren't there.
fn files_at<S: Start>(rt: &HostRuntime, path: &str, start: S) -> Result<Files<FileFrom<S>>, Error>
    ensures log { IfOk result (λ files. IsTrue (file_is_usable S.Start files.log)) }
    ensures table { IfOk result (λ files. IsTrue (file_is_usable S.Start files.db)) }
{
    match sqlite_std_file::open(rt, path, start) {
        Ok(files) => Ok(files),
        Err(OpenError::OutOfMemory) => Err(NO_MEMORY),
        Err(OpenError::Io(e)) if e.kind() == ErrorKind::OutOfMemory => Err(NO_MEMORY),
        Err(_) => Err(NOT_OPEN),
    }
}

// What the library is opened with: a random number for the log, and room for fewer pages than by itself.
fn options(rt: &HostRuntime) -> Result<Options, Error> {
    let Ok(state) = RandomState::new(rt) else {
        return Err(NOT_OPEN);
    };
    Ok(Options {
        cache_pages: CACHED_PAGES,
        ..Options::new(state.hash_one(&0u8))
    })
}

// Opens the files.
fn connect<S: Start>(
    rt: &HostRuntime,
    path: &str,
    start: S,
) -> Result<Connection<FileStore<FileFrom<S>>>, Error> {
    let files = files_at(rt, path, start)?;
    match Connection::open_files_with(rt.alloc(), files, options(rt)?, false) {
        Ok(conn) => Ok(conn),
        Err((error, _)) => Err(error),
    }
}

/// Opens the table in a file. Its folder, the file and the table are made where they aren't there.
pub fn open_file(rt: &HostRuntime, path: &str) -> Result<FileTable, Error> {
    make_folder(rt, path)?;
    let mut conn = connect(rt, path, Unknown)?;
    make_table(&mut conn)?;
    Ok(conn)
}
