//! A lock between processes, asked for without waiting.
ghost use Rattle.std.specs.Prelude.{◌≡◌, Ok, Err, IsErr, MatchResult};

use std::fs::{File, OpenOptions, TryLockError};
use std::io::ErrorKind;
use std::rt::Files;
use std::{fs, io};

// The file, only where its lock was taken.
fn locked<F: Drop>(file: F, lock: Result<(), TryLockError>) -> io::Result<F>
    ensures { MatchResult lock (λ _. result ≡ Ok file) (λ _. IsErr result) }
{
    match lock {
        Ok(()) => Ok(file),
        Err(TryLockError::WouldBlock) => Err(io::Error::from(ErrorKind::WouldBlock)),
        Err(TryLockError::Error(e)) => Err(e),
    }
}

/// Takes the lock on a file of this name in a folder, which is made where it isn't there. It is held as long as the
/// value is.
pub fn take_lock<R: Files<File = File> + AllocGlobal>(
    rt: &R,
    folder: &str,
    name: &str,
) -> io::Result<File> {
    fs::create_dir_all(rt, folder)?;
    let path = format!(in rt.alloc(); "{folder}/{name}")?;
    let file = OpenOptions::new()
        .write(true)
        .create(true)
        .open(rt, path.as_str())?;
    let lock = file.try_lock();
    locked(file, lock)
}
