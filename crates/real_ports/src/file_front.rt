//! The front of a file.
ghost use Rattle.std.specs.Prelude.{◌≡◌, ◌≢◌, None, Some, Ok, Err, take, IfOk, IfErr, IfSome};
ghost use Rattle.std.specs.IoError.{error_kind};
ghost use Rattle.real_ports.specs.Heard.{IsFront};

use child_ports::Bytes;
use std::alloc::Global;
use std::io::{ErrorKind, Read};
use std::rt::Files;
use std::{fs, io};

// One byte more than the largest keyring: what is longer is seen to be too long for every use.
const MOST: u64 = 67_108_865;

// An opened file, or None where nothing is there. One that can't be opened is an error.
fn found<F: Drop>(opened: io::Result<F>) -> io::Result<Option<F>>
    ensures there { IfOk opened (λ file. result ≡ Ok (Some file)) }
    ensures absent { IfErr opened (λ e. error_kind e ≡ ErrorKind.NotFound → result ≡ Ok None) }
    ensures unread { IfErr opened (λ e. error_kind e ≢ ErrorKind.NotFound → result ≡ Err e) }
{
    match opened {
        Ok(file) => Ok(Some(file)),
        Err(e) if e.kind() == ErrorKind::NotFound => Ok(None),
        Err(e) => Err(e),
    }
}

// The bytes of a file, or as many as are taken.
fn front_of<F: Read + Drop>(alloc: Global, file: F) -> io::Result<Bytes>
    ensures { IfOk result (λ front. IfSome (F.remaining file) (λ bytes. front ≡ take 67108865 bytes)) }
{
    let mut bytes = Vec::new(alloc);
    file.take(MOST).read_to_end(&mut bytes)?;
    Ok(Bytes::from_vec(bytes))
}

/// The bytes of a file, of a longer one the first 67,108,865, or None where nothing is there.
pub fn read_front<R: Files>(rt: &R, alloc: Global, path: &str) -> io::Result<Option<Bytes>>
    ensures front { IfOk result (λ found. IfSome found (λ bytes. IsFront R.File.remaining bytes)) }
{
    match found(fs::open(rt, path))? {
        Some(file) => Ok(Some(front_of(alloc, file)?)),
        None => Ok(None),
    }
}
