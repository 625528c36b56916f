//! The files that gpgv reads.
ghost use Rattle.std.specs.Prelude.{◌≡◌, codes, IfOk, OnOk, string_bytes};
ghost use Rattle.std.specs.Io.KnownBytes.{Appends};
ghost use Rattle.std.specs.Path.{IsAbsoluteOf, path_buf_bytes};
ghost use Rattle.real_ports.specs.Put.{EndsIn, file_in};

use child_ports::Bytes;
use std::alloc::{AllocError, Global};
use std::fs::{OpenFile, OpenOptions};
use std::io;
use std::io::Write;
use std::path::PathBuf;
use std::rt::{Env, Files};

/// A file as it was written, and its absolute path.
#[derive(Drop)]
pub struct PutFile<F: Drop> {
    file: F,
    path: PathBuf,
}

/// The keyring as gpgv reads it, and its bytes.
#[derive(Drop)]
pub struct KeyringFile<F: Drop> {
    put: PutFile<F>,
    bytes: Bytes,
}

/// What gpgv is asked: what a signature on a payload is worth.
#[derive(Drop)]
pub struct Question<F: Drop> {
    pub keyring: PathBuf,
    pub signature: PutFile<F>,
    pub payload: PutFile<F>,
}

// Writes over a file, and then cuts it to its length, which costs less than to make it empty first.
fn write_over<F: Write + OpenFile>(file: &mut F, bytes: &[u8]) -> io::Result<()>
    ensures { OnOk result (Appends (F.contents file.old) (F.contents file.new) bytes.now) }
{
    file.write_all(bytes)?;
    file.set_len(bytes.len() as u64)
}

// The path of a file in a folder.
fn file_path(alloc: Global, work: &str, name: &str) -> Result<String, AllocError>
    ensures { IfOk result (λ path. string_bytes path ≡ file_in work.now name.now) }
{
    format!(in alloc; "{work}/{name}")
}

// The same, made absolute.
fn path_in<R: Env + AllocGlobal>(rt: &R, work: &str, name: &str) -> io::Result<PathBuf>
    ensures { IfOk result (λ path. IsAbsoluteOf (file_in work.now name.now) (path_buf_bytes path)) }
{
    let path = file_path(rt.alloc(), work, name)?;
    std::path::absolute(rt, path.as_str())
}

// Writes a file in a folder.
fn put_file<R: Files + Env + AllocGlobal>(
    rt: &R,
    work: &str,
    name: &str,
    bytes: &[u8],
) -> io::Result<PutFile<R::File>>
    ensures path { IfOk result (λ put. IsAbsoluteOf (file_in work.now name.now) (path_buf_bytes put.path)) }
    ensures bytes { IfOk result (λ put. EndsIn R.File.contents put.file bytes.now) }
{
    let path = path_in(rt, work, name)?;
    let mut file = OpenOptions::new()
        .write(true)
        .create(true)
        .open(rt, path.as_str())?;
    write_over(&mut file, bytes)?;
    Ok(PutFile { file, path })
}

impl<F: Drop> PutFile<F> {
    /// Its absolute path.
    pub fn path(&self) -> &str
        ensures { result.now ≡ path_buf_bytes self.now.path }
    {
        self.path.as_str()
    }
}

/// Writes a keyring for gpgv.
pub fn put_keyring<R: Files + Env + AllocGlobal>(
    rt: &R,
    work: &str,
    bytes: Bytes,
) -> io::Result<KeyringFile<R::File>>
    ensures path { IfOk result (λ keyring. IsAbsoluteOf (file_in work.now (codes "keyring")) (path_buf_bytes keyring.put.path)) }
    ensures written { IfOk result (λ keyring. EndsIn R.File.contents keyring.put.file bytes) }
    ensures bytes { IfOk result (λ keyring. keyring.bytes ≡ bytes) }
{
    let put = put_file(rt, work, "keyring", bytes.as_slice())?;
    Ok(KeyringFile { put, bytes })
}

/// Writes signature and payload for gpgv.
pub fn put_question<R: Files + Env + AllocGlobal>(
    rt: &R,
    work: &str,
    signature: &[u8],
    payload: &[u8],
) -> io::Result<Question<R::File>>
    ensures keyring { IfOk result (λ asked. IsAbsoluteOf (file_in work.now (codes "keyring")) (path_buf_bytes asked.keyring)) }
    ensures signature_path { IfOk result (λ asked. IsAbsoluteOf (file_in work.now (codes "signature")) (path_buf_bytes asked.signature.path)) }
    ensures payload_path { IfOk result (λ asked. IsAbsoluteOf (file_in work.now (codes "payload")) (path_buf_bytes asked.payload.path)) }
    ensures signature { IfOk result (λ asked. EndsIn R.File.contents asked.signature.file signature.now) }
    ensures payload { IfOk result (λ asked. EndsIn R.File.contents asked.payload.file payload.now) }
{
    let keyring = path_in(rt, work, "keyring")?;
    let signature = put_file(rt, work, "signature", signature)?;
    let payload = put_file(rt, work, "payload", payload)?;
    Ok(Question {
        keyring,
        signature,
        payload,
    })
}
