//! The part of `gpgv`.
use stand_world::toy_status;
use std::io::Write;
use std::{fs, io};

/// Puts what the signature of a file is worth on the payload of another, under the keyring of a third.
pub fn tell_status(
    rt: HostRuntime,
    keyring: &str,
    signature: &str,
    payload: &str,
) -> io::Result<()> {
    let keyring = fs::read(&rt, keyring)?;
    let signature = fs::read(&rt, signature)?;
    let payload = fs::read(&rt, payload)?;
    let status = toy_status(
        rt.alloc(),
        keyring.as_slice(),
        signature.as_slice(),
        payload.as_slice(),
    )?;
    rt.stdout().write_all(status.as_slice())
}
