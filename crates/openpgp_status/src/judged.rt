//! What a status text says of a signature.

use child_ports::Fingerprint;

/// What a status text says of a signature.
#[derive(Clone, Copy, PartialEq, Eq, Debug, Drop)]
pub enum Judged {
    /// It is valid: made by the key with this fingerprint, over a hash by the algorithm of this number (RFC 4880,
    /// section 9.4).
    Valid { key: Fingerprint, hash: u32 },
    /// A signature is wrong, or couldn't be checked although its key isn't missing.
    Bad,
    /// The keyring lacks the key.
    NoKey,
    /// There is no signature.
    NoData,
    /// More than one signature is valid.
    Several,
    /// No signature is said to be valid.
    Nothing,
    /// The fields of the VALIDSIG line aren't of the form. It has this number among all lines, from 1.
    Unreadable(u64),
}
