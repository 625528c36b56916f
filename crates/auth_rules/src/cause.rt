//! Why a commit is refused.
use authorizations::{AuthFail, Fingerprint};
use commit_objects::CommitFail;
use object_frames::{FrameFail, Id, Kind};
use openpgp_status::Judged;
use tree_entries::TreeFail;

/// Why an object can't be read by its id: the first of these that applies.
#[derive(Clone, Copy, Debug, PartialEq, Eq)]
pub enum What {
    /// Git doesn't have it.
    Missing,
    /// Git's answer isn't the object's frame. Never `Failed` and never `Memory`.
    Frame(FrameFail),
    /// It is of this kind, which isn't the wanted one.
    Kind(Kind),
    /// Its content isn't that of a commit. Never `Memory`.
    Commit(CommitFail),
    /// Its content isn't that of a tree. Never `Memory`.
    Tree(TreeFail),
}

/// Why a commit is refused: the first of these that applies.
#[derive(Clone, Copy, Debug, PartialEq, Eq)]
pub enum Cause {
    /// This object, which has to be consulted, can't be read.
    Unreadable {
        id: Id,
        what: What,
    },
    /// It has no signature.
    Unsigned,
    /// gpgv's verdict isn't one valid signature.
    Signature(Judged),
    /// Its signature is over a hash by the algorithm of this number: 1, which is MD5, or 2, which is SHA-1, where the
    /// commit has a file of authorisations (RFC 4880, section 9.4).
    WeakHash(u32),
    /// The keyring lacks the key that made its signature.
    KeyNotInKeyring(Fingerprint),
    /// It has no file of authorisations, and a parent has one.
    RemovesFile,
    /// This parent has no file of authorisations, and a parent of it has one.
    ParentRemovedFile(Id),
    /// The file of this parent isn't a file of authorisations. Never `Memory`.
    ParentFile {
        parent: Id,
        fail: AuthFail,
    },
    /// Not every parent gives the key that made its signature.
    NotAuthorised(Fingerprint),
    /// The introduction's signer isn't the one that was asked for.
    WrongSigner {
        found: Fingerprint,
        wanted: Fingerprint,
    },
}

/// Why a commit isn't accepted.
#[derive(Clone, Copy, Debug, PartialEq, Eq)]
pub enum RuleFail {
    /// It is refused for this cause.
    Refused(Cause),
    /// A call of git failed.
    GitFault,
    /// A call of gpgv failed.
    SigFault,
    /// Memory is wanting.
    Memory,
}
