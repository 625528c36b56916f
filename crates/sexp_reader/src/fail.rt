//! Why no datum is read.
ghost use Rattle.std.specs.Prelude.{◌≡◌};
ghost use Rattle.sexp_reader.specs.Fail.{fail_at};
ghost use Rattle.sexp_reader.specs.declared.fail.ReadFail.TheVariants as fails;

use std::alloc::AllocError;
use thiserror::Error;

/// Why no datum was read. The number is an offset in the bytes, from 0.
#[derive(Clone, Copy, Debug, PartialEq, Eq, Error)]
pub enum SexpFail {
    /// The bytes aren't UTF-8; up to here they are.
    #[error("the bytes from {0} on are not UTF-8")]
    NotUtf8(u64),
    /// The character after a backslash isn't one of the four. Its first byte is here.
    #[error("no character is escaped so, at {0}")]
    Escape(u64),
    /// The bytes end, here, inside a list or a text, or after `'`.
    #[error("the bytes end at {0}, inside a list or a text, or after a quote")]
    Open(u64),
    /// `)` outside any list, or directly after `'`.
    #[error("no list is open at the bracket at {0}")]
    Close(u64),
    /// A number above 18,446,744,073,709,551,615. Its first digit is here.
    #[error("the number at {0} is too large")]
    Number(u64),
    /// A refused character, or the token `.`.
    #[error("what stands at {0} is not supported")]
    Hash(u64),
    /// The bracket or the quote that would open level 129.
    #[error("more than 128 levels are open at {0}")]
    Deep(u64),
    /// Memory is wanting.
    #[error("out of memory")]
    Memory,
}

/// A fault, without its place.
#[derive(Clone, Copy, Debug, PartialEq, Eq)]
pub enum Cause {
    Escape,
    Open,
    Close,
    Number,
    Hash,
    Deep,
}

impl Cause {
    /// The fault at a place.
    pub fn at(self, place: u64) -> SexpFail
        ensures { result ≡ fail_at self place }
    {
        match self {
            Cause::Escape => SexpFail::Escape(place),
            Cause::Open => SexpFail::Open(place),
            Cause::Close => SexpFail::Close(place),
            Cause::Number => SexpFail::Number(place),
            Cause::Hash => SexpFail::Hash(place),
            Cause::Deep => SexpFail::Deep(place),
        }
    }
}

/// Why a part was not read: a fault, and how many bytes are left where it stands.
#[derive(Clone, Copy, Debug, PartialEq, Eq)]
pub enum ReadFail {
    Fault(Cause, usize),
    Memory,
}

impl From<AllocError> for ReadFail {
    ghost from_gives = { λ _ e. e ≡ fails.Memory };

    fn from(_: AllocError) -> Self {
        ReadFail::Memory
    }
}
