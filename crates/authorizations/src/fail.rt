//! Why bytes are no file of authorisations.
use sexp_reader::SexpFail;
use std::alloc::AllocError;

/// Why bytes are no file of authorisations.
#[derive(Clone, Copy, Debug, PartialEq, Eq)]
pub enum AuthFail {
    /// There is no first datum for this reason, which is never want of memory.
    Sexp(SexpFail),
    /// No datum, or one of another form than a file of authorisations, or an entry that doesn't begin with a text.
    Shape,
    /// A version other than 0.
    Version(u64),
    /// The entry of this number, from 0, begins with a text that is no fingerprint.
    Fingerprint(u64),
    /// Memory is wanting.
    Memory,
}

impl From<AllocError> for AuthFail {
    ghost use Rattle.std.specs.Prelude.{◌≡◌};
    ghost use Rattle.authorizations.specs.declared.fail.AuthFail.TheVariants.{Memory};

    ghost from_gives = { λ _ e. e ≡ Memory };

    fn from(_: AllocError) -> Self {
        AuthFail::Memory
    }
}
