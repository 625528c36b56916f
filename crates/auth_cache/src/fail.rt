//! Why bytes are no text of a cache.
use std::alloc::AllocError;

/// Why bytes are no text of a cache.
#[derive(Clone, Copy, Debug, PartialEq, Eq)]
pub enum CacheFail {
    /// The first line names another version.
    Version(u32),
    /// The offset of the first line that doesn't fit, or the length of the text where a line is wanting.
    Form(u64),
    /// Memory is wanting.
    Memory,
}

impl From<AllocError> for CacheFail {
    ghost use Rattle.std.specs.Prelude.{◌≡◌};
    ghost use Rattle.auth_cache.specs.declared.fail.CacheFail.TheVariants.{Memory};

    ghost from_gives = { λ _ e. e ≡ Memory };

    fn from(_: AllocError) -> Self {
        CacheFail::Memory
    }
}
