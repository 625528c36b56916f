//! Why a script has no world.
use std::alloc::AllocError;

/// Why a script has no world.
#[derive(Clone, Copy, Debug, PartialEq, Eq)]
pub enum BuildFail {
    /// The line of this number, counted from 1, is the first at fault: it isn't of the form, declares a name again, or names
    /// what isn't declared before. The number is one past the last line where each is right and no commit is there.
    Line(u64),
    /// Memory is wanting.
    Memory,
}

impl From<AllocError> for BuildFail {
    ghost use Rattle.std.specs.Prelude.{◌≡◌};
    ghost use Rattle.stand_world.specs.declared.build_fail.BuildFail.TheVariants.{Memory};

    ghost from_gives = { λ _ e. e ≡ Memory };

    fn from(_: AllocError) -> Self {
        BuildFail::Memory
    }
}
