//! Why an answer gives no object.

use crate::Id;
use child_ports::{Failed, PortFail};

/// Why a fetch has no answer. Places and sizes count bytes of the answer.
#[derive(Clone, Copy, Debug, PartialEq, Eq)]
pub enum FrameFail {
    /// A call of the port failed.
    Failed,
    /// The answer begins with no header line. The number is the length of its longest front with which some header line
    /// for this name begins, and so the place of the first byte at fault.
    Header(u64),
    /// The answer ends before its frame does. The number is its length.
    Truncated(u64),
    /// The name is an id in full, and the answer is of this other one.
    OtherId(Id),
    /// The content has this many bytes, which is more than the limit.
    TooLarge(u64),
    /// What follows the content isn't a line feed.
    NoEnd,
    /// The id of the content isn't the one that the answer claims.
    WrongId { claimed: Id, computed: Id },
    /// Memory is wanting.
    Memory,
}

impl From<Failed> for FrameFail {
    ghost use Rattle.std.specs.Prelude.{◌≡◌};
    ghost use Rattle.object_frames.specs.declared.frame_fail.FrameFail.TheVariants as fails;

    ghost from_gives = { λ _ e. e ≡ fails.Failed };

    fn from(_: Failed) -> Self {
        FrameFail::Failed
    }
}

impl From<PortFail> for FrameFail {
    ghost use Rattle.std.specs.Prelude.{◌≡◌};
    ghost use Rattle.object_frames.specs.Faults.{fail_of};

    ghost from_gives = { λ fail e. e ≡ fail_of fail };

    fn from(fail: PortFail) -> Self {
        match fail {
            PortFail::Failed => FrameFail::Failed,
            PortFail::Memory => FrameFail::Memory,
        }
    }
}
