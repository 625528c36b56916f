//! Why a reading has no value.
use crate::What;
use child_ports::PortFail;

/// Why an object isn't read.
#[derive(Clone, Copy, Debug, PartialEq, Eq)]
pub enum ReadFail {
    /// It can't be read, for this reason.
    Unreadable(What),
    /// A call of git failed.
    GitFault,
    /// Memory is wanting.
    Memory,
}
