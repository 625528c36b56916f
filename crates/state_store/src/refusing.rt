//! Answers of the database as those of a port.
ghost use Rattle.child_ports.specs.Causes.{PortFailsByCount};
ghost use Rattle.state_store.specs.Refusing.{IsToldAs};

use child_ports::PortFail;
use sqlite::{Error, ErrorCode};

/// An answer of the database as one of a port: each refused opening or statement but for memory is a failed call.
pub fn counted<T: Drop>(answer: Result<T, Error>, faults: &mut u64) -> Result<T, PortFail>
    ensures told { IsToldAs answer result }
    ensures cause { PortFailsByCount faults.old faults.new result }
{
    match answer {
        Ok(value) => Ok(value),
        Err(Error::SqliteFailure(ErrorCode::OutOfMemory)) => Err(PortFail::Memory),
        Err(_) => {
            *faults = faults.saturating_add(1);
            Err(PortFail::Failed)
        }
    }
}
