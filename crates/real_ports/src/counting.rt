//! Answers of the system as those of a port.
ghost use Rattle.std.specs.Prelude.{◌≡◌, Ok, MatchResult, IsErr};
ghost use Rattle.child_ports.specs.Causes.{FailsByCount, PortFailsByCount, Rose};
ghost use Rattle.real_ports.specs.Told.{IsToldAs};

use child_ports::{Failed, PortFail};
use std::io;
use std::io::ErrorKind;

// Counts a failed call.
fn count_fault(faults: &mut u64)
    ensures { Rose faults.old faults.new }
{
    *faults = faults.saturating_add(1);
}

/// An answer of the system as one of a port: any error but want of memory is a failed call.
pub fn counted<T: Drop>(answer: io::Result<T>, faults: &mut u64) -> Result<T, PortFail>
    ensures told { IsToldAs answer result }
    ensures cause { PortFailsByCount faults.old faults.new result }
{
    match answer {
        Ok(value) => Ok(value),
        Err(e) if e.kind() == ErrorKind::OutOfMemory => Err(PortFail::Memory),
        Err(_) => {
            count_fault(faults);
            Err(PortFail::Failed)
        }
    }
}

/// The same for a port that takes no memory: any error is a failed call.
pub fn counted_call<T: Drop>(answer: io::Result<T>, faults: &mut u64) -> Result<T, Failed>
    ensures told { MatchResult answer (λ value. result ≡ Ok value) (λ _. IsErr result) }
    ensures cause { FailsByCount faults.old faults.new result }
{
    match answer {
        Ok(value) => Ok(value),
        Err(_) => {
            count_fault(faults);
            Err(Failed)
        }
    }
}
