//! The files of the system as a room.
ghost use Rattle.std.specs.Prelude.{false, IfOk, IfSome};
ghost use Rattle.std.specs.FinMap as fin;
ghost use Rattle.child_ports.specs.Causes.{PortFailsByCount};
ghost use Rattle.real_ports.specs.Heard.{IsFront};

use crate::counting::counted;
use crate::file_front::read_front;
use child_ports::{Bytes, FileRoom, PortFail};
use std::alloc::Global;
use std::rt::Files;

/// The files of the system. Of a longer file it gives the first 67,108,865 bytes.
#[derive(Drop)]
pub struct RealRoom<R: Files + AllocGlobal + Drop> {
    rt: R,
    faults: u64,
}

impl<R: Files + AllocGlobal + Drop> RealRoom<R> {
    /// A room whose files are opened by this runtime.
    pub fn new(rt: R) -> RealRoom<R> {
        RealRoom { rt, faults: 0 }
    }
}

impl<R: Files + AllocGlobal + Drop> FileRoom for RealRoom<R> {
    ghost faults = { λ room. room.faults };

    ghost tells = { λ _. false };

    ghost files = { λ _. fin.empty };

    fn read(&mut self, alloc: Global, path: &str) -> Result<Option<Bytes>, PortFail>
        ensures front { IfOk result (λ found. IfSome found (λ bytes. IsFront R.File.remaining bytes)) }
        ensures cause { PortFailsByCount self.old.faults self.new.faults result }
    {
        counted(read_front(&self.rt, alloc, path), &mut self.faults)
    }
}
