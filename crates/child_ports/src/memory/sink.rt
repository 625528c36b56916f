//! A sink in memory, with room for a number of bytes.
ghost use Rattle.std.specs.Prelude.{◌≡◌, ◌↔◌, ◌⊎◌, ◌<◌, ◌+◌, ◌++◌, [], true, length, IfOk, OnOk, OnErr, IsErr};
ghost use Rattle.child_ports.specs.Script.{unplayed, FailsNext, after_call, after_fault};

use crate::memory::Script;
use crate::{Failed, Numbers, Sink};
use std::alloc::{AllocError, Global};
use std::marker::Model;

/// A sink with room for a number of bytes. It fails at the calls whose numbers it is given, and where
/// the bytes don't fit, and only there.
#[derive(Drop)]
pub struct MemSink {
    // All the room, of which the front is used.
    bytes: Vec<u8>,
    used: usize,
    script: Script,
}

impl Model for MemSink {
    ghost use Rattle.child_ports.specs.MemSink.{SinkState};

    ghost Value = { SinkState };

    ghost use Rattle.child_ports.specs.MemSinkInside.{sink_state, IsWithin};

    ghost view = { sink_state };

    ghost invariant = { IsWithin };
}

impl MemSink {
    /// An empty sink with room for so many bytes.
    pub fn new(alloc: Global, room: usize, fails: Numbers) -> Result<MemSink, AllocError>
        ensures taken { IfOk result (λ sink. sink.taken ≡ []) }
        ensures room { IfOk result (λ sink. sink.room ≡ room) }
        ensures script { IfOk result (λ sink. sink.script ≡ unplayed fails) }
    {
        let bytes = vec![in alloc; 0u8; room]?;
        Ok(MemSink {
            bytes,
            used: 0,
            script: Script::new(fails),
        })
    }

    /// All that was taken.
    pub fn taken(&self) -> &[u8]
        ensures { result.now ≡ self.now.taken }
    {
        &self.bytes[..self.used]
    }
}

impl Sink for MemSink {
    ghost faults = { λ sink. sink.script.faults };

    ghost tells = { λ sink. true };

    ghost taken = { λ sink. sink.taken };

    fn put(&mut self, bytes: &[u8]) -> Result<(), Failed>
        ensures ok { OnOk result (self.new ≡ record self.old { taken = self.old.taken ++ bytes.now; script = after_call self.old.script }) }
        ensures err { OnErr result (self.new ≡ record self.old { script = after_fault self.old.script }) }
        ensures exact { IsErr result ↔ (FailsNext self.old.script ⊎ self.old.room < length self.old.taken + length bytes.now) }
    {
        let fits = bytes.len() <= self.bytes.len() - self.used;
        self.script.count_fitting(fits)?;
        let end = self.used + bytes.len();
        self.bytes[self.used..end].copy_from_slice(bytes);
        self.used = end;
        Ok(())
    }
}
