//! A standard stream as a sink.
ghost use Rattle.std.specs.Prelude.{[], false, OnOk};
ghost use Rattle.std.specs.Io.KnownBytes.{Appends};
ghost use Rattle.child_ports.specs.Causes.{FailsByCount};

use crate::counting::counted_call;
use child_ports::{Failed, Sink};
use std::io::Write;

/// Standard output or standard error.
#[derive(Drop)]
pub struct StdSink<W: Write + Drop> {
    stream: W,
    faults: u64,
}

impl<W: Write + Drop> StdSink<W> {
    /// A sink that puts into this stream.
    pub fn new(stream: W) -> StdSink<W> {
        StdSink { stream, faults: 0 }
    }
}

impl<W: Write + Drop> Sink for StdSink<W> {
    ghost faults = { λ sink. sink.faults };

    ghost tells = { λ _. false };

    ghost taken = { λ _. [] };

    fn put(&mut self, bytes: &[u8]) -> Result<(), Failed>
        ensures put { OnOk result (Appends (W.contents self.old.stream) (W.contents self.new.stream) bytes.now) }
        ensures cause { FailsByCount self.old.faults self.new.faults result }
    {
        let put = self.stream.write_all(bytes);
        counted_call(put, &mut self.faults)
    }
}
