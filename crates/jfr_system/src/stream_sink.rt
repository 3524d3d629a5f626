//! A real stream. A proof can know nothing of what it holds, so an additional clause says what a call writes
//! to it.
ghost use Rattle.std.specs.Prelude.{◌≡◌, OnOk};
ghost use Rattle.std.specs.Io.KnownBytes.{Appends};
ghost use Rattle.jfr_outside.specs.Counts.{Counts};
ghost use Rattle.jfr_system.specs.Edges.{unseen};

use crate::counts::failed;
use jfr_outside::{Fault, Sink};
use std::io::Write;

/// A stream that is flushed after each write, with a count that rises at every error.
#[derive(Drop)]
pub struct StreamSink<W: Write + Drop> {
    stream: W,
    faults: u64,
}

impl<W: Write + Drop> StreamSink<W> {
    /// No write has failed.
    pub fn new(stream: W) -> StreamSink<W>
        ensures none_failed { unseen result.faults ≡ unseen 0 }
    {
        StreamSink { stream, faults: 0 }
    }
}

impl<W: Write + Drop> Sink for StreamSink<W> {
    ghost state = { λ s. unseen s.faults };

    fn write(&mut self, bytes: &[u8]) -> Result<(), Fault>
        ensures grew { OnOk result (Appends (W.contents self.old.stream) (W.contents self.new.stream) bytes.now) }
        ensures faults { Counts result self.old.faults self.new.faults }
    {
        if self.stream.write_all(bytes).is_err() {
            return Err(failed(&mut self.faults));
        }
        if self.stream.flush().is_err() {
            return Err(failed(&mut self.faults));
        }
        Ok(())
    }
}
