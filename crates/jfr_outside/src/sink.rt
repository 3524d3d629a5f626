//! Sinks, to which bytes are written.
ghost use Rattle.jfr_outside.specs.World.{SinkState, IsAfterAppend, added};
ghost use Rattle.jfr_outside.specs.Counts.{Counts};

use crate::Fault;

/// A stream of bytes.
///
/// Contracts see a sink as its `state`: the bytes written, if it lets contracts see them, and how often a
/// write failed.
pub trait Sink {
    ghost state: { Self → SinkState };

    /// Adds bytes at the end of the stream; on failure, a prefix of them.
    fn write(&mut self, bytes: &[u8]) -> Result<(), Fault>
        ensures contents { IsAfterAppend result (state self.old).written (state self.new).written bytes.now added }
        ensures faults { Counts result (state self.old).faults (state self.new).faults };
}
