//! Where the stack traces of events are.
ghost use Rattle.std.specs.Prelude.{◌≡◌};
ghost use Rattle.jfr_value.specs.Nodes.{IsValue, node_of};
ghost use Rattle.jfr_stacks.specs.Trace.{IsLocation};

use crate::entry::entry_number;
use jfr_chunk::Chunk;
use jfr_path::is_reference;
use jfr_value::Node;

/// Where the stack trace of an event is.
#[derive(Clone, Copy, Debug)]
pub(crate) enum TraceLocation {
    /// The trace is the entry with this number.
    Entry(usize),
    /// The event refers to an entry that doesn't exist, so it has no stack. The JDK writes the key 0 if it
    /// recorded none.
    Missing,
    /// The trace isn't a reference.
    Inline,
}

/// Where the stack trace in this field is.
pub(crate) fn location_of(chunk: &Chunk<'_>, trace: &Node<'_>) -> TraceLocation
    requires value { IsValue chunk.now.classes trace.now }
    requires of_chunk { trace.now.bytes.now ≡ chunk.now.bytes }
    ensures { IsLocation chunk.now (node_of trace.now) result }
{
    chunk.parts_are_valid();
    if !is_reference(trace) {
        return TraceLocation::Inline;
    }
    match entry_number(chunk, trace) {
        Some(number) => TraceLocation::Entry(number),
        None => TraceLocation::Missing,
    }
}
