//! Memory for the indexes of a chunk, used again for each chunk.
ghost use Rattle.std.specs.Prelude.{◌≡◌};
ghost use Rattle.jfr_chunk.specs.Buffers.{IsEmpty};

use crate::event_index::EventIndex;
use jfr_frame::FrameBuffers;
use std::alloc::Global;

/// The memory of a chunk's indexes, for use with the next chunk.
#[derive(Drop)]
pub struct Buffers {
    pub(crate) frames: FrameBuffers,
    pub(crate) events: EventIndex,
}

impl Buffers {
    /// No memory, for use with the first chunk.
    pub fn new(alloc: Global) -> Buffers
        ensures { IsEmpty result }
    {
        Buffers {
            frames: FrameBuffers::new(alloc),
            events: EventIndex::new(alloc, false),
        }
    }

    /// As `new`. The chunks that are read with this memory note where the keys of their events are spelled
    /// (`Chunk::event_keys`).
    pub fn noting_keys(alloc: Global) -> Buffers
        ensures { IsEmpty result }
    {
        Buffers {
            frames: FrameBuffers::new(alloc),
            events: EventIndex::new(alloc, true),
        }
    }

    /// The memory of these indexes.
    pub(crate) fn of(frames: FrameBuffers, events: EventIndex) -> Buffers
        ensures { IsEmpty result }
    {
        let mut buffers = Buffers { frames, events };
        buffers.frames.clear();
        buffers.events.clear();
        buffers
    }
}
