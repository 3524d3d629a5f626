//! Memory for the records of a chunk, which is used again for the next chunk.
ghost use Rattle.std.specs.Prelude.{◌≡◌, []};

use crate::start::Start;
use std::alloc::Global;
use std::marker::Model;

/// The memory of a chunk's records, for use with those of the next chunk. Contracts see the offsets at which
/// they started.
#[derive(Drop)]
pub struct FrameBuffers {
    pub(crate) starts: Vec<Start>,
}

impl Model for FrameBuffers {
    ghost use Rattle.std.specs.Prelude.{ℕ, List};
    ghost use Rattle.jfr_frame.specs.Starts.{kept_places};

    ghost Value = { List ℕ };

    ghost view = { λ buffers. kept_places buffers.starts.items };
}

impl FrameBuffers {
    /// No memory, as before the first chunk. It allocates nothing.
    pub fn new(alloc: Global) -> FrameBuffers
        ensures { result ≡ [] }
    {
        FrameBuffers {
            starts: Vec::new(alloc),
        }
    }

    /// Drops the records, and keeps their memory.
    pub fn clear(&mut self)
        ensures { self.new ≡ [] }
    {
        self.starts.clear();
    }
}
