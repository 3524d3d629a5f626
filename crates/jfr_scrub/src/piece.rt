//! The pieces of an output.

/// The meaning of a range of made bytes. Except for the header and the metadata record, each is one
/// compressed integer of at most nine bytes.
#[derive(Clone, Copy, Debug)]
pub enum MadePart {
    /// The 68 bytes of the header: that of the chunk, with the size and the positions of the output.
    ChunkHeader,
    /// The size of a checkpoint's record, in the same number of bytes as before.
    CheckpointSize,
    /// A checkpoint's delta, in two's complement: added to the checkpoint's offset, it gives that of the chained
    /// checkpoint before it in the chunk. It is 0 for the first one.
    CheckpointDelta,
    /// The number of pools of a checkpoint.
    PoolCount,
    /// The id of the class of a pool's entries.
    PoolClass,
    /// The number of entries of a pool.
    EntryCount,
    /// A metadata record of the classes that remain.
    MetadataRecord,
}

/// A range of the chunk, or of the made bytes.
#[derive(Clone, Copy, Debug)]
pub(crate) enum Range {
    Copied {
        from: usize,
        to: usize,
    },
    Made {
        part: MadePart,
        from: usize,
        to: usize,
    },
}

/// A piece of the output of a chunk.
#[derive(Clone, Copy, Debug)]
pub enum Piece<'a> {
    /// These bytes of the chunk, which start there at the offset `at`.
    Copied {
        at: usize,
        bytes: &'a [u8],
    },
    /// The range `from..to` of the made bytes (`Scrubber::made`), and its meaning.
    Made {
        part: MadePart,
        from: usize,
        to: usize,
    },
}
