//! One entry of a constant pool.

/// An entry of a constant pool, by its offsets in the chunk. Its value is a constant.
#[derive(Clone, Copy, Debug, PartialEq, Eq)]
pub struct EntryAt {
    /// The class of its pool.
    pub class: u64,
    /// The key by which values refer to it.
    pub key: u64,
    /// The offset of the key.
    pub key_at: usize,
    /// The offset of the value, which follows the key.
    pub value_at: usize,
    /// The offset after the value.
    pub end: usize,
    /// The number of its checkpoint in the chain, from 0, in the order of the file.
    pub checkpoint: usize,
    /// The number of its pool in the checkpoint, from 0.
    pub pool: usize,
}
