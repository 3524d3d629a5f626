//! One checkpoint of the chain.

use jfr_frame::Framed;

/// A checkpoint of the chain. Offsets count from the chunk's first byte.
#[derive(Clone, Copy, Debug, PartialEq, Eq)]
pub struct Link {
    /// Its record.
    pub frame: Framed,
    /// The offset of its delta.
    pub delta_at: usize,
    /// The offset after its delta.
    pub delta_end: usize,
    /// The earlier checkpoint of the chain starts this many bytes from this one's first byte: negative, or 0
    /// in the oldest.
    pub delta: i64,
}
