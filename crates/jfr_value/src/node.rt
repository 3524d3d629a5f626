//! Nodes, and the steps between them.

use jfr_layout::Shape;

/// A value in a chunk: its shape, the bytes of the chunk, and the range of its own bytes.
#[derive(Clone, Copy, Debug)]
pub struct Node<'a> {
    /// The shape of the value.
    pub shape: Shape,
    /// All bytes of the chunk.
    pub bytes: &'a [u8],
    /// The offset of the value's first byte.
    pub at: usize,
    /// The offset after its last byte.
    pub end: usize,
}

/// A step from a value to another one.
#[derive(Clone, Copy, Debug, PartialEq, Eq)]
pub enum Step {
    /// To the field with this number, from 0, of a composite value.
    Field(usize),
    /// To the item with this number, from 0, of an array.
    Item(u64),
    /// From a reference, or from a string that is a key, to the constant that it refers to.
    Follow,
}
