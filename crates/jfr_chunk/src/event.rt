//! An event of a chunk.

use jfr_frame::Framed;
use jfr_value::Node;

/// An event of a chunk.
#[derive(Clone, Copy, Debug)]
pub struct Event<'a> {
    /// Its number among the chunk's events, from 0, in the order of the file.
    pub number: usize,
    /// Its record, whose type is the id of its class.
    pub frame: Framed,
    /// The node of its fields as one value, which ends where the last field ends.
    pub node: Node<'a>,
}
