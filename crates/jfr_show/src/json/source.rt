//! The chunk whose events are written, with the orders of its classes' fields.
use crate::depth::Reach;
use crate::json::order::MemberOrder;
use jfr_chunk::Chunk;
use std::alloc::Global;

/// A chunk, the order in which the fields of each class are written, if it is kept, and how deep the parts
/// below the next value may be.
#[derive(Clone, Copy)]
pub(crate) struct JsonSource<'c, 'a> {
    pub(crate) alloc: Global,
    pub(crate) chunk: &'c Chunk<'a>,
    pub(crate) orders: &'c [Option<MemberOrder>],
    pub(crate) reach: Reach,
}
