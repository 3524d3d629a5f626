//! The chunk of rings, and outputs of it if only its first event is kept, right ones and wrong ones.
use jfr_base::ReadFault;
use jfr_chunk::Chunk;
use jfr_filter::{Filter, FilterFault, Side};
use jfr_fixtures::{CLASSES, CLASSES_OF_A, NO_CLASSES, NO_POOLS, RINGS};
use jfr_header::is_cut;
use std::alloc::Global;

/// The records of a chunk: its metadata record, those after it, and the offset of its last checkpoint.
pub(crate) type Records = (&'static [u8], &'static [u8], u64);

/// The chunk of rings.
pub(crate) const INPUT: Records = (CLASSES, RINGS, 333);

/// Its output if only its first event is kept.
pub(crate) const FIRST: Records = (CLASSES_OF_A, FIRST_RING, 307);

/// The receipt of this output.
pub(crate) const RIGHT: &[u8] = &[2, 0, 0, 0, 1, 1, 0];

/// The plain chunk, which has no events.
pub(crate) const PLAIN: Records = (NO_CLASSES, NO_POOLS, 96);

/// The first event, and a checkpoint with the first ring.
#[rattlefmt::skip]
pub(crate) const FIRST_RING: &[u8] = &[
    5, 8, 0xAC, 2, 1,     // t.A: 300, node 1
    19, 1, 0, 0, 0, 0, 1, // a checkpoint of 19 bytes, one pool
    7, 2,                 // 2 of t.Node
    1, 2, 3, 1, 0x70,     // 1: next 2, p
    2, 1, 3, 1, 0x71,     // 2: next 1, q
];

/// With both rings.
#[rattlefmt::skip]
pub(crate) const BOTH_RINGS: &[u8] = &[
    5, 8, 0xAC, 2, 1,     // t.A: 300, node 1
    29, 1, 0, 0, 0, 0, 1, // a checkpoint of 29 bytes, one pool
    7, 4,                 // 4 of t.Node
    1, 2, 3, 1, 0x70,     // 1: next 2, p
    2, 1, 3, 1, 0x71,     // 2: next 1, q
    3, 4, 3, 1, 0x72,     // 3: next 4, r
    4, 3, 3, 1, 0x73,     // 4: next 3, s
];

/// With the first node of the first ring, and without nodes.
#[rattlefmt::skip]
pub(crate) const ONE_NODE: &[u8] = &[
    5, 8, 0xAC, 2, 1,     // t.A: 300, node 1
    14, 1, 0, 0, 0, 0, 1, // a checkpoint of 14 bytes, one pool
    7, 1,                 // 1 of t.Node
    1, 2, 3, 1, 0x70,     // 1: next 2, p
];

pub(crate) const NO_NODE: &[u8] = &[5, 8, 0xAC, 2, 1, 7, 1, 0, 0, 0, 0, 0];

/// With the nodes of the first ring in the other order, and with another text in the second.
#[rattlefmt::skip]
pub(crate) const SWAPPED: &[u8] = &[
    5, 8, 0xAC, 2, 1,     // t.A: 300, node 1
    19, 1, 0, 0, 0, 0, 1, // a checkpoint of 19 bytes, one pool
    7, 2,                 // 2 of t.Node
    2, 1, 3, 1, 0x71,     // 2: next 1, q
    1, 2, 3, 1, 0x70,     // 1: next 2, p
];

#[rattlefmt::skip]
pub(crate) const ANOTHER_TEXT: &[u8] = &[
    5, 8, 0xAC, 2, 1,     // t.A: 300, node 1
    19, 1, 0, 0, 0, 0, 1, // a checkpoint of 19 bytes, one pool
    7, 2,                 // 2 of t.Node
    1, 2, 3, 1, 0x70,     // 1: next 2, p
    2, 1, 3, 1, 0x78,     // 2: next 1, x
];

/// Reads a whole chunk.
pub(crate) fn read<'a>(alloc: Global, bytes: &'a [u8]) -> Result<Chunk<'a>, ReadFault> {
    if !is_cut(bytes) {
        return Err(ReadFault::Memory);
    }
    Chunk::read(alloc, bytes)
}

/// The filter that keeps the events of `t.A`.
pub(crate) fn only_first(alloc: Global) -> Result<Filter, FilterFault> {
    let mut filter = Filter::new(alloc);
    filter.add(Side::IncludeEvents, "t.A")?;
    Ok(filter)
}
