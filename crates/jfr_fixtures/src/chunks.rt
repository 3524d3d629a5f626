//! Whole chunks.
use crate::records::{CLASSES, NO_CLASSES, NO_POOLS, UNKNOWN};
use jfr_header::{HEADER_LEN, Header, write_header};
use std::alloc::{AllocError, Global};

/// The plain chunk: a header, a metadata record without classes, and a checkpoint without pools.
#[rattlefmt::skip]
pub const PLAIN: [u8; 103] = [
    b'F', b'L', b'R', 0, 0, 2, 0, 1,                // chunk format 2.1
    0, 0, 0, 0, 0, 0, 0, 103, 0, 0, 0, 0, 0, 0, 0, 96, // its size, and where its checkpoint is
    0, 0, 0, 0, 0, 0, 0, 68,                        // where its metadata record is
    0, 0, 0, 0, 0, 0, 0x03, 0xE8, 0, 0, 0, 0, 0, 0, 0, 5, // it starts at 1000 ns and takes 5 ns
    0, 0, 0, 0, 0, 0, 0, 0,                         // it starts at tick 0
    0, 0, 0, 0, 0x3B, 0x9A, 0xCA, 0, 0, 0, 0, 1,    // 1,000,000,000 ticks a second; compressed integers
    28, 0, 0, 0, 1, 2,                              // at 68: 28 bytes, a metadata record with 2 texts
    3, 4, b'r', b'o', b'o', b't',
    3, 8, b'm', b'e', b't', b'a', b'd', b'a', b't', b'a',
    0, 0, 1,                                        // root
    1, 0, 0,                                        //   metadata
    7, 1, 0, 0, 0, 0, 0,                            // at 96: 7 bytes, a checkpoint without pools
];

/// When a chunk starts and how long it takes, in nanoseconds, and its minor version.
#[derive(Clone, Copy, Debug)]
pub struct Times {
    pub start: u64,
    pub duration: u64,
    pub minor: u16,
}

/// The times of the plain chunk.
pub const USUAL: Times = Times {
    start: 1000,
    duration: 5,
    minor: 1,
};

/// A chunk of these records, by the places of its last checkpoint and of its metadata record. Everything else
/// in its header is as in the plain chunk.
pub fn chunk_of(
    alloc: Global,
    records: &[&[u8]],
    pools: u64,
    metadata: u64,
) -> Result<Vec<u8>, AllocError> {
    chunk_at(alloc, USUAL, records, pools, metadata)
}

/// A chunk as `chunk_of` makes it, with these times in its header.
pub fn chunk_at(
    alloc: Global,
    times: Times,
    records: &[&[u8]],
    pools: u64,
    metadata: u64,
) -> Result<Vec<u8>, AllocError> {
    let mut bytes = Vec::from_slice(alloc, [0; HEADER_LEN].as_slice())?;
    for record in records {
        bytes.extend_from_slice(record)?;
    }
    let header = Header {
        major: 2,
        minor: times.minor,
        size: bytes.len() as u64,
        pools,
        metadata,
        start_nanos: times.start,
        duration_nanos: times.duration,
        start_ticks: 0,
        ticks_per_second: 1_000_000_000,
        state: 0,
        padding: 0,
        flags: 1,
    };
    if let Some(front) = bytes.first_chunk_mut::<HEADER_LEN>() {
        write_header(&header, front);
    }
    Ok(bytes)
}

/// A chunk of a metadata record at 68, and these records after it, of which the one at `last` is the last
/// checkpoint.
pub fn with_metadata(
    alloc: Global,
    metadata: &[u8],
    records: &[u8],
    last: u64,
) -> Result<Vec<u8>, AllocError> {
    chunk_of(alloc, &[metadata, records], last, 68)
}

/// A chunk of the record of the classes at 68, and these records from 325 on, of which the one at `last`
/// is the last checkpoint.
pub fn with_classes(alloc: Global, records: &[u8], last: u64) -> Result<Vec<u8>, AllocError> {
    with_metadata(alloc, CLASSES, records, last)
}

/// The plain chunk with another metadata record and another checkpoint.
pub fn plain_with(
    alloc: Global,
    metadata: &[u8],
    checkpoint: &[u8],
) -> Result<Vec<u8>, AllocError> {
    let last = HEADER_LEN.saturating_add(metadata.len()) as u64;
    chunk_of(alloc, &[metadata, checkpoint], last, 68)
}

/// The plain chunk with inert records: a metadata record and a checkpoint that aren't at the positions in the
/// header, and between these and those that are, a record whose type is no class.
pub fn inert(alloc: Global) -> Result<Vec<u8>, AllocError> {
    inert_at(alloc, USUAL)
}

/// A chunk as `inert` makes it, with these times in its header.
pub fn inert_at(alloc: Global, times: Times) -> Result<Vec<u8>, AllocError> {
    let records = [NO_CLASSES, NO_POOLS, UNKNOWN, NO_CLASSES, NO_POOLS];
    chunk_at(alloc, times, &records, 134, 106)
}
