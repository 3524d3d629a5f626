//! Recordings of plain chunks.
use jfr_fixtures::PLAIN;
use std::alloc::{AllocError, Global};

/// Where the start of a chunk has its last byte.
const START: usize = 39;

/// A plain chunk with another start.
pub(crate) fn chunk(start: u8) -> [u8; 103] {
    let mut bytes = PLAIN;
    bytes[START] = start;
    bytes
}

/// Adds plain chunks, and the first bytes of one more.
fn push_chunks(bytes: &mut Vec<u8>, chunks: u8, more: usize) -> Result<(), AllocError> {
    for number in 0..chunks {
        bytes.extend_from_slice(&chunk(number))?;
    }
    bytes.extend_from_slice(&PLAIN[..more.min(103)])
}

/// Plain chunks, and the first bytes of one more. The chunks differ in their starts: that of chunk n ends
/// with n.
pub(crate) fn recording(alloc: Global, chunks: u8, more: usize) -> Result<Vec<u8>, AllocError> {
    let mut bytes = Vec::new(alloc);
    push_chunks(&mut bytes, chunks, more)?;
    Ok(bytes)
}
