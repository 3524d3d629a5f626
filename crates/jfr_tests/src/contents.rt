//! What files have, as constants.
use crate::pieces::{Piece, source_of, sources_of};
use jfr_fixtures::{
    CLASSES, NO_CLASSES, NO_POOLS, PLAIN, RINGS, UNKNOWN, assembled, chunk_of, jdk_after, jdk_like,
    jdk_unnamed,
};
use std::alloc::{AllocError, Global};

/// A part of a file.
#[derive(Clone, Copy)]
pub(crate) enum FilePart {
    /// These bytes.
    Bytes(&'static [u8]),
    /// The plain chunk.
    Plain,
    /// The first bytes of the plain chunk.
    Start(usize),
    /// A chunk of these records, by the places of its last checkpoint and of its metadata record.
    Chunk(&'static [&'static [u8]], u64, u64),
    /// A chunk of these pieces, by the same places.
    Assembled(&'static [Piece], u64, u64),
    /// The chunk that is like the JDK's.
    JdkLike,
    /// This chunk with another first checkpoint, by the places of its last checkpoint and of its metadata record.
    JdkAfter(Piece, u64, u64),
    /// This chunk, where the later thread of key 2 has a Java name of this kind.
    JdkUnnamed(u8),
}

/// The chunk of rings.
pub(crate) const OF_RINGS: FilePart = FilePart::Chunk(&[CLASSES, RINGS], 333, 68);

/// The plain chunk with inert records: a metadata record and a checkpoint that aren't at the positions in the header,
/// and between these and those that are, a record whose type is no class.
pub(crate) const INERT: FilePart = FilePart::Chunk(
    &[NO_CLASSES, NO_POOLS, UNKNOWN, NO_CLASSES, NO_POOLS],
    134,
    106,
);

/// Parts, one after another, and the places of bytes that are changed then, with what they become.
pub(crate) type Content = (&'static [FilePart], &'static [(usize, u8)]);

/// No bytes.
pub(crate) const EMPTY: Content = (&[], &[]);

/// The plain chunk, once, twice, and three times.
pub(crate) const ONE_PLAIN: Content = (&[FilePart::Plain], &[]);

pub(crate) const TWO_PLAIN: Content = (&[FilePart::Plain, FilePart::Plain], &[]);

pub(crate) const THREE_PLAIN: Content = (&[FilePart::Plain, FilePart::Plain, FilePart::Plain], &[]);

/// A chunk of pieces, by the places of its last checkpoint and of its metadata record.
fn assembled_chunk(
    alloc: Global,
    pieces: &[Piece],
    last: u64,
    metadata: u64,
) -> Result<Vec<u8>, AllocError> {
    let records = assembled(alloc, &sources_of(alloc, pieces)?)?;
    chunk_of(alloc, &[&records], last, metadata)
}

/// The bytes of a part.
fn part_bytes(alloc: Global, part: FilePart) -> Result<Vec<u8>, AllocError> {
    match part {
        FilePart::Bytes(bytes) => Vec::from_slice(alloc, bytes),
        FilePart::Plain => Vec::from_slice(alloc, &PLAIN),
        FilePart::Start(size) => Vec::from_slice(alloc, &PLAIN[..size.min(103)]),
        FilePart::Chunk(records, last, metadata) => chunk_of(alloc, records, last, metadata),
        FilePart::Assembled(pieces, last, metadata) => assembled_chunk(
            alloc, pieces, last, metadata,
        ),
        FilePart::JdkLike => jdk_like(alloc),
        FilePart::JdkAfter(first, last, metadata) => jdk_after(
            alloc,
            source_of(first),
            last,
            metadata,
        ),
        FilePart::JdkUnnamed(kind) => jdk_unnamed(alloc, kind),
    }
}

/// Adds parts.
fn push_parts(bytes: &mut Vec<u8>, alloc: Global, parts: &[FilePart]) -> Result<(), AllocError> {
    for part in parts {
        bytes.extend_from_slice(&part_bytes(alloc, *part)?)?;
    }
    Ok(())
}

/// Changes bytes.
fn change(bytes: &mut [u8], changes: &[(usize, u8)]) {
    for (at, byte) in changes {
        if let Some(there) = bytes.get_mut(*at) {
            *there = *byte;
        }
    }
}

/// The bytes of a content.
pub(crate) fn bytes_of(alloc: Global, (parts, changes): Content) -> Result<Vec<u8>, AllocError> {
    let mut bytes = Vec::new(alloc);
    push_parts(&mut bytes, alloc, parts)?;
    change(&mut bytes, changes);
    Ok(bytes)
}
