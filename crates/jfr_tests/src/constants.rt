//! Scrubs of chunks with constants.
use crate::contents::FilePart::Chunk;
use crate::contents::OF_RINGS;
use crate::outputs::{Refused, Scrub, run_in_memory, see_refused, see_scrubs};
use crate::runs::SCRUB;
use jfr_fixtures::{
    BYTES_LEFT, CLASSES, CLASSES_OF_A, NO_NODES, STRINGS, STRINGS_SCRUBBED, THREE, THREE_SCRUBBED,
    TWICE, TWICE_SCRUBBED, WIDE, WIDE_SCRUBBED, with_classes, with_metadata,
};
use std::alloc::{AllocError, Global};
use std::process::Abort;
use std::test::Fail;

/// What events reach stays, and nothing else does. With the events of `t.B` its description goes too.
#[rattlefmt::skip]
static LEFT: [Scrub; 7] = [
    (SCRUB, (&[OF_RINGS], &[]), 0, "", (&[OF_RINGS], &[])),
    (SCRUB, (&[Chunk(&[CLASSES, BYTES_LEFT], 334, 68)], &[]), 0, "", (&[Chunk(&[CLASSES, BYTES_LEFT], 334, 68)], &[])),
    (SCRUB, (&[Chunk(&[CLASSES, NO_NODES], 333, 68)], &[]), 0, "", (&[Chunk(&[CLASSES, NO_NODES], 333, 68)], &[])),
    (SCRUB, (&[Chunk(&[CLASSES, TWICE], 344, 68)], &[]), 0, "", (&[Chunk(&[CLASSES_OF_A, TWICE_SCRUBBED], 314, 68)], &[])),
    (SCRUB, (&[Chunk(&[CLASSES, THREE], 366, 68)], &[]), 0, "", (&[Chunk(&[CLASSES_OF_A, THREE_SCRUBBED], 336, 68)], &[])),
    (SCRUB, (&[Chunk(&[CLASSES, STRINGS], 330, 68)], &[]), 0, "", (&[Chunk(&[CLASSES_OF_A, STRINGS_SCRUBBED], 307, 68)], &[])),
    (SCRUB, (&[Chunk(&[CLASSES, WIDE], 352, 68)], &[]), 0, "", (&[Chunk(&[CLASSES_OF_A, WIDE_SCRUBBED], 322, 68)], &[])),
];

#[test]
fn constants_that_are_reached_stay(rt: HostRuntime) -> Result<(), Fail> {
    see_scrubs(&rt, rt.alloc(), &LEFT)
}

/// One byte of a chunk is changed, and it is refused for the first flaw.
#[rattlefmt::skip]
static CHANGED: [Refused; 11] = [
    ((&[OF_RINGS], &[(250, 0x09)]), "chunk 1 offset 245: ClassBad\n"),
    ((&[OF_RINGS], &[(257, 0x0F)]), "chunk 1 offset 252: ClassTwice\n"),
    ((&[OF_RINGS], &[(280, 0x15)]), "chunk 1 offset 275: FieldBad\n"),
    ((&[OF_RINGS], &[(278, 0x14)]), "chunk 1 offset 275: FieldTwice\n"),
    ((&[OF_RINGS], &[(245, 0x06)]), "chunk 1 offset 291: UnknownType\n"),
    ((&[OF_RINGS], &[(248, 0x0D)]), "chunk 1 offset 291: EmptyInline\n"),
    ((&[OF_RINGS], &[(272, 0x08)]), "chunk 1 offset 259: InlineDeep\n"),
    ((&[OF_RINGS], &[(340, 0x0A)]), "chunk 1 offset 340: PoolType\n"),
    ((&[OF_RINGS], &[(332, 0x83)]), "chunk 1 offset 332: Short\n"),
    ((&[Chunk(&[CLASSES, NO_NODES], 333, 68)], &[(332, 0x83)]), "chunk 1 offset 332: Short\n"),
    ((&[Chunk(&[CLASSES, TWICE], 344, 68)], &[(348, 0xEE)]), "chunk 1 offset 348: ChainDelta\n"),
];

#[test]
fn changed_chunks_with_constants_are_refused(rt: HostRuntime) -> Result<(), Fail> {
    see_refused(&rt, rt.alloc(), &CHANGED)
}

/// How many nodes a long ring has.
const NODES: u64 = 200_000;

/// How far each of them refers.
const FAR: u64 = 77_776;

/// An event, and a checkpoint of 1,400,013 bytes up to the number of its nodes.
const HEAD: &[u8] = &[
    5, 8, 0xAC, 2, 1, 0xCD, 0xB9, 0x55, 1, 0, 0, 0, 0, 1, 7, 0xC0, 0x9A, 0x0C,
];

/// An integer of three bytes.
fn integer(value: u64) -> [u8; 3] {
    [
        (value % 128 + 128) as u8,
        (value / 128 % 128 + 128) as u8,
        (value / 16384 % 128) as u8,
    ]
}

/// Adds a node that refers to the next one.
fn push_node(records: &mut Vec<u8>, key: u64, next: u64) -> Result<(), AllocError> {
    records.extend_from_slice(&integer(key))?;
    records.extend_from_slice(&integer(next))?;
    records.extend_from_slice(&[0])
}

/// Adds the nodes of a long ring, each of which refers to one far away, so that passes over the entries, one after
/// another, would need tens of thousands of them.
fn push_nodes(records: &mut Vec<u8>) -> Result<(), AllocError> {
    for key in 1..=NODES {
        push_node(records, key, (key + FAR) % NODES + 1)?;
    }
    Ok(())
}

/// An event, and a checkpoint with the long ring.
fn long_ring(alloc: Global) -> Result<Vec<u8>, AllocError> {
    let mut records = Vec::from_slice(alloc, HEAD)?;
    push_nodes(&mut records)?;
    Ok(records)
}

/// Compares what is left of a long ring.
fn see_ring(rt: &impl Abort, alloc: Global, records: &[u8], expected: &[u8]) -> Result<(), Fail> {
    let recording = with_classes(alloc, records, 330)?;
    let said = (SCRUB, 0, "", "");
    run_in_memory(rt, alloc, &recording, usize::MAX, said, expected)
}

/// A long ring stays whole, by a walk along it.
#[test]
fn a_long_ring_stays(rt: HostRuntime) -> Result<(), Fail> {
    let records = long_ring(rt.alloc())?;
    let expected = with_metadata(rt.alloc(), CLASSES_OF_A, &records, 307)?;
    see_ring(&rt, rt.alloc(), &records, &expected)
}
