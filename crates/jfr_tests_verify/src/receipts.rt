//! Receipts that are written.
use crate::outputs::{
    ANOTHER_TEXT, FIRST, INPUT, NO_NODE, ONE_NODE, PLAIN, RIGHT, Records, SWAPPED, read,
};
use jfr_base::NoMemory;
use jfr_chunk::{Chunk, Kept};
use jfr_fixtures::{
    CLASSES, CLASSES_OF_A, RINGS, THREAD_AND_SYMBOLS, jdk_after, jdk_like, with_metadata,
};
use jfr_verify::{receipt_of, receipt_of_scrub};
use std::alloc::{AllocError, Global};
use std::process::Abort;
use std::test::Fail;

/// A chunk and its receipt.
type Row = (Records, &'static [u8]);

#[rattlefmt::skip]
const ROWS: [Row; 7] = [
    (FIRST, RIGHT),
    ((CLASSES_OF_A, ANOTHER_TEXT, 307), RIGHT),
    ((CLASSES_OF_A, SWAPPED, 307), &[2, 1, 0, 0, 0, 1, 1]),
    ((CLASSES_OF_A, ONE_NODE, 307), &[1, 0, 0, 0]),
    ((CLASSES_OF_A, NO_NODE, 307), &[0]),
    (PLAIN, &[0]),
    (INPUT, &[4, 0, 0, 0, 2, 0, 1, 1, 1, 0, 3, 1, 2]),
];

/// Compares the receipt of a chunk.
fn compare_chunk(
    rt: &impl Abort,
    alloc: Global,
    chunk: &Chunk<'_>,
    expected: &[u8],
) -> Result<(), Fail> {
    let receipt = receipt_of(alloc, chunk)?;
    assert_eq!(rt; receipt.bytes(), expected);
    Ok(())
}

/// Reads a chunk, and compares its receipt.
fn compare_bytes(
    rt: &impl Abort,
    alloc: Global,
    bytes: &[u8],
    expected: &[u8],
) -> Result<(), Fail> {
    let chunk = read(alloc, bytes)?;
    compare_chunk(rt, alloc, &chunk, expected)
}

/// Compares the receipt of the chunk of a row.
fn compare_row(
    rt: &impl Abort,
    alloc: Global,
    ((metadata, records, last), receipt): Row,
) -> Result<(), Fail> {
    let bytes = with_metadata(alloc, metadata, records, last)?;
    compare_bytes(rt, alloc, &bytes, receipt)
}

/// What is left of the chunk that is like the JDK's if all events are kept: its last checkpoint is 16 bytes
/// nearer to the first.
fn jdk_left(alloc: Global) -> Result<Vec<u8>, AllocError> {
    let mut chunk = jdk_after(alloc, THREAD_AND_SYMBOLS, 1253, 162)?;
    if let Some(delta) = chunk.get_mut(1260) {
        *delta = 0xDF;
    }
    Ok(chunk)
}

/// Its receipt.
const JDK_RECEIPT: &[u8] = &[
    13, 0, 0, 0, 11, 0, 0, 5, 0, 0, 4, 0, 1, 12, 0, 1, 6, 0, 1, 9, 1, 11, 1, 1, 5, 10, 1, 12, 7, 1,
    6, 2, 1, 9, 3, 1, 9, 8, 1, 10,
];

/// Compares the receipt of what is left of the chunk that is like the JDK's.
fn compare_jdk(rt: &impl Abort, alloc: Global) -> Result<(), Fail> {
    let bytes = jdk_left(alloc)?;
    compare_bytes(rt, alloc, &bytes, JDK_RECEIPT)
}

#[test]
fn receipts_are_written(rt: HostRuntime) -> Result<(), Fail> {
    for row in ROWS.iter() {
        compare_row(&rt, rt.alloc(), *row)?;
    }
    compare_jdk(&rt, rt.alloc())
}

/// Compares the receipt of a chunk's scrub, made from the chunk.
fn compare_scrub(
    rt: &impl Abort,
    alloc: Global,
    chunk: &Chunk<'_>,
    kept: &Kept,
    expected: &[u8],
) -> Result<(), Fail> {
    let receipt = receipt_of_scrub(alloc, chunk, kept)?;
    assert_eq!(rt; receipt.bytes(), expected);
    Ok(())
}

/// Compares that of the chunk of rings if no event is kept.
fn compare_none(rt: &impl Abort, alloc: Global, rings: &Chunk<'_>) -> Result<(), Fail> {
    let kept = Kept::new(alloc, 2)?;
    compare_scrub(rt, alloc, rings, &kept, &[0])
}

/// The choice of the second of two events.
fn only_second(alloc: Global) -> Result<Kept, NoMemory> {
    let mut kept = Kept::new(alloc, 2)?;
    kept.set(1, true);
    Ok(kept)
}

/// Compares that of the chunk of rings if the second event is kept.
fn compare_second(rt: &impl Abort, alloc: Global, rings: &Chunk<'_>) -> Result<(), Fail> {
    let kept = only_second(alloc)?;
    compare_scrub(rt, alloc, rings, &kept, &[2, 0, 0, 0, 1, 1, 0])
}

/// Compares both.
fn compare_rings(rt: &impl Abort, alloc: Global, bytes: &[u8]) -> Result<(), Fail> {
    let rings = read(alloc, bytes)?;
    compare_none(rt, alloc, &rings)?;
    compare_second(rt, alloc, &rings)
}

/// Compares that of a chunk if all events are kept.
fn compare_all(
    rt: &impl Abort,
    alloc: Global,
    chunk: &Chunk<'_>,
    expected: &[u8],
) -> Result<(), Fail> {
    let kept = chunk.keep_all(alloc)?;
    compare_scrub(rt, alloc, chunk, &kept, expected)
}

/// Compares that of the chunk that is like the JDK's if all events are kept.
fn compare_jdk_scrub(rt: &impl Abort, alloc: Global) -> Result<(), Fail> {
    let bytes = jdk_like(alloc)?;
    let chunk = read(alloc, &bytes)?;
    compare_all(rt, alloc, &chunk, JDK_RECEIPT)
}

#[test]
fn receipts_of_scrubs_are_written(rt: HostRuntime) -> Result<(), Fail> {
    compare_jdk_scrub(&rt, rt.alloc())?;
    let bytes = with_metadata(rt.alloc(), CLASSES, RINGS, 333)?;
    compare_rings(&rt, rt.alloc(), &bytes)
}
