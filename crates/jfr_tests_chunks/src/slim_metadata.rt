//! The metadata record without event classes that aren't used.
use crate::reading::with_chunk;
use jfr_chunk::Chunk;
use jfr_fixtures::{CLASSES_OF_A, CLASSES_OF_B, NO_EVENT_CLASSES, RINGS, with_classes};
use jfr_meta::{Ids, slim, staying};
use jfr_outside::NoMemory;
use std::alloc::Global;
use std::process::Abort;
use std::test::Fail;

/// The set of these ids.
fn ids_of(alloc: Global, members: &[u64]) -> Result<Ids, NoMemory> {
    let mut ids = Ids::new(alloc);
    for id in members {
        ids.insert(*id)?;
    }
    Ok(ids)
}

/// The metadata record of a chunk where these event classes are used, if there is room for it.
fn slimmed(
    alloc: Global,
    chunk: &Chunk<'_>,
    used: &[u64],
    room: usize,
) -> Result<Option<Vec<u8>>, NoMemory> {
    let used = ids_of(alloc, used)?;
    let metadata = chunk.metadata();
    let stay = staying(alloc, metadata, &used)?;
    slim(alloc, metadata, &stay, room)
}

/// The event classes that are used, how much room there is, and the record.
type Row = (&'static [u64], usize, Option<&'static [u8]>);

const ROWS: [Row; 6] = [
    (&[8], 257, Some(CLASSES_OF_A)),
    (&[8], 234, Some(CLASSES_OF_A)),
    (&[8], 233, None),
    (&[9], 257, Some(CLASSES_OF_B)),
    (&[], 257, Some(NO_EVENT_CLASSES)),
    (&[8, 9], 257, None),
];

/// Compares the record.
fn compare_slim(
    rt: &impl Abort,
    alloc: Global,
    chunk: &Chunk<'_>,
    (used, room, left): Row,
) -> Result<(), Fail> {
    let found = slimmed(alloc, chunk, used, room)?;
    assert_eq!(rt; found.as_ref().map(|bytes| bytes.as_slice()), left);
    Ok(())
}

/// Compares each record.
fn compare_all(rt: &impl Abort, alloc: Global, chunk: &Chunk<'_>) -> Result<(), Fail> {
    for row in ROWS.iter() {
        compare_slim(rt, alloc, chunk, *row)?;
    }
    Ok(())
}

/// They are those of the chunk of rings.
#[test]
fn event_classes_that_are_not_used_go(rt: HostRuntime) -> Result<(), Fail> {
    let bytes = with_classes(rt.alloc(), RINGS, 333)?;
    with_chunk(rt.alloc(), &bytes, |chunk| {
        compare_all(&rt, rt.alloc(), chunk)
    })
}
