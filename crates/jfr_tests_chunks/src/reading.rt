//! Small chunks, and edits of them. Places count from the chunk's first byte.
use jfr_base::{Flaw, ReadFault, Reason};
use jfr_chunk::{Buffers, Chunk};
use jfr_fixtures::{
    BYTES_LEFT, CLASSES, NO_CLASSES, NO_NODES, NO_POOLS, RINGS, chunk_of, inert, plain_with,
    with_classes,
};
use jfr_header::is_cut;
use std::alloc::{AllocError, Global};
use std::process::Abort;
use std::test::Fail;

/// Reads a whole chunk.
pub(crate) fn read<'a>(alloc: Global, bytes: &'a [u8]) -> Result<Chunk<'a>, ReadFault> {
    if !is_cut(bytes) {
        return Err(ReadFault::Memory);
    }
    Chunk::read(alloc, bytes)
}

/// Reads a whole chunk, and lends it.
pub(crate) fn with_chunk<F: FnOnce(&Chunk<'_>) -> Result<(), Fail> + Drop>(
    alloc: Global,
    bytes: &[u8],
    see: F,
) -> Result<(), Fail>
    requires { F.IsAlwaysCallable see }
{
    let chunk = read(alloc, bytes)?;
    see(&chunk)
}

/// The records of a chunk, and the place of its last checkpoint.
pub(crate) type Records = (&'static [&'static [u8]], u64);

/// The plain chunk.
const PLAIN: Records = (&[NO_CLASSES, NO_POOLS], 96);

/// Two events, and the nodes to which they refer.
const EVENTS_AND_NODES: Records = (&[CLASSES, RINGS], 333);

/// Only the events.
const EVENTS: Records = (&[CLASSES, NO_NODES], 333);

/// A checkpoint that refers to the one before.
const OLDER: &[u8] = &[
    15, 1, 0, 0, 0xf9, 0xff, 0xff, 0xff, 0xff, 0xff, 0xff, 0xff, 0xff, 0, 0,
];

/// The plain chunk with it.
pub(crate) const CHAINED: Records = (&[NO_CLASSES, NO_POOLS, OLDER], 103);

/// How many events, chained checkpoints, entries and inert records a chunk has.
type Counts = (usize, usize, usize, u64);

fn counts_of(chunk: &Chunk<'_>) -> Counts {
    (
        chunk.event_count(),
        chunk.chain().len(),
        chunk.pools().len(),
        chunk.inert_count(),
    )
}

/// Compares how many a chunk has.
fn compare_counts(
    rt: &impl Abort,
    alloc: Global,
    bytes: &[u8],
    counts: Counts,
) -> Result<(), Fail> {
    with_chunk(alloc, bytes, |chunk| {
        assert_eq!(rt; counts_of(chunk), counts);
        Ok(())
    })
}

/// Compares how many the chunk of these records has.
fn compare_counted(
    rt: &impl Abort,
    alloc: Global,
    (records, last): Records,
    counts: Counts,
) -> Result<(), Fail> {
    let bytes = chunk_of(alloc, records, last, 68)?;
    compare_counts(rt, alloc, &bytes, counts)
}

const COUNTED: [(Records, Counts); 4] = [
    (PLAIN, (0, 1, 0, 0)),
    (EVENTS_AND_NODES, (2, 1, 4, 0)),
    (EVENTS, (2, 1, 0, 0)),
    (CHAINED, (0, 2, 0, 0)),
];

#[test]
fn counts_what_a_chunk_has(rt: HostRuntime) -> Result<(), Fail> {
    for (records, counts) in COUNTED.iter() {
        compare_counted(&rt, rt.alloc(), *records, *counts)?;
    }
    compare_counts(&rt, rt.alloc(), &inert(rt.alloc())?, (0, 1, 0, 3))
}

/// The class, the key and the event of a reference without an entry.
type Missing = (u64, u64, usize);

/// The nodes to which the events refer, of which none is there.
const NODES: &[Missing] = &[(7, 1, 0), (7, 3, 1)];

/// Whether these are the references of the events that have no entry.
fn has_missing(chunk: &Chunk<'_>, missing: &[Missing]) -> bool {
    let Some(found) = chunk.missing_refs() else {
        return false;
    };
    for (number, wanted) in missing.iter().enumerate() {
        match found.get(number) {
            Some(noted) if (noted.class, noted.key, noted.event) == *wanted => {}
            _ => return false,
        }
    }
    found.len() == missing.len()
}

/// Compares what the events of the chunk of these records refer to without an entry.
fn compare_missing(
    rt: &impl Abort,
    alloc: Global,
    (records, last): Records,
    missing: &[Missing],
) -> Result<(), Fail> {
    let bytes = chunk_of(alloc, records, last, 68)?;
    with_chunk(alloc, &bytes, |chunk| {
        assert!(rt; has_missing(chunk, missing));
        Ok(())
    })
}

#[test]
fn references_without_entries_are_noted(rt: HostRuntime) -> Result<(), Fail> {
    compare_missing(&rt, rt.alloc(), EVENTS_AND_NODES, &[])?;
    compare_missing(&rt, rt.alloc(), EVENTS, NODES)
}

/// The entry of a key, and the offset of the key.
type Place = (u32, u32);

/// The place of the first key of an event, if it is noted.
fn place_of_key(chunk: &Chunk<'_>, event: usize) -> Option<Place> {
    let key = chunk.event_keys(event)?.first()?;
    Some((key.entry, key.at))
}

/// Compares where the keys of both events of the chunk of these records are, if it is read with this memory.
fn compare_places(
    rt: &impl Abort,
    alloc: Global,
    buffers: Buffers,
    (records, last): Records,
    places: (Option<Place>, Option<Place>),
) -> Result<(), Fail> {
    let bytes = chunk_of(alloc, records, last, 68)?;
    assert!(rt; is_cut(&bytes));
    let chunk = Chunk::read_in(alloc, buffers, &bytes)?;
    assert_eq!(rt; (place_of_key(&chunk, 0), place_of_key(&chunk, 1)), places);
    Ok(())
}

#[test]
fn places_of_keys_are_noted_on_request(rt: HostRuntime) -> Result<(), Fail> {
    let alloc = rt.alloc();
    let places = (Some((0, 329)), Some((2, 332)));
    compare_places(
        &rt,
        alloc,
        Buffers::noting_keys(alloc),
        EVENTS_AND_NODES,
        places,
    )?;
    compare_places(
        &rt,
        alloc,
        Buffers::noting_keys(alloc),
        EVENTS,
        (None, None),
    )?;
    compare_places(
        &rt,
        alloc,
        Buffers::new(alloc),
        EVENTS_AND_NODES,
        (None, None),
    )
}

/// Compares the second of two events, whose last field isn't the end of its record.
fn compare_last_event(rt: &impl Abort, chunk: &Chunk<'_>) -> Result<(), Fail> {
    assert_eq!(rt; chunk.event_count(), 2);
    let event = chunk.event(1).ok_or("no second event")?;
    let places = (
        event.frame.at,
        event.node.at,
        event.node.end,
        event.frame.size,
    );
    assert_eq!(rt; places, (330, 332, 333, 4));
    assert!(rt; chunk.event(2).is_none());
    assert_eq!(rt; chunk.event_record(1), Some(2));
    assert!(rt; chunk.event_record(2).is_none());
    Ok(())
}

#[test]
fn events_end_with_their_last_field(rt: HostRuntime) -> Result<(), Fail> {
    let bytes = with_classes(rt.alloc(), BYTES_LEFT, 334)?;
    with_chunk(rt.alloc(), &bytes, |chunk| compare_last_event(&rt, chunk))
}

/// The places of bytes and what they become, and the flaw.
type Edit = (&'static [(usize, u8)], u64, Reason);

const EDITS_OF_PLAIN: [Edit; 14] = [
    (&[(96, 8)], 96, Reason::RecordSize),
    (&[(96, 1)], 96, Reason::RecordSize),
    (&[(31, 69)], 24, Reason::MetadataPosition),
    (&[(23, 68)], 16, Reason::PoolPosition),
    (&[(100, 1)], 100, Reason::ChainDelta),
    (&[(73, 0x7F)], 96, Reason::Short),
    (&[(74, 2)], 74, Reason::StringKind),
    (&[(74, 6)], 74, Reason::StringKind),
    (&[(90, 2)], 90, Reason::StringIndex),
    (&[(93, 0)], 90, Reason::NoClasses),
    (&[(31, 69), (96, 8)], 96, Reason::RecordSize),
    (&[(23, 68), (31, 69)], 24, Reason::MetadataPosition),
    (&[(23, 68), (100, 1)], 16, Reason::PoolPosition),
    (&[(74, 2), (100, 1)], 100, Reason::ChainDelta),
];

const EDITS_OF_EVENTS_AND_NODES: [Edit; 13] = [
    (&[(250, 9)], 245, Reason::ClassBad),
    (&[(257, 15)], 252, Reason::ClassTwice),
    (&[(280, 21)], 275, Reason::FieldBad),
    (&[(278, 20)], 275, Reason::FieldTwice),
    (&[(245, 6)], 291, Reason::UnknownType),
    (&[(248, 13)], 291, Reason::EmptyInline),
    (&[(272, 8)], 259, Reason::InlineDeep),
    (&[(340, 10)], 340, Reason::PoolType),
    (&[(341, 5)], 362, Reason::Short),
    (&[(341, 3)], 357, Reason::Trailing),
    (&[(332, 0x83)], 332, Reason::Short),
    (&[(250, 9), (340, 10)], 245, Reason::ClassBad),
    (&[(332, 0x83), (340, 10)], 340, Reason::PoolType),
];

const EDITS_OF_EVENTS: [Edit; 1] = [(&[(332, 0x83)], 332, Reason::Short)];

const EDITED: [(Records, &[Edit]); 3] = [
    (PLAIN, &EDITS_OF_PLAIN),
    (EVENTS_AND_NODES, &EDITS_OF_EVENTS_AND_NODES),
    (EVENTS, &EDITS_OF_EVENTS),
];

/// The fault of a flaw.
fn flawed(offset: u64, reason: Reason) -> Option<ReadFault> {
    Some(ReadFault::Flawed(Flaw { offset, reason }))
}

/// Compares why a chunk isn't read. If it is, there is no fault.
fn compare_fault(rt: &impl Abort, alloc: Global, bytes: &[u8], fault: Option<ReadFault>) {
    assert_eq!(rt; read(alloc, bytes).err(), fault);
}

/// Edits some bytes.
fn edit(bytes: &mut [u8], edits: &[(usize, u8)]) {
    for (at, byte) in edits {
        if let Some(edited) = bytes.get_mut(*at) {
            *edited = *byte;
        }
    }
}

/// Compares the flaw of a chunk with some bytes edited.
fn compare_edit(
    rt: &impl Abort,
    alloc: Global,
    (records, last): Records,
    (edits, offset, reason): Edit,
) -> Result<(), Fail> {
    let mut bytes = chunk_of(alloc, records, last, 68)?;
    edit(&mut bytes, edits);
    compare_fault(rt, alloc, &bytes, flawed(offset, reason));
    Ok(())
}

/// Compares the flaw of each edit of a chunk.
fn compare_edits(
    rt: &impl Abort,
    alloc: Global,
    records: Records,
    edits: &[Edit],
) -> Result<(), Fail> {
    for edit in edits {
        compare_edit(rt, alloc, records, *edit)?;
    }
    Ok(())
}

#[test]
fn the_first_flaw_is_reported(rt: HostRuntime) -> Result<(), Fail> {
    for (records, edits) in EDITED.iter() {
        compare_edits(&rt, rt.alloc(), *records, edits)?;
    }
    Ok(())
}

/// Compares the flaw of the plain chunk with another checkpoint.
fn compare_checkpoint(
    rt: &impl Abort,
    alloc: Global,
    checkpoint: &[u8],
    offset: u64,
    reason: Reason,
) -> Result<(), Fail> {
    let bytes = plain_with(alloc, NO_CLASSES, checkpoint)?;
    compare_fault(rt, alloc, &bytes, flawed(offset, reason));
    Ok(())
}

#[test]
fn checkpoints_end_with_their_last_pool(rt: HostRuntime) -> Result<(), Fail> {
    compare_checkpoint(&rt, rt.alloc(), &[4, 1, 0, 0], 100, Reason::Short)?;
    let byte_left = &[8, 1, 0, 0, 0, 0, 0, 0];
    compare_checkpoint(&rt, rt.alloc(), byte_left, 103, Reason::Trailing)
}

/// Adds elements, each of which is a child of the one before.
fn push_levels(metadata: &mut Vec<u8>, levels: u8) -> Result<(), AllocError> {
    for _ in 1..levels {
        metadata.extend_from_slice(&[1, 0, 1])?;
    }
    metadata.extend_from_slice(&[1, 0, 0])
}

/// A chunk whose elements are this many levels deep.
fn chunk_of_levels(alloc: Global, levels: u8) -> Result<Vec<u8>, AllocError> {
    let (head, _) = NO_CLASSES.split_at(22);
    let mut metadata = Vec::from_slice(alloc, head)?;
    push_levels(&mut metadata, levels)?;
    if let Some(size) = metadata.get_mut(0) {
        *size = 22u8.saturating_add(levels.saturating_mul(3));
    }
    plain_with(alloc, &metadata, NO_POOLS)
}

/// Compares why it isn't read.
fn compare_levels(
    rt: &impl Abort,
    alloc: Global,
    levels: u8,
    fault: Option<ReadFault>,
) -> Result<(), Fail> {
    let bytes = chunk_of_levels(alloc, levels)?;
    compare_fault(rt, alloc, &bytes, fault);
    Ok(())
}

#[test]
fn sixteen_levels_are_read(rt: HostRuntime) -> Result<(), Fail> {
    compare_levels(&rt, rt.alloc(), 16, None)?;
    compare_levels(&rt, rt.alloc(), 17, flawed(138, Reason::TreeDeep))
}
