//! Chunks with new keys.
use jfr_base::ReadFault;
use jfr_chunk::Chunk;
use jfr_filter::{Filter, FilterFault, Side};
use jfr_fixtures::{CLASSES, CLASSES_OF_A, CLASSES_OF_B, PLAIN, with_classes, with_metadata};
use jfr_header::is_cut;
use jfr_renumber::Renumberer;
use std::alloc::Global;
use std::process::Abort;
use std::test::Fail;

/// A class, a key that is used, and its new key.
type Key = (u64, u64, u64);

/// Records, with the place of the last checkpoint, and the name of the events that are kept, if not all are; the
/// metadata record and the records of the output, with the place of its last checkpoint; and each class and key
/// that is used, with its new key.
struct Row {
    records: &'static [u8],
    last: u64,
    events: Option<&'static str>,
    metadata: &'static [u8],
    renumbered: &'static [u8],
    renumbered_last: u64,
    keys: &'static [Key],
}

#[rattlefmt::skip]
static ROWS: [Row; 11] = [
    // Of two events one is kept.
    Row {
        records: &[5, 8, 0xAC, 2, 1, 3, 9, 3, 0x1D, 1, 0, 0, 0, 0, 1, 7, 4, 1, 2, 3, 1, 0x70, 2, 1, 3, 1, 0x71, 3, 4, 3, 1, 0x72, 4, 3, 3, 1, 0x73],
        last: 333,
        events: Some("t.B"),
        metadata: CLASSES_OF_B,
        renumbered: &[3, 9, 0, 0x13, 1, 0, 0, 0, 0, 1, 7, 2, 0, 1, 3, 1, 0x72, 1, 0, 3, 1, 0x73],
        renumbered_last: 295,
        keys: &[(7, 3, 0), (7, 4, 1)],
    },
    // Two rings of equal nodes, of which one leads into the other.
    Row {
        records: &[5, 8, 0xAC, 2, 1, 3, 9, 3, 0x1D, 1, 0, 0, 0, 0, 1, 7, 4, 1, 2, 3, 1, 0x70, 2, 1, 3, 1, 0x71, 3, 2, 3, 1, 0x70, 4, 3, 3, 1, 0x73],
        last: 333,
        events: None,
        metadata: CLASSES,
        renumbered: &[5, 8, 0xAC, 2, 0, 3, 9, 0, 0x13, 1, 0, 0, 0, 0, 1, 7, 2, 0, 1, 3, 1, 0x70, 1, 0, 3, 1, 0x71],
        renumbered_last: 333,
        keys: &[(7, 1, 0), (7, 2, 1), (7, 3, 0)],
    },
    // A group over two checkpoints: its number is by the smallest key, its place that of the first entry.
    Row {
        records: &[0x0E, 1, 0, 0, 0, 0, 1, 7, 1, 5, 0, 3, 1, 0x70, 5, 8, 0xAC, 2, 5, 3, 9, 2, 3, 9, 1, 0x1B, 1, 0, 0, 0xE7, 0xFF, 0xFF, 0xFF, 0xFF, 0xFF, 0xFF, 0xFF, 0xFF, 0, 1, 7, 2, 2, 0, 3, 1, 0x70, 1, 0, 3, 1, 0x71],
        last: 350,
        events: None,
        metadata: CLASSES,
        renumbered: &[0x0E, 1, 0, 0, 0, 0, 1, 7, 1, 2, 0, 3, 1, 0x70, 5, 8, 0xAC, 2, 2, 3, 9, 2, 3, 9, 1, 0x16, 1, 0, 0, 0xE7, 0xFF, 0xFF, 0xFF, 0xFF, 0xFF, 0xFF, 0xFF, 0xFF, 0, 1, 7, 1, 1, 0, 3, 1, 0x71],
        renumbered_last: 350,
        keys: &[(7, 0, 0), (7, 1, 1), (7, 2, 2), (7, 5, 2)],
    },
    // A key that is overridden joins a group.
    Row {
        records: &[3, 9, 1, 3, 9, 2, 0x1A, 1, 0, 0, 0, 0, 2, 7, 2, 2, 0, 3, 1, 0x71, 1, 0, 3, 1, 0x70, 7, 1, 1, 0, 3, 1, 0x71],
        last: 331,
        events: None,
        metadata: CLASSES_OF_B,
        renumbered: &[3, 9, 1, 3, 9, 1, 0x0E, 1, 0, 0, 0, 0, 1, 7, 1, 1, 0, 3, 1, 0x71],
        renumbered_last: 298,
        keys: &[(7, 0, 0), (7, 1, 1), (7, 2, 1)],
    },
    // Keys without an entry.
    Row {
        records: &[3, 9, 4, 5, 8, 0xAC, 2, 7, 3, 9, 9, 0x0C, 1, 0, 0, 0, 0, 1, 7, 1, 7, 9, 1],
        last: 336,
        events: None,
        metadata: CLASSES,
        renumbered: &[3, 9, 0, 5, 8, 0xAC, 2, 1, 3, 9, 2, 0x0C, 1, 0, 0, 0, 0, 1, 7, 1, 1, 2, 1],
        renumbered_last: 336,
        keys: &[(7, 4, 0), (7, 7, 1), (7, 9, 2)],
    },
    // A key without an entry, to which the event that isn't kept refers first.
    Row {
        records: &[5, 8, 0xAC, 2, 9, 3, 9, 9, 7, 1, 0, 0, 0, 0, 0],
        last: 333,
        events: Some("t.B"),
        metadata: CLASSES_OF_B,
        renumbered: &[3, 9, 0, 7, 1, 0, 0, 0, 0, 0],
        renumbered_last: 295,
        keys: &[(7, 9, 0)],
    },
    // Strings that are keys, in a ring.
    Row {
        records: &[3, 9, 1, 3, 9, 2, 0x1B, 1, 0, 0, 0, 0, 2, 7, 2, 1, 0, 2, 7, 2, 0, 2, 8, 6, 3, 7, 2, 8, 8, 2, 8, 9, 1],
        last: 331,
        events: None,
        metadata: CLASSES_OF_B,
        renumbered: &[3, 9, 1, 3, 9, 2, 0x16, 1, 0, 0, 0, 0, 2, 7, 2, 1, 0, 2, 0, 2, 0, 2, 0, 6, 1, 0, 2, 0],
        renumbered_last: 298,
        keys: &[(6, 7, 0), (6, 8, 0), (7, 0, 0), (7, 1, 1), (7, 2, 2)],
    },
    // A node that refers to itself, and a twin that refers to it.
    Row {
        records: &[3, 9, 5, 3, 9, 3, 0x0F, 1, 0, 0, 0, 0, 1, 7, 2, 5, 3, 1, 3, 3, 1],
        last: 331,
        events: None,
        metadata: CLASSES_OF_B,
        renumbered: &[3, 9, 0, 3, 9, 0, 0x0C, 1, 0, 0, 0, 0, 1, 7, 1, 0, 0, 1],
        renumbered_last: 298,
        keys: &[(7, 3, 0), (7, 5, 0)],
    },
    // Values that differ only in how their keys are spelled.
    Row {
        records: &[4, 9, 0x81, 0, 3, 9, 2, 0x94, 0, 1, 0, 0, 0, 0, 1, 7, 0x82, 0, 0x81, 0x80, 0, 0x80, 0, 1, 2, 0, 1],
        last: 332,
        events: None,
        metadata: CLASSES_OF_B,
        renumbered: &[3, 9, 1, 3, 9, 2, 0x90, 0, 1, 0, 0, 0, 0, 1, 7, 2, 1, 0, 1, 2, 0, 1],
        renumbered_last: 298,
        keys: &[(7, 0, 0), (7, 1, 1), (7, 2, 2)],
    },
    // Keys of 2^63 and more.
    Row {
        records: &[0x0B, 9, 0xFF, 0xFF, 0xFF, 0xFF, 0xFF, 0xFF, 0xFF, 0xFF, 0xFF, 0x29, 1, 0, 0, 0, 0, 1, 7, 2, 0xFF, 0xFF, 0xFF, 0xFF, 0xFF, 0xFF, 0xFF, 0xFF, 0xFF, 0x80, 0x80, 0x80, 0x80, 0x80, 0x80, 0x80, 0x80, 0x80, 1, 0x80, 0x80, 0x80, 0x80, 0x80, 0x80, 0x80, 0x80, 0x80, 0, 3, 1, 0x7A],
        last: 336,
        events: None,
        metadata: CLASSES_OF_B,
        renumbered: &[3, 9, 2, 0x11, 1, 0, 0, 0, 0, 1, 7, 2, 2, 1, 1, 1, 0, 3, 1, 0x7A],
        renumbered_last: 295,
        keys: &[(7, 0, 0), (7, 9223372036854775808, 1), (7, 18446744073709551615, 2)],
    },
    // A size in four bytes, and bytes after the fields.
    Row {
        records: &[0x8A, 0x80, 0x80, 0, 8, 3, 0x83, 0, 0xFF, 0xEE, 0x0C, 1, 0, 0, 0, 0, 1, 7, 1, 3, 0, 1],
        last: 335,
        events: None,
        metadata: CLASSES_OF_A,
        renumbered: &[0x89, 0x80, 0x80, 0, 8, 3, 1, 0xFF, 0xEE, 0x0C, 1, 0, 0, 0, 0, 1, 7, 1, 1, 0, 1],
        renumbered_last: 311,
        keys: &[(7, 0, 0), (7, 3, 1)],
    },
];

/// Reads a whole chunk.
fn read<'a>(alloc: Global, bytes: &'a [u8]) -> Result<Chunk<'a>, ReadFault> {
    if !is_cut(bytes) {
        return Err(ReadFault::Memory);
    }
    Chunk::read(alloc, bytes)
}

/// The filter that keeps the events of this name, or all.
fn filter_of(alloc: Global, events: Option<&str>) -> Result<Filter, FilterFault> {
    let mut filter = Filter::new(alloc);
    if let Some(name) = events {
        filter.add(Side::IncludeEvents, name)?;
    }
    Ok(filter)
}

/// Compares the output of a chunk, and the new keys.
fn compare_output(rt: &impl Abort, renumberer: &Renumberer, expected: &[u8], keys: &[Key]) {
    assert_eq!(rt; renumberer.bytes(), expected);
    for (class, key, new) in keys {
        assert_eq!(rt; renumberer.new_key(*class, *key), Some(*new));
    }
    assert_eq!(rt; renumberer.new_key(7, 99), None);
}

/// Makes the output of a chunk, and compares it and the new keys.
fn compare_chunk(
    rt: &impl Abort,
    alloc: Global,
    chunk: &Chunk<'_>,
    events: Option<&str>,
    expected: &[u8],
    keys: &[Key],
) -> Result<(), Fail> {
    let filter = filter_of(alloc, events)?;
    let renumberer = Renumberer::prepare(alloc, chunk, &filter)?;
    compare_output(rt, &renumberer, expected, keys);
    Ok(())
}

/// Reads a chunk, and compares its output and the new keys.
fn compare_bytes(
    rt: &impl Abort,
    alloc: Global,
    bytes: &[u8],
    events: Option<&str>,
    expected: &[u8],
    keys: &[Key],
) -> Result<(), Fail> {
    let chunk = read(alloc, bytes)?;
    compare_chunk(rt, alloc, &chunk, events, expected, keys)
}

/// Compares the chunk of a row.
fn compare_row(rt: &impl Abort, alloc: Global, row: &Row) -> Result<(), Fail> {
    let bytes = with_classes(alloc, row.records, row.last)?;
    let expected = with_metadata(alloc, row.metadata, row.renumbered, row.renumbered_last)?;
    compare_bytes(rt, alloc, &bytes, row.events, &expected, row.keys)
}

#[test]
fn equal_constants_get_one_key(rt: HostRuntime) -> Result<(), Fail> {
    for row in ROWS.iter() {
        compare_row(&rt, rt.alloc(), row)?;
    }
    Ok(())
}

#[test]
fn a_chunk_without_events_stays_as_it_is(rt: HostRuntime) -> Result<(), Fail> {
    compare_bytes(&rt, rt.alloc(), &PLAIN, None, &PLAIN, &[])
}
