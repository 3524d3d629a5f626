//! What a chunk becomes, piece by piece.
use crate::choice::filter_of;
use crate::reading::{CHAINED, with_chunk};
use jfr_chunk::Chunk;
use jfr_filter::{Filter, Side};
use jfr_fixtures::{
    CLASSES, CLASSES_OF_A, PLAIN, RINGS, STRINGS, STRINGS_SCRUBBED, THREE, THREE_SCRUBBED, TWICE,
    TWICE_SCRUBBED, WIDE, WIDE_SCRUBBED, chunk_of, inert, with_classes, with_metadata,
};
use jfr_scrub::{Piece, Scrubber};
use std::alloc::Global;
use std::process::Abort;
use std::test::Fail;

/// The bytes of a piece.
fn bytes_of<'s>(scrubber: &'s Scrubber<'_>, number: usize) -> Option<&'s [u8]> {
    match scrubber.piece(number)? {
        Piece::Copied { bytes, .. } => Some(bytes),
        Piece::Made { from, to, .. } => scrubber.made().get(from..to),
    }
}

/// Adds a piece.
fn push_piece(bytes: &mut Vec<u8>, scrubber: &Scrubber<'_>, number: usize) -> Result<(), Fail> {
    let piece = bytes_of(scrubber, number).ok_or("no such piece")?;
    bytes.extend_from_slice(piece)?;
    Ok(())
}

/// Adds the pieces.
fn push_pieces(bytes: &mut Vec<u8>, scrubber: &Scrubber<'_>) -> Result<(), Fail> {
    for number in 0..scrubber.piece_count() {
        push_piece(bytes, scrubber, number)?;
    }
    Ok(())
}

/// Compares the pieces joined.
fn compare_joined(
    rt: &impl Abort,
    alloc: Global,
    scrubber: &Scrubber<'_>,
    expected: &[u8],
) -> Result<(), Fail> {
    let mut pieces = Vec::new(alloc);
    push_pieces(&mut pieces, scrubber)?;
    assert_eq!(rt; pieces.as_slice(), expected);
    Ok(())
}

/// Compares what is made of a chunk, before and after it is written.
fn compare_pieces(
    rt: &impl Abort,
    alloc: Global,
    scrubber: &mut Scrubber<'_>,
    expected: &[u8],
    kept: (usize, usize),
) -> Result<(), Fail> {
    compare_joined(rt, alloc, scrubber, expected)?;
    assert!(rt; scrubber.bytes().is_empty());
    scrubber.write();
    assert_eq!(rt; scrubber.bytes(), expected);
    assert_eq!(rt; (scrubber.kept_events(), scrubber.kept_entries()), kept);
    assert!(rt; scrubber.piece(scrubber.piece_count()).is_none());
    Ok(())
}

/// Compares what a chunk becomes without a filter.
fn compare_chunk(
    rt: &impl Abort,
    alloc: Global,
    chunk: &Chunk<'_>,
    expected: &[u8],
    kept: (usize, usize),
) -> Result<(), Fail> {
    let filter = Filter::new(alloc);
    let mut scrubber = Scrubber::prepare(alloc, chunk, &filter)?;
    compare_pieces(rt, alloc, &mut scrubber, expected, kept)
}

/// Reads a chunk, and compares what it becomes.
fn compare_scrub(
    rt: &impl Abort,
    alloc: Global,
    bytes: &[u8],
    expected: &[u8],
    kept: (usize, usize),
) -> Result<(), Fail> {
    with_chunk(alloc, bytes, |chunk| {
        compare_chunk(rt, alloc, chunk, expected, kept)
    })
}

/// Records, and the metadata record and records that are left of them, each with the place of the last
/// checkpoint; and how many events and entries are kept.
type Left = (
    (&'static [u8], u64),
    (&'static [u8], &'static [u8], u64),
    (usize, usize),
);

const LEFT: [Left; 5] = [
    ((RINGS, 333), (CLASSES, RINGS, 333), (2, 4)),
    ((TWICE, 344), (CLASSES_OF_A, TWICE_SCRUBBED, 314), (1, 1)),
    ((THREE, 366), (CLASSES_OF_A, THREE_SCRUBBED, 336), (1, 1)),
    (
        (STRINGS, 330),
        (CLASSES_OF_A, STRINGS_SCRUBBED, 307),
        (1, 3),
    ),
    ((WIDE, 352), (CLASSES_OF_A, WIDE_SCRUBBED, 322), (1, 1)),
];

/// Compares what is left of records.
fn compare_left(rt: &impl Abort, alloc: Global, left: &Left) -> Result<(), Fail> {
    let ((records, last), (metadata, scrubbed, scrubbed_last), kept) = *left;
    let bytes = with_classes(alloc, records, last)?;
    let expected = with_metadata(alloc, metadata, scrubbed, scrubbed_last)?;
    compare_scrub(rt, alloc, &bytes, &expected, kept)
}

/// A chunk of two checkpoints without pools stays as it is.
fn compare_chained(rt: &impl Abort, alloc: Global) -> Result<(), Fail> {
    let (records, last) = CHAINED;
    let bytes = chunk_of(alloc, records, last, 68)?;
    compare_scrub(rt, alloc, &bytes, &bytes, (0, 0))
}

/// Without a filter a chunk keeps its events and what they reach, without the descriptions of event classes
/// that have no events, and nothing else. Inert records go.
#[test]
fn chunks_become_what_is_reached(rt: HostRuntime) -> Result<(), Fail> {
    for left in LEFT.iter() {
        compare_left(&rt, rt.alloc(), left)?;
    }
    compare_scrub(&rt, rt.alloc(), &inert(rt.alloc())?, &PLAIN, (0, 0))?;
    compare_chained(&rt, rt.alloc())
}

/// The bytes of a range of the chunk, where one piece copies the whole of it.
fn copied<'a>(scrubber: &Scrubber<'a>, from: usize, to: usize) -> Option<&'a [u8]> {
    for number in 0..scrubber.piece_count() {
        if let Some(Piece::Copied { at, bytes }) = scrubber.piece(number) {
            let range = bytes.get(from.saturating_sub(at)..to.saturating_sub(at));
            if at <= from && range.is_some() {
                return range;
            }
        }
    }
    None
}

/// Compares what one piece copies of a range.
fn compare_copied(
    rt: &impl Abort,
    alloc: Global,
    chunk: &Chunk<'_>,
    filter: &Filter,
    range: (usize, usize),
    expected: Option<&[u8]>,
) -> Result<(), Fail> {
    let scrubber = Scrubber::prepare(alloc, chunk, filter)?;
    assert_eq!(rt; copied(&scrubber, range.0, range.1), expected);
    Ok(())
}

/// Compares what is copied of the two events of a chunk, of which the filter keeps the first.
fn compare_events(
    rt: &impl Abort,
    alloc: Global,
    chunk: &Chunk<'_>,
    filter: &Filter,
) -> Result<(), Fail> {
    let event = Some(&[5, 8, 0xAC, 2, 1][..]);
    compare_copied(rt, alloc, chunk, filter, (325, 330), event)?;
    compare_copied(rt, alloc, chunk, filter, (330, 333), None)
}

/// A kept event lies in one piece that is copied from its place, and one that goes in none.
fn compare_first_event(rt: &impl Abort, alloc: Global, chunk: &Chunk<'_>) -> Result<(), Fail> {
    let filter = filter_of(alloc, Side::IncludeEvents, "t.A")?;
    compare_events(rt, alloc, chunk, &filter)
}

#[test]
fn events_are_copied(rt: HostRuntime) -> Result<(), Fail> {
    let rings = with_classes(rt.alloc(), RINGS, 333)?;
    with_chunk(rt.alloc(), &rings, |chunk| {
        compare_first_event(&rt, rt.alloc(), chunk)
    })
}
