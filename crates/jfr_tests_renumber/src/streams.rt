//! Recordings with new keys, over places in memory.
use jfr_base::{Reason, Refusal};
use jfr_filter::Filter;
use jfr_fixtures::{PLAIN, with_classes};
use jfr_header::Ending;
use jfr_outside::{Call, MemoryPlace, NoMemory, Place};
use jfr_renumber::renumber_stream;
use std::alloc::{AllocError, Global};
use std::process::Abort;
use std::test::Fail;

/// Two events with equal constants, and what becomes of them.
const RECORDS: &[u8] = &[
    5, 8, 0xAC, 2, 1, 3, 9, 3, 0x1D, 1, 0, 0, 0, 0, 1, 7, 4, 1, 2, 3, 1, 0x70, 2, 1, 3, 1, 0x71, 3,
    2, 3, 1, 0x70, 4, 3, 3, 1, 0x73,
];

const RENUMBERED: &[u8] = &[
    5, 8, 0xAC, 2, 0, 3, 9, 0, 0x13, 1, 0, 0, 0, 0, 1, 7, 2, 0, 1, 3, 1, 0x70, 1, 0, 3, 1, 0x71,
];

/// How many bytes follow the plain chunk and the chunk of the records in the input, a script, the answer, how
/// many bytes the output has, and whether it is left open.
struct Row {
    more: usize,
    script: Option<(Call, u64, usize)>,
    answer: Ending,
    written: Option<usize>,
    open: bool,
}

const SHORT_HEADER: Ending = Ending::Refused(Refusal {
    chunk: 3,
    offset: 60,
    reason: Reason::ShortHeader,
});

#[rattlefmt::skip]
static ROWS: [Row; 7] = [
    Row { more: 0, script: None, answer: Ending::Done, written: Some(455), open: false },
    Row { more: 60, script: None, answer: SHORT_HEADER, written: Some(455), open: true },
    Row { more: 0, script: Some((Call::Open, 1, 0)), answer: Ending::ReadFault, written: None, open: false },
    Row { more: 0, script: Some((Call::Read, 3, 0)), answer: Ending::ReadFault, written: Some(103), open: true },
    Row { more: 0, script: Some((Call::Create, 1, 0)), answer: Ending::WriteFault, written: None, open: false },
    Row { more: 0, script: Some((Call::Append, 2, 7)), answer: Ending::WriteFault, written: Some(110), open: true },
    Row { more: 0, script: Some((Call::Finish, 1, 0)), answer: Ending::WriteFault, written: Some(455), open: false },
];

/// Adds the plain chunk, then a chunk of these records, then the first bytes of another plain chunk.
fn push_recording(
    bytes: &mut Vec<u8>,
    alloc: Global,
    records: &[u8],
    more: usize,
) -> Result<(), AllocError> {
    bytes.extend_from_slice(&PLAIN)?;
    bytes.extend_from_slice(&with_classes(alloc, records, 333)?)?;
    bytes.extend_from_slice(&PLAIN[..more.min(103)])
}

/// A recording of them.
fn recording(alloc: Global, records: &[u8], more: usize) -> Result<Vec<u8>, AllocError> {
    let mut bytes = Vec::new(alloc);
    push_recording(&mut bytes, alloc, records, more)?;
    Ok(bytes)
}

/// Puts a row's input, and makes a call fail by its script.
fn prepare(place: &mut MemoryPlace, alloc: Global, row: &Row) -> Result<(), NoMemory> {
    let bytes = recording(alloc, RECORDS, row.more)?;
    place.put("in", &bytes)?;
    match row.script {
        Some((call, nth, keep)) => place.fail(call, nth, keep),
        None => Ok(()),
    }
}

/// A place with the row's input and script.
fn place_of(alloc: Global, row: &Row) -> Result<MemoryPlace, NoMemory> {
    let mut place = MemoryPlace::new(alloc);
    prepare(&mut place, alloc, row)?;
    Ok(place)
}

/// Renumbers the input of a place. All events are kept.
fn renumber(alloc: Global, place: &mut MemoryPlace) -> Ending {
    let filter = Filter::new(alloc);
    renumber_stream(alloc, place, "in", "out", &filter)
}

/// The output has the first `written` of the expected bytes, or doesn't exist.
fn compare_output(rt: &impl Abort, place: &MemoryPlace, expected: &[u8], written: Option<usize>) {
    match written {
        Some(count) => {
            assert!(rt; count <= expected.len());
            assert_eq!(rt; place.file("out"), Some(&expected[..count]));
        }
        None => assert_eq!(rt; place.file("out"), None),
    }
}

/// Renumbers the input of a place, and compares the answer, the output, and whether it is left open.
fn compare_place(
    rt: &impl Abort,
    alloc: Global,
    place: &mut MemoryPlace,
    expected: &[u8],
    row: &Row,
) {
    assert_eq!(rt; renumber(alloc, place), row.answer);
    compare_output(rt, place, expected, row.written);
    assert_eq!(rt; place.finish_output().is_ok(), row.open);
}

/// Compares what becomes of the input of a row.
fn compare_row(rt: &impl Abort, alloc: Global, expected: &[u8], row: &Row) -> Result<(), Fail> {
    let mut place = place_of(alloc, row)?;
    compare_place(rt, alloc, &mut place, expected, row);
    Ok(())
}

/// Compares that of each row.
fn compare_rows(rt: &impl Abort, alloc: Global, expected: &[u8]) -> Result<(), Fail> {
    for row in ROWS.iter() {
        compare_row(rt, alloc, expected, row)?;
    }
    Ok(())
}

#[test]
fn recordings_are_renumbered_by_their_rows(rt: HostRuntime) -> Result<(), Fail> {
    let expected = recording(rt.alloc(), RENUMBERED, 0)?;
    compare_rows(&rt, rt.alloc(), &expected)
}
