//! Recordings cut into parts, over places in memory.
use crate::places::{Script, cut, cut_into_d, finish, follow};
use crate::recordings::recording;
use jfr_base::{Reason, Refusal};
use jfr_fixtures::PLAIN;
use jfr_header::Ending;
use jfr_outside::{Call, MemoryPlace, SteadyPlace};
use std::alloc::Global;
use std::process::Abort;
use std::test::Fail;

/// How many chunks and further bytes are cut, by which bounds, a script, the answer, and where each part
/// ends in the recording; whether the last part is left unfinished.
struct Row {
    chunks: u8,
    more: usize,
    max_chunks: u64,
    max_size: u64,
    max_parts: u64,
    script: Script,
    answer: Ending,
    ends: [usize; 4],
    unfinished: bool,
}

#[rattlefmt::skip]
static ROWS: [Row; 12] = [
    Row { chunks: 3, more: 0, max_chunks: 2, max_size: 1 << 40, max_parts: 999_999, script: None, answer: Ending::Done, ends: [206, 309, 0, 0], unfinished: false },
    Row { chunks: 3, more: 0, max_chunks: 5, max_size: 50, max_parts: 999_999, script: None, answer: Ending::Done, ends: [103, 206, 309, 0], unfinished: false },
    Row { chunks: 3, more: 0, max_chunks: 5, max_size: 206, max_parts: 999_999, script: None, answer: Ending::Done, ends: [206, 309, 0, 0], unfinished: false },
    Row { chunks: 3, more: 0, max_chunks: 5, max_size: 205, max_parts: 999_999, script: None, answer: Ending::Done, ends: [103, 206, 309, 0], unfinished: false },
    Row { chunks: 3, more: 0, max_chunks: 3, max_size: 309, max_parts: 1, script: None, answer: Ending::Done, ends: [309, 0, 0, 0], unfinished: false },
    Row { chunks: 3, more: 0, max_chunks: 1, max_size: 1 << 40, max_parts: 2, script: None, answer: Ending::TooManyParts, ends: [103, 206, 0, 0], unfinished: true },
    Row { chunks: 0, more: 0, max_chunks: 1, max_size: 1 << 40, max_parts: 2, script: None, answer: Ending::Refused(Refusal { chunk: 1, offset: 0, reason: Reason::NoChunk }), ends: [0, 0, 0, 0], unfinished: false },
    Row { chunks: 2, more: 100, max_chunks: 2, max_size: 1 << 40, max_parts: 1, script: None, answer: Ending::Refused(Refusal { chunk: 3, offset: 100, reason: Reason::ShortChunk }), ends: [206, 0, 0, 0], unfinished: true },
    Row { chunks: 2, more: 0, max_chunks: 1, max_size: 1 << 40, max_parts: 9, script: Some((Call::Read, 4, 0)), answer: Ending::ReadFault, ends: [103, 0, 0, 0], unfinished: true },
    Row { chunks: 2, more: 0, max_chunks: 1, max_size: 1 << 40, max_parts: 9, script: Some((Call::Create, 2, 0)), answer: Ending::WriteFault, ends: [103, 0, 0, 0], unfinished: false },
    Row { chunks: 2, more: 0, max_chunks: 2, max_size: 1 << 40, max_parts: 9, script: Some((Call::Append, 2, 10)), answer: Ending::WriteFault, ends: [113, 0, 0, 0], unfinished: true },
    Row { chunks: 2, more: 0, max_chunks: 2, max_size: 1 << 40, max_parts: 9, script: Some((Call::Finish, 1, 0)), answer: Ending::WriteFault, ends: [206, 0, 0, 0], unfinished: false },
];

/// The names of the first parts.
static PARTS: [&str; 4] = [
    "d/r_000001.jfr",
    "d/r_000002.jfr",
    "d/r_000003.jfr",
    "d/r_000004.jfr",
];

/// Each part has its bytes of the recording, and no other part is there.
fn check_parts(rt: &impl Abort, place: &MemoryPlace, row: &Row, bytes: &[u8]) {
    let mut from = 0;
    for (name, &end) in PARTS.iter().zip(row.ends.iter()) {
        if end == 0 {
            assert!(rt; place.file(name).is_none(), "{name}");
        } else {
            assert!(rt; from <= end && end <= bytes.len());
            assert!(rt; place.file(name) == Some(&bytes[from..end]), "{name}");
            from = end;
        }
    }
}

/// Cuts a recording by a row, and compares how that ends and what is left.
fn see_cut(
    rt: &impl Abort,
    alloc: Global,
    place: &mut MemoryPlace,
    row: &Row,
    bytes: &[u8],
) -> Result<(), Fail> {
    place.put("e/r.jfr", bytes)?;
    follow(place, row.script)?;
    let bounds = (row.max_chunks, row.max_size, row.max_parts);
    let ending = cut_into_d(alloc, place, "e/r.jfr", bounds)?;
    assert_eq!(rt; ending, row.answer);
    assert_eq!(rt; finish(place), row.unfinished);
    check_parts(rt, place, row, bytes);
    Ok(())
}

/// Cuts the recording of a row.
fn see_row(rt: &impl Abort, alloc: Global, row: &Row) -> Result<(), Fail> {
    let bytes = recording(alloc, row.chunks, row.more)?;
    let mut place = MemoryPlace::new(alloc);
    see_cut(rt, alloc, &mut place, row, &bytes)
}

#[test]
fn recordings_are_cut_by_their_rows(rt: HostRuntime) -> Result<(), Fail> {
    for row in ROWS.iter() {
        see_row(&rt, rt.alloc(), row)?;
    }
    Ok(())
}

/// Cuts one chunk into a part beside the recording.
fn cut_here(alloc: Global, place: &mut SteadyPlace) -> Ending {
    cut(alloc, place, "r.jfr", None, (5, 1 << 40, 9))
}

/// Does so, and compares how that ends and the part.
fn see_first(rt: &impl Abort, alloc: Global, place: &mut SteadyPlace, ending: Ending, part: &[u8]) {
    assert_eq!(rt; cut_here(alloc, place), ending);
    assert!(rt; place.file("r_000001.jfr") == Some(part));
}

/// Cuts a recording that isn't there, one that is, and this one again, when the part is there already.
fn see_cuts(rt: &impl Abort, alloc: Global, place: &mut SteadyPlace) -> Result<(), Fail> {
    assert_eq!(rt; cut_here(alloc, place), Ending::ReadFault);
    place.put("r.jfr", &PLAIN)?;
    see_first(rt, alloc, place, Ending::Done, &PLAIN);
    see_first(rt, alloc, place, Ending::WriteFault, &PLAIN);
    Ok(())
}

#[test]
fn recordings_are_cut_over_a_steady_place(rt: HostRuntime) -> Result<(), Fail> {
    let mut place = SteadyPlace::new(rt.alloc());
    see_cuts(&rt, rt.alloc(), &mut place)
}
