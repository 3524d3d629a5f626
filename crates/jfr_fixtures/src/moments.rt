//! A chunk with events at certain times.
use crate::assembler::{Element, Metadata, Source, assembled};
use crate::chunks::chunk_of;
use crate::records::NO_POOLS;
use jfr_header::{HEADER_LEN, read_header, write_header};
use std::alloc::{AllocError, Global};

/// When a chunk starts, in nanoseconds since 1970 and in ticks, and its ticks per second.
#[derive(Clone, Copy, Debug)]
pub struct Clock {
    pub nanos: i64,
    pub ticks: i64,
    pub rate: i64,
}

/// A metadata record with the classes `long` (5) and `int` (6), and the event classes `t.Span` (7) with `startTime`
/// and `duration`, `t.Start` (8) with `n` and `startTime`, `t.Plain` (9) with `n`, `t.Array` (10) with `startTime`
/// as an array, `t.Key` (11) with `startTime` as a reference, and `t.Int` (12) with `startTime` as an `int`. All
/// other fields are of class `long`.
const CLASSES: Source = Source::Record(Metadata {
    width: 2,
    texts: &[],
    classes: 8,
    elements: &[TIMED],
});

#[rattlefmt::skip]
const TIMED: &[Element] = &[
    ("class", &[("name", "long"), ("id", "5")], 0),
    ("class", &[("name", "int"), ("id", "6")], 0),
    ("class", &[("name", "t.Span"), ("id", "7"), ("superType", "jdk.jfr.Event")], 2),
    ("field", &[("name", "startTime"), ("class", "5")], 0),
    ("field", &[("name", "duration"), ("class", "5")], 0),
    ("class", &[("name", "t.Start"), ("id", "8"), ("superType", "jdk.jfr.Event")], 2),
    ("field", &[("name", "n"), ("class", "5")], 0),
    ("field", &[("name", "startTime"), ("class", "5")], 0),
    ("class", &[("name", "t.Plain"), ("id", "9"), ("superType", "jdk.jfr.Event")], 1),
    ("field", &[("name", "n"), ("class", "5")], 0),
    ("class", &[("name", "t.Array"), ("id", "10"), ("superType", "jdk.jfr.Event")], 1),
    ("field", &[("name", "startTime"), ("class", "5"), ("dimension", "1")], 0),
    ("class", &[("name", "t.Key"), ("id", "11"), ("superType", "jdk.jfr.Event")], 1),
    ("field", &[("name", "startTime"), ("class", "5"), ("constantPool", "true")], 0),
    ("class", &[("name", "t.Int"), ("id", "12"), ("superType", "jdk.jfr.Event")], 1),
    ("field", &[("name", "startTime"), ("class", "6")], 0),
];

/// Two events of `t.Span`, which start at tick 200 and last 50 and -50 ticks; one of each other class, whose only
/// number, or the last, is 200; and a `t.Span` that starts at tick -50 and lasts 0.
#[rattlefmt::skip]
const EVENTS: Source = Source::Lines(&[
    b"\x05\x07\xC8\x01\x32",                                       // t.Span: 200, 50
    b"\x0D\x07\xC8\x01\xCE\xFF\xFF\xFF\xFF\xFF\xFF\xFF\xFF",  // t.Span: 200, -50
    b"\x05\x08\x07\xC8\x01",                                       // t.Start: 7, 200
    b"\x04\x09\xC8\x01",                                            // t.Plain: 200
    b"\x05\x0A\x01\xC8\x01",                                       // t.Array: one number, 200
    b"\x04\x0B\xC8\x01",                                            // t.Key: 200
    b"\x04\x0C\xC8\x01",                                            // t.Int: 200
    b"\x0C\x07\xCE\xFF\xFF\xFF\xFF\xFF\xFF\xFF\xFF\0",         // t.Span: -50, 0
]);

/// A chunk of these events, with this clock in its header.
pub fn timed(alloc: Global, clock: Clock) -> Result<Vec<u8>, AllocError> {
    let records = assembled(alloc, &[CLASSES, EVENTS])?;
    let mut chunk = chunk_of(alloc, &[&records, NO_POOLS], 472, 68)?;
    set_clock(&mut chunk, clock);
    Ok(chunk)
}

/// Sets the clock in the header of a chunk.
fn set_clock(chunk: &mut [u8], clock: Clock) {
    let Some(front) = chunk.first_chunk_mut::<HEADER_LEN>() else {
        return;
    };
    let Ok(mut header) = read_header(front) else {
        return;
    };
    header.start_nanos = clock.nanos.cast_unsigned();
    header.start_ticks = clock.ticks.cast_unsigned();
    header.ticks_per_second = clock.rate.cast_unsigned();
    write_header(&header, front);
}
