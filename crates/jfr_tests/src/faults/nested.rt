//! Classes that hold one another.
use crate::faults::scrub::see_scrub;
use jfr_fixtures::{NO_POOLS, plain_with};
use std::alloc::{AllocError, Global};
use std::process::Abort;
use std::test::Fail;

// Texts that the classes share, as the first ten strings.
const SHARED: &[u8] = b"\
    \x03\x04root\x03\x08metadata\x03\x05class\x03\x04name\x03\x02id\
    \x03\x05field\x03\x04long\x03\x015\x03\x01c\x03\x01x";

// The class `long`, whose id is 5.
const LONG: [u8; 7] = [2, 2, 3, 6, 4, 7, 0];

// The class whose id is the string with this number after the shared ones. It has an inline field of the
// class whose id is the string `inner`.
fn class_of(number: u8, inner: u8) -> [u8; 14] {
    let id = number.saturating_add(10);
    [2, 2, 3, 8, 4, id, 1, 5, 2, 3, 9, 2, inner, 0]
}

// Adds a size, spelled in four bytes.
fn push_size(bytes: &mut Vec<u8>, size: usize) -> Result<(), AllocError> {
    bytes.extend_from_slice(&[
        (size % 128) as u8 | 0x80,
        (size / 128 % 128) as u8 | 0x80,
        (size / 16384 % 128) as u8 | 0x80,
        (size / 2097152 % 128) as u8,
    ])
}

// A record of this body.
fn record_of(alloc: Global, body: &[u8]) -> Result<Vec<u8>, AllocError> {
    let mut record = Vec::new(alloc);
    push_size(&mut record, body.len().saturating_add(4))?;
    record.extend_from_slice(body)?;
    Ok(record)
}

// Adds the strings of a metadata record: their number, the shared ones, and the ids of the classes.
fn push_strings(body: &mut Vec<u8>, classes: u8) -> Result<(), AllocError> {
    body.extend_from_slice(&[0, 0, 0, 1, classes.saturating_add(10)])?;
    body.extend_from_slice(SHARED)?;
    for number in 0..classes {
        body.extend_from_slice(&[3, 3, b'1', number / 10 + b'0', number % 10 + b'0'])?;
    }
    Ok(())
}

// Adds its elements: the root, and the descriptions of the classes.
fn push_elements(body: &mut Vec<u8>, classes: u8) -> Result<(), AllocError> {
    body.extend_from_slice(&[0, 0, 1, 1, 0, classes.saturating_add(1)])?;
    body.extend_from_slice(&LONG)?;
    for number in 1..classes {
        body.extend_from_slice(&class_of(number - 1, number.saturating_add(10)))?;
    }
    body.extend_from_slice(&class_of(classes.saturating_sub(1), 7))
}

// A metadata record with `long` and this many classes from 100 on, each with an inline field of the next, and the
// last with one of `long`.
fn metadata_of(alloc: Global, classes: u8) -> Result<Vec<u8>, AllocError> {
    let mut body = Vec::new(alloc);
    push_strings(&mut body, classes)?;
    push_elements(&mut body, classes)?;
    record_of(alloc, &body)
}

// A chunk of this metadata, without events.
fn nested(alloc: Global, classes: u8) -> Result<Vec<u8>, AllocError> {
    let metadata = metadata_of(alloc, classes)?;
    plain_with(alloc, &metadata, NO_POOLS)
}

// A chunk of this many classes is copied.
fn see_copied(rt: &impl Abort, alloc: Global, classes: u8) -> Result<(), Fail> {
    let chunk = nested(alloc, classes)?;
    see_scrub(rt, alloc, &chunk, 0, "", &chunk)
}

// A chunk of this many classes is refused.
fn see_refused(rt: &impl Abort, alloc: Global, classes: u8, line: &str) -> Result<(), Fail> {
    let chunk = nested(alloc, classes)?;
    see_scrub(rt, alloc, &chunk, 2, line, &[])
}

// From 100 to 132 there are 32 inline steps, the most that there may be. With one more it is the first class
// that is refused: 9 bytes of the record, 225 of strings and 13 of elements come before it.
#[test]
fn classes_nest_32_steps_deep(rt: HostRuntime) -> Result<(), Fail> {
    see_copied(&rt, rt.alloc(), 33)?;
    see_refused(&rt, rt.alloc(), 34, "chunk 1 offset 315: InlineDeep\n")
}
