//! Texts that are built, with the length of the chunk and the bytes at its end: the events and the checkpoint.
use jfr_build::build;
use std::alloc::Global;
use std::process::Abort;
use std::test::Fail;

/// A text, the length of its chunk, and the last bytes.
type Row = (&'static str, usize, &'static [u8]);

/// Events of a class with one field, and the checkpoint without pools.
const EVENTS: [Row; 6] = [
    ("", 111, b"\x8b\x80\x80\x80\x00\x01\x00\x00\x00\x00\x00"),
    (
        "class 5 long\nevent 8 t.A\nfield n 5 -\nrecord 8 300",
        212,
        b"\x88\x80\x80\x80\x00\x08\xac\x02\x8b\x80\x80\x80\x00\x01\x00\x00\x00\x00\x00",
    ),
    (
        "class 05 long\n\nevent 008 t.A\nfield n 5 -\nrecord 8 300\n",
        212,
        b"\x88\x80\x80\x80\x00\x08\xac\x02\x8b\x80\x80\x80\x00\x01\x00\x00\x00\x00\x00",
    ),
    (
        "class 5 long\nevent 8 t.A\nfield n 5 -\nrecord 8 -0\n",
        211,
        b"\x87\x80\x80\x80\x00\x08\x00\x8b\x80\x80\x80\x00\x01\x00\x00\x00\x00\x00",
    ),
    (
        "class 5 long\nevent 8 t.A\nfield n 5 -\nrecord 8 -9223372036854775808\n",
        219,
        b"\x8f\x80\x80\x80\x00\x08\x80\x80\x80\x80\x80\x80\x80\x80\x80\x8b\x80\x80\x80\x00\x01\x00\x00\x00\x00\x00",
    ),
    (
        "class 5 long\nevent 8 t.A\nfield a 5 a\nrecord 8 [2 1 2\n",
        229,
        b"\x89\x80\x80\x80\x00\x08\x02\x01\x02\x8b\x80\x80\x80\x00\x01\x00\x00\x00\x00\x00",
    ),
];

/// Constants of each kind, in the checkpoint.
const CONSTANTS: [Row; 10] = [
    (
        "class 7 x\nconstant 7 1\nconstant 7 1\n",
        145,
        b"\x8f\x80\x80\x80\x00\x01\x00\x00\x00\x00\x01\x07\x02\x01\x01",
    ),
    (
        "class 1 float\nconstant 1 0 0x3f800000",
        152,
        b"\x92\x80\x80\x80\x00\x01\x00\x00\x00\x00\x01\x01\x01\x00\x3f\x80\x00\x00",
    ),
    (
        "class 1 double\nconstant 1 1 0x3ff0000000000000",
        157,
        b"\x96\x80\x80\x80\x00\x01\x00\x00\x00\x00\x01\x01\x01\x01\x3f\xf0\x00\x00\x00\x00\x00\x00",
    ),
    (
        "class 1 boolean\nconstant 1 0 true\n",
        151,
        b"\x8f\x80\x80\x80\x00\x01\x00\x00\x00\x00\x01\x01\x01\x00\x01",
    ),
    (
        "class 1 byte\nconstant 1 0 127",
        148,
        b"\x8f\x80\x80\x80\x00\x01\x00\x00\x00\x00\x01\x01\x01\x00\x7f",
    ),
    (
        "class 1 char\nconstant 1 0 255",
        149,
        b"\x90\x80\x80\x80\x00\x01\x00\x00\x00\x00\x01\x01\x01\x00\xff\x01",
    ),
    (
        "class 1 short\nconstant 1 0 -129",
        151,
        b"\x91\x80\x80\x80\x00\x01\x00\x00\x00\x00\x01\x01\x01\x00\xff\xfe\x03",
    ),
    (
        "class 1 int\nconstant 1 9223372036854775807 -32769\n\n",
        159,
        b"\x9b\x80\x80\x80\x00\x01\x00\x00\x00\x00\x01\x01\x01\xff\xff\xff\xff\xff\xff\xff\xff\x7f\xff\xff\xfd\xff\x0f",
    ),
    (
        "class 1 java.lang.String\nconstant 1 1 #1",
        161,
        b"\x90\x80\x80\x80\x00\x01\x00\x00\x00\x00\x01\x01\x01\x01\x02\x01",
    ),
    (
        "class 1 java.lang.String\nconstant 1 1 \"\\\\\"\n\n",
        162,
        b"\x91\x80\x80\x80\x00\x01\x00\x00\x00\x00\x01\x01\x01\x01\x03\x01\x5c",
    ),
];

/// Strings of an event: a text with a space, null, the empty text and a key.
const STRINGS: &str =
    "class 6 java.lang.String\nevent 8 t.A\nfield n 6 -\nrecord 8 \"a\\u0020b\"\nrecord 8 null\nrecord 8 \"\"\nrecord 8 #7\n";

/// Their records.
const STRING_EVENTS: &[u8] =
    b"\x8b\x80\x80\x80\x00\x08\x03\x03\x61\x20\x62\x87\x80\x80\x80\x00\x08\x00\x87\x80\x80\x80\x00\x08\x01\x88\x80\x80\x80\x00\x08\x02\x07\x8b\x80\x80\x80\x00\x01\x00\x00\x00\x00\x00";

/// Texts with a region: the end of the strings, the tree, and what follows.
const REGIONS: [Row; 3] = [
    (
        "region en 3600000\nclass 5 long\nevent 8 t.A\nfield n 5 -\nrecord 8 300",
        259,
        b"\x03\x06region\x03\x06locale\x03\x02en\x03\x09gmtOffset\x03\x073600000\x00\x00\x02\x01\x00\x02\x02\x02\x03\x04\x05\x06\x00\x02\x03\x03\x07\x05\x08\x09\x0a\x01\x0b\x02\x03\x0c\x02\x06\x00\x0d\x02\x0e\x0f\x10\x11\x00\x88\x80\x80\x80\x00\x08\xac\x02\x8b\x80\x80\x80\x00\x01\x00\x00\x00\x00\x00",
    ),
    // A field after the line belongs to the class above. The texts of the classes are used again.
    (
        "class 5 long\nevent 8 t.A\nregion t.A 5\nfield n 5 -\nrecord 8 300",
        246,
        b"\x03\x06region\x03\x06locale\x03\x09gmtOffset\x00\x00\x02\x01\x00\x02\x02\x02\x03\x04\x05\x06\x00\x02\x03\x03\x07\x05\x08\x09\x0a\x01\x0b\x02\x03\x0c\x02\x06\x00\x0d\x02\x0e\x07\x0f\x06\x00\x88\x80\x80\x80\x00\x08\xac\x02\x8b\x80\x80\x80\x00\x01\x00\x00\x00\x00\x00",
    ),
    // The number is spelled as in the line.
    (
        "class 5 long\nconstant 5 1 1\nregion x -007",
        191,
        b"\x03\x06region\x03\x06locale\x03\x01x\x03\x09gmtOffset\x03\x04-007\x00\x00\x02\x01\x00\x01\x02\x02\x03\x04\x05\x06\x00\x07\x02\x08\x09\x0a\x0b\x00\x8f\x80\x80\x80\x00\x01\x00\x00\x00\x00\x01\x05\x01\x01\x01",
    ),
];

/// Compares the chunk of a text with its length and its last bytes.
fn compare(rt: &impl Abort, alloc: Global, row: Row) -> Result<(), Fail> {
    let (text, len, end) = row;
    let chunk = build(alloc, text.as_bytes()).ok().ok_or("refused")?;
    assert_eq!(rt; chunk.len(), len);
    assert!(rt; chunk.as_slice().ends_with(end));
    Ok(())
}

#[test]
fn events(rt: HostRuntime) -> Result<(), Fail> {
    for row in EVENTS.iter() {
        compare(&rt, rt.alloc(), *row)?;
    }
    Ok(())
}

#[test]
fn constants(rt: HostRuntime) -> Result<(), Fail> {
    for row in CONSTANTS.iter() {
        compare(&rt, rt.alloc(), *row)?;
    }
    Ok(())
}

#[test]
fn strings(rt: HostRuntime) -> Result<(), Fail> {
    let chunk = build(rt.alloc(), STRINGS.as_bytes()).ok().ok_or("refused")?;
    assert!(rt; chunk.as_slice().ends_with(STRING_EVENTS));
    Ok(())
}

#[test]
fn regions(rt: HostRuntime) -> Result<(), Fail> {
    for row in REGIONS.iter() {
        compare(&rt, rt.alloc(), *row)?;
    }
    Ok(())
}
