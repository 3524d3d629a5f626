//! Recordings that are built of texts.
use crate::places::place_with;
use crate::runs::{Said, say_all, says};
use jfr_outside::MemoryPlace;
use std::alloc::Global;
use std::process::Abort;
use std::test::Fail;

/// One event with one field.
const TEXT: &str = "class 5 long\nevent 8 t.A\nfield n 5 -\nrecord 8 300\n";

/// The event and the checkpoint, at the end of the chunk.
const RECORDS: &[u8] = b"\
    \x88\x80\x80\x80\0\x08\xAC\x02\
    \x8B\x80\x80\x80\0\x01\0\0\0\0\0";

/// Texts that are refused, and the lines that say so.
static REFUSED: [(&[u8], &str); 12] = [
    (
        b"class 5 long\nevent 8 t.A\nfield n 5 -\nrecord 8 x\n",
        "line 4: ValueBad\n",
    ),
    (
        b"class 5 long\nevent 8 t.A\nfield n 6 -\nrecord 8 300\n",
        "line 3: UnknownType\n",
    ),
    (b"class 5 long\nclass 5 int\n", "line 2: ClassTwice\n"),
    (b"\xef\xbb\xbfclass 5 long\n", "line 1: LineBad\n"),
    (
        b"class 5 long\r\nevent 8 t.A\r\nfield n 5 -\r\n",
        "line 3: LineBad\n",
    ),
    (b"class\t5 long\n", "line 1: LineBad\n"),
    (b"class  5 long\n", "line 1: LineBad\n"),
    (b"\n\nclass 5 \xff\n", "line 3: LineBad\n"),
    (b"record 8 1\nclass 5 long\n", "line 2: LineBad\n"),
    (
        b"class 6 java.lang.String\nconstant 6 1 \"a\n",
        "line 2: ValueBad\n",
    ),
    (
        b"class 5 long\nclass 9 a\nfield n 5 a\nconstant 9 1 [9223372036854775807 1 2",
        "line 4: ValueBad\n",
    ),
    (b"class 9223372036854775808 long", "line 1: LineBad\n"),
];

/// The command that builds a recording.
const BUILD: &[&str] = &["build", "t", "o"];

/// What is built, printed and scrubbed, and faults of places.
static BUILDS: [Said<'static>; 6] = [
    (BUILD, 0, "", ""),
    (&["print", "o"], 0, "t.A {\n  n = 300\n}\n", ""),
    (&["scrub", "o", "p"], 0, "", ""),
    (&["print", "p"], 0, "t.A {\n  n = 300\n}\n", ""),
    (BUILD, 4, "", "write fault\n"),
    (&["build", "none", "q"], 3, "", "read fault\n"),
];

/// Compares the output that is there.
fn see_built(rt: &impl Abort, place: &MemoryPlace) -> Result<(), Fail> {
    let built = place.file("o").ok_or("no output")?;
    assert!(rt; built.len() == 212 && built.ends_with(RECORDS));
    assert!(rt; place.file("q").is_none());
    Ok(())
}

#[test]
fn a_text_is_built(rt: HostRuntime) -> Result<(), Fail> {
    let mut place = place_with(rt.alloc(), "t", TEXT.as_bytes())?;
    say_all(&rt, rt.alloc(), &mut place, &BUILDS)?;
    see_built(&rt, &place)
}

/// Builds a text that is refused.
fn see_refused(rt: &impl Abort, alloc: Global, text: &[u8], fault: &str) -> Result<(), Fail> {
    let mut place = place_with(alloc, "t", text)?;
    says(rt, alloc, &mut place, (BUILD, 8, "", fault))?;
    assert!(rt; place.file("o").is_none(), "{fault}");
    Ok(())
}

#[test]
fn texts_are_refused(rt: HostRuntime) -> Result<(), Fail> {
    for (text, fault) in REFUSED.iter() {
        see_refused(&rt, rt.alloc(), text, fault)?;
    }
    Ok(())
}
