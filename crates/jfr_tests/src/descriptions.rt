//! Which descriptions of classes stay.
use crate::contents::FilePart::Assembled;
use crate::outputs::{Scrub, see_scrubs};
use crate::pieces::Piece::{Annotated, Bytes, Long, LongAndA, NamedByA, NamedByC};
use crate::places::place_with;
use crate::runs::says;
use jfr_fixtures::{NO_POOLS, jdk_like};
use jfr_outside::MemoryPlace;
use std::alloc::Global;
use std::process::Abort;
use std::test::Fail;

/// Scrubs that keep all events, those of `t.A` and those of `t.B`.
const ALL: &[&str] = &["scrub", "--include-events", "*", "a.jfr", "b.jfr"];

const ONLY_A: &[&str] = &["scrub", "--include-events", "t.A", "a.jfr", "b.jfr"];

const ONLY_B: &[&str] = &["scrub", "--include-events", "t.B", "a.jfr", "b.jfr"];

/// A class stays if a class that stays names it, in an annotation too, and however deep.
#[rattlefmt::skip]
static NAMED: [Scrub; 4] = [
    (
        ALL, (&[Assembled(&[Annotated, Bytes(&[2, 8]), Bytes(NO_POOLS)], 272, 68)], &[]),
        0, "", (&[Assembled(&[NamedByA, Bytes(&[2, 8]), Bytes(NO_POOLS)], 252, 68)], &[]),
    ),
    (
        ALL, (&[Assembled(&[Annotated, Bytes(&[2, 10]), Bytes(NO_POOLS)], 272, 68)], &[]),
        0, "", (&[Assembled(&[NamedByC, Bytes(&[2, 10]), Bytes(NO_POOLS)], 214, 68)], &[]),
    ),
    (
        ONLY_A, (&[Assembled(&[LongAndA, Bytes(&[3, 8, 7]), Bytes(NO_POOLS)], 205, 68)], &[]),
        0, "", (&[Assembled(&[LongAndA, Bytes(&[3, 8, 7]), Bytes(NO_POOLS)], 205, 68)], &[]),
    ),
    (
        ONLY_B, (&[Assembled(&[LongAndA, Bytes(&[3, 8, 7]), Bytes(NO_POOLS)], 205, 68)], &[]),
        0, "", (&[Assembled(&[Long, Bytes(NO_POOLS)], 150, 68)], &[]),
    ),
];

#[test]
fn classes_that_are_named_stay(rt: HostRuntime) -> Result<(), Fail> {
    see_scrubs(&rt, rt.alloc(), &NAMED)
}

/// Whether a text occurs in bytes.
fn occurs(bytes: &[u8], text: &str) -> bool {
    for at in 0..bytes.len() {
        if bytes[at..].starts_with(text.as_bytes()) {
            return true;
        }
    }
    false
}

/// Whether a text stays of the chunk that is like the JDK's, with the events of `ThreadPark`. With the events of a
/// class go its name, the names of its own fields, and the categories that only it has.
static STAYS: [(&str, bool); 9] = [
    ("jdk.ThreadPark", true),
    ("parkedClass", true),
    ("Java Application", true),
    ("jdk.JavaMonitorEnter", false),
    ("monitorClass", false),
    ("jdk.CPULoad", false),
    ("machineTotal", false),
    ("Operating System", false),
    ("Processor", false),
];

/// Compares which texts the chunk has, and which stay.
fn see_texts(rt: &impl Abort, input: &[u8], output: &[u8]) {
    for (text, stays) in STAYS.iter() {
        assert!(rt; occurs(input, text), "{text}");
        assert!(rt; occurs(output, text) == *stays, "{text}");
    }
}

const ONLY_PARK: &[&str] = &["scrub", "--include-events", "ThreadPark", "a.jfr", "b.jfr"];

/// Scrubs the chunk, and looks for the texts.
fn see_scrubbed(
    rt: &impl Abort,
    alloc: Global,
    place: &mut MemoryPlace,
    input: &[u8],
) -> Result<(), Fail> {
    says(rt, alloc, place, (ONLY_PARK, 0, "", ""))?;
    see_texts(rt, input, place.file("b.jfr").ok_or("no output")?);
    Ok(())
}

#[test]
fn names_of_classes_without_events_go(rt: HostRuntime) -> Result<(), Fail> {
    let input = jdk_like(rt.alloc())?;
    let mut place = place_with(rt.alloc(), "a.jfr", &input)?;
    see_scrubbed(&rt, rt.alloc(), &mut place, &input)
}
