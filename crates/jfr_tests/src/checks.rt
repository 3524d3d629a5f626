//! Receipts and their checks, and scrubs with new keys.
use crate::contents::FilePart::{Bytes, Chunk};
use crate::contents::{Content, OF_RINGS, ONE_PLAIN};
use crate::outputs::{Scrub, see_scrubs};
use crate::places::place_of;
use crate::plays::{Play, see_play};
use crate::runs::{Said, say_all, says_three_bytes};
use jfr_fixtures::{CLASSES, CLASSES_OF_B};
use jfr_outside::MemoryPlace;
use std::alloc::Global;
use std::process::Abort;
use std::test::Fail;

/// The receipt of the first event of the chunk of rings.
const RECEIPT: &[u8] = &[2, 0, 0, 0, 1, 1, 0];

/// Two entries that refer to each other.
const IN_A_CIRCLE: &[u8] = &[2, 0, 1, 1, 1, 1, 0];

/// The chunk of rings, once and twice, the plain chunk, and a receipt that isn't one.
const FILES: &[(&str, Content)] = &[
    ("in", (&[OF_RINGS], &[])),
    ("twice", (&[OF_RINGS, OF_RINGS], &[])),
    ("plain", ONE_PLAIN),
    ("circle", (&[Bytes(IN_A_CIRCLE)], &[])),
];

/// The receipt and the scrub of the first event.
#[rattlefmt::skip]
static OF_FIRST: Play = Play {
    files: FILES,
    faults: &[],
    commands: &[
        (&["receipt", "--include-events", "t.A", "in", "receipt"], 0, "", ""),
        (&["scrub", "--include-events", "t.A", "in", "out"], 0, "", ""),
    ],
    left: &[],
};

/// A place with the files, this receipt and this scrub.
fn with_receipt(rt: &impl Abort, alloc: Global) -> Result<MemoryPlace, Fail> {
    let mut place = place_of(alloc, OF_FIRST.files)?;
    say_all(rt, alloc, &mut place, OF_FIRST.commands)?;
    Ok(place)
}

const CHECK_OF_FIRST: &[&str] = &["verify", "--include-events", "t.A", "in", "out", "receipt"];

/// Checks of outputs by receipts.
#[rattlefmt::skip]
static CHECKS: [Said<'static>; 6] = [
    (CHECK_OF_FIRST, 0, "verified 1\n", ""),
    (&["verify", "--include-events", "t.A", "in", "out", "circle"], 7, "", "chunk 1: ReceiptBad\n"),
    (&["verify", "--include-events", "t.A", "in", "plain", "receipt"], 7, "", "chunk 1: EventsDiffer\n"),
    (&["verify", "--include-events", "t.A", "in", "twice", "receipt"], 7, "", "chunk 1: EventsDiffer\n"),
    (&["verify", "--include-events", "t.A", "in", "circle", "receipt"], 7, "", "chunk 1: OutRefused\n"),
    (&["verify", "--include-events", "t.A", "in", "out", "none"], 3, "", "read fault\n"),
];

/// Compares the receipt, and the checks.
fn see_checks(rt: &impl Abort, alloc: Global, place: &mut MemoryPlace) -> Result<(), Fail> {
    assert!(rt; place.file("receipt") == Some(RECEIPT));
    say_all(rt, alloc, place, &CHECKS)
}

#[test]
fn outputs_are_verified_by_receipts(rt: HostRuntime) -> Result<(), Fail> {
    let mut place = with_receipt(&rt, rt.alloc())?;
    see_checks(&rt, rt.alloc(), &mut place)
}

/// Other filters, and a recording of two chunks.
#[rattlefmt::skip]
static OTHERS: Play = Play {
    files: FILES,
    faults: &[],
    commands: &[
        (&["receipt", "twice", "r"], 0, "", ""),
        (&["scrub", "twice", "o"], 0, "", ""),
        (&["verify", "twice", "o", "r"], 0, "verified 2\n", ""),
        (&["verify", "in", "o", "r"], 7, "", "chunk 2: ChunksDiffer\n"),
        (&["verify", "--exclude-events", "t.B", "twice", "o", "r"], 7, "", "chunk 1: EventsDiffer\n"),
        (&["verify", "circle", "o", "r"], 2, "", "chunk 1 offset 7: ShortHeader\n"),
    ],
    left: &[],
};

#[test]
fn other_outputs_are_verified(rt: HostRuntime) -> Result<(), Fail> {
    see_play(&rt, rt.alloc(), &OTHERS)
}

/// The number of chunks couldn't be written.
#[test]
fn a_verdict_is_lost(rt: HostRuntime) -> Result<(), Fail> {
    let mut place = with_receipt(&rt, rt.alloc())?;
    says_three_bytes(&rt, rt.alloc(), &mut place, CHECK_OF_FIRST, "ver")
}

/// The second event and its ring.
const SECOND: &[u8] = &[
    3, 9, 0, 0x13, 1, 0, 0, 0, 0, 1, 7, 2, 0, 1, 3, 1, 0x72, 1, 0, 3, 1, 0x73,
];

/// Both events and one ring, to which the two are merged.
const MERGED: &[u8] = &[
    5, 8, 0xAC, 2, 0, 3, 9, 0, 0x13, 1, 0, 0, 0, 0, 1, 7, 2, 0, 1, 3, 1, 0x70, 1, 0, 3, 1, 0x71,
];

/// Scrubs with new keys of the chunk of rings, and of this chunk with two equal strings.
#[rattlefmt::skip]
static NUMBERED: [Scrub; 2] = [
    (
        &["scrub", "--renumber", "yes", "--include-events", "t.B", "a.jfr", "b.jfr"],
        (&[OF_RINGS], &[]), 0, "", (&[Chunk(&[CLASSES_OF_B, SECOND], 295, 68)], &[]),
    ),
    (
        &["scrub", "--renumber", "yes", "--include-events", "*", "a.jfr", "b.jfr"],
        (&[OF_RINGS], &[(353, 2), (356, 0x70)]), 0, "", (&[Chunk(&[CLASSES, MERGED], 333, 68)], &[]),
    ),
];

#[test]
fn keys_are_numbered(rt: HostRuntime) -> Result<(), Fail> {
    see_scrubs(&rt, rt.alloc(), &NUMBERED)
}
