//! Scrubs of the plain chunk.
use crate::contents::FilePart::{Bytes, Chunk, Plain, Start};
use crate::contents::{Content, EMPTY, INERT, ONE_PLAIN, TWO_PLAIN, bytes_of};
use crate::outputs::{
    Refused, Scrub, run_in_memory, run_steadily, see_output, see_refused, see_scrubs,
};
use crate::places::place_of;
use crate::plays::{Play, see_plays};
use crate::runs::{SCRUB, Said, say_all, says_steadily};
use jfr_fixtures::{NO_CLASSES, NO_POOLS};
use jfr_outside::{Call, MemoryPlace, Place, SteadyPlace};
use std::alloc::Global;
use std::process::Abort;
use std::test::Fail;

/// Two chunks come out as they are, however reads are cut.
#[test]
fn plain_chunks_stay(rt: HostRuntime) -> Result<(), Fail> {
    let bytes = bytes_of(rt.alloc(), TWO_PLAIN)?;
    for size in 1..=104 {
        run_in_memory(&rt, rt.alloc(), &bytes, size, (SCRUB, 0, "", ""), &bytes)?;
    }
    Ok(())
}

/// Over a steady place too.
#[test]
fn plain_chunks_stay_over_a_steady_place(rt: HostRuntime) -> Result<(), Fail> {
    let bytes = bytes_of(rt.alloc(), TWO_PLAIN)?;
    let said = (SCRUB, 0, "", "");
    run_steadily(&rt, rt.alloc(), &bytes, usize::MAX, said, &bytes)
}

/// Records that belong to nothing go.
static WITHOUT_INERT: [Scrub; 1] = [(SCRUB, (&[INERT], &[]), 0, "", ONE_PLAIN)];

#[test]
fn inert_records_go(rt: HostRuntime) -> Result<(), Fail> {
    see_scrubs(&rt, rt.alloc(), &WITHOUT_INERT)
}

/// Bytes of the plain chunk are changed, and it is refused for the first flaw.
#[rattlefmt::skip]
static CHANGED: [Refused; 17] = [
    ((&[Plain], &[(0, 0x47)]), "chunk 1 offset 0: Magic\n"),
    ((&[Plain], &[(5, 0x01)]), "chunk 1 offset 4: Version\n"),
    ((&[Plain], &[(64, 0x01)]), "chunk 1 offset 64: Unfinished\n"),
    ((&[Plain], &[(64, 0x01), (67, 0x00)]), "chunk 1 offset 64: Unfinished\n"),
    ((&[Plain], &[(67, 0x00)]), "chunk 1 offset 67: NotCompact\n"),
    ((&[Plain], &[(15, 0x43)]), "chunk 1 offset 8: ChunkSize\n"),
    ((&[Plain], &[(12, 0x40)]), "chunk 1 offset 8: ChunkSize\n"),
    ((&[Plain], &[(12, 0x10)]), "chunk 1 offset 103: ShortChunk\n"),
    ((&[Plain], &[(96, 0x08)]), "chunk 1 offset 96: RecordSize\n"),
    ((&[Plain], &[(96, 0x01)]), "chunk 1 offset 96: RecordSize\n"),
    ((&[Plain], &[(31, 0x45)]), "chunk 1 offset 24: MetadataPosition\n"),
    ((&[Plain], &[(23, 0x44)]), "chunk 1 offset 16: PoolPosition\n"),
    ((&[Plain], &[(100, 0x01)]), "chunk 1 offset 100: ChainDelta\n"),
    ((&[Plain], &[(74, 0x02)]), "chunk 1 offset 74: StringKind\n"),
    ((&[Plain], &[(74, 0x06)]), "chunk 1 offset 74: StringKind\n"),
    ((&[Plain], &[(90, 0x02)]), "chunk 1 offset 90: StringIndex\n"),
    ((&[Plain], &[(93, 0x00)]), "chunk 1 offset 90: NoClasses\n"),
];

#[test]
fn changed_chunks_are_refused(rt: HostRuntime) -> Result<(), Fail> {
    see_refused(&rt, rt.alloc(), &CHANGED)
}

/// A metadata record with a tree of 16 levels after its strings.
#[rattlefmt::skip]
const SIXTEEN_LEVELS: &[u8] = &[
    70, 0, 0, 0, 1, 2, // 70 bytes, two texts
    3, 4, b'r', b'o', b'o', b't',
    3, 8, b'm', b'e', b't', b'a', b'd', b'a', b't', b'a',
    1, 0, 1, 1, 0, 1, 1, 0, 1, 1, 0, 1, // levels 1 to 4
    1, 0, 1, 1, 0, 1, 1, 0, 1, 1, 0, 1, // levels 5 to 8
    1, 0, 1, 1, 0, 1, 1, 0, 1, 1, 0, 1, // levels 9 to 12
    1, 0, 1, 1, 0, 1, 1, 0, 1, 1, 0, 0, // levels 13 to 16
];

/// A metadata record with a tree of 17 levels.
#[rattlefmt::skip]
const SEVENTEEN_LEVELS: &[u8] = &[
    73, 0, 0, 0, 1, 2, // 73 bytes, two texts
    3, 4, b'r', b'o', b'o', b't',
    3, 8, b'm', b'e', b't', b'a', b'd', b'a', b't', b'a',
    1, 0, 1, 1, 0, 1, 1, 0, 1, 1, 0, 1, // levels 1 to 4
    1, 0, 1, 1, 0, 1, 1, 0, 1, 1, 0, 1, // levels 5 to 8
    1, 0, 1, 1, 0, 1, 1, 0, 1, 1, 0, 1, // levels 9 to 12
    1, 0, 1, 1, 0, 1, 1, 0, 1, 1, 0, 1, // levels 13 to 16
    1, 0, 0, // level 17
];

/// The plain chunk made of its records.
const OF_RECORDS: Content = (&[Chunk(&[NO_CLASSES, NO_POOLS], 96, 68)], &[]);

/// Records of the plain chunk are its own, and it stays, or others, and it is refused for the first flaw: checkpoints
/// that end too early and too late, and a tree that is too deep.
#[rattlefmt::skip]
static OTHER_RECORDS: [Scrub; 4] = [
    (SCRUB, OF_RECORDS, 0, "", OF_RECORDS),
    (SCRUB, (&[Chunk(&[NO_CLASSES, &[4, 1, 0, 0]], 96, 68)], &[]), 2, "chunk 1 offset 100: Short\n", EMPTY),
    (SCRUB, (&[Chunk(&[NO_CLASSES, &[8, 1, 0, 0, 0, 0, 0, 0]], 96, 68)], &[]), 2, "chunk 1 offset 103: Trailing\n", EMPTY),
    (SCRUB, (&[Chunk(&[SEVENTEEN_LEVELS, NO_POOLS], 141, 68)], &[]), 2, "chunk 1 offset 138: TreeDeep\n", EMPTY),
];

#[test]
fn other_records_are_refused(rt: HostRuntime) -> Result<(), Fail> {
    see_scrubs(&rt, rt.alloc(), &OTHER_RECORDS)
}

/// The tree of 16 levels without the text that it doesn't use.
#[rattlefmt::skip]
const SIXTEEN_LEVELS_SLIM: &[u8] = &[
    0xC4, 0x80, 0x80, 0x80, 0, 0, 0, 0, 1, 1, // 68 bytes, one text
    3, 8, b'm', b'e', b't', b'a', b'd', b'a', b't', b'a',
    0, 0, 1, 0, 0, 1, 0, 0, 1, 0, 0, 1, // levels 1 to 4
    0, 0, 1, 0, 0, 1, 0, 0, 1, 0, 0, 1, // levels 5 to 8
    0, 0, 1, 0, 0, 1, 0, 0, 1, 0, 0, 1, // levels 9 to 12
    0, 0, 1, 0, 0, 1, 0, 0, 1, 0, 0, 0, // levels 13 to 16
];

#[rattlefmt::skip]
static SIXTEEN: [Scrub; 1] = [
    (SCRUB, (&[Chunk(&[SIXTEEN_LEVELS, NO_POOLS], 138, 68)], &[]), 0, "", (&[Chunk(&[SIXTEEN_LEVELS_SLIM, NO_POOLS], 136, 68)], &[])),
];

#[test]
fn sixteen_levels_are_scrubbed(rt: HostRuntime) -> Result<(), Fail> {
    see_scrubs(&rt, rt.alloc(), &SIXTEEN)
}

/// A recording that ends early is refused at its end, and the chunks before stay.
#[rattlefmt::skip]
static CUT: [Scrub; 5] = [
    (SCRUB, EMPTY, 2, "chunk 1 offset 0: NoChunk\n", EMPTY),
    (SCRUB, (&[Start(67)], &[]), 2, "chunk 1 offset 67: ShortHeader\n", EMPTY),
    (SCRUB, (&[Start(68)], &[]), 2, "chunk 1 offset 68: ShortChunk\n", EMPTY),
    (SCRUB, (&[Plain, Start(100)], &[]), 2, "chunk 2 offset 100: ShortChunk\n", ONE_PLAIN),
    (SCRUB, (&[Plain, Plain, Start(1)], &[]), 2, "chunk 3 offset 1: ShortHeader\n", TWO_PLAIN),
];

#[test]
fn cut_recordings_are_refused(rt: HostRuntime) -> Result<(), Fail> {
    see_scrubs(&rt, rt.alloc(), &CUT)
}

/// A recording of two chunks.
const RECORDING: &[(&str, Content)] = &[("a.jfr", TWO_PLAIN)];

const READ_FAULT: &[Said<'static>] = &[(SCRUB, 3, "", "read fault\n")];

const WRITE_FAULT: &[Said<'static>] = &[(SCRUB, 4, "", "write fault\n")];

/// Calls of the outside that fail, an input that isn't there, and an output that is there already.
#[rattlefmt::skip]
static FAULTS: [Play; 7] = [
    Play { files: RECORDING, faults: &[(Call::Open, 1, 10)], commands: READ_FAULT, left: &[("b.jfr", None)] },
    Play { files: RECORDING, faults: &[(Call::Read, 1, 10)], commands: READ_FAULT, left: &[("b.jfr", Some(EMPTY))] },
    Play { files: RECORDING, faults: &[(Call::Create, 1, 10)], commands: WRITE_FAULT, left: &[("b.jfr", None)] },
    Play { files: RECORDING, faults: &[(Call::Append, 2, 10)], commands: WRITE_FAULT, left: &[("b.jfr", Some((&[Plain, Start(10)], &[])))] },
    Play { files: RECORDING, faults: &[(Call::Finish, 1, 10)], commands: WRITE_FAULT, left: &[("b.jfr", Some(TWO_PLAIN))] },
    Play { files: &[], faults: &[], commands: READ_FAULT, left: &[("b.jfr", None)] },
    Play { files: &[("a.jfr", TWO_PLAIN), ("b.jfr", (&[Bytes(b"mine")], &[]))], faults: &[], commands: WRITE_FAULT, left: &[("b.jfr", Some((&[Bytes(b"mine")], &[])))] },
];

#[test]
fn faults_are_reported(rt: HostRuntime) -> Result<(), Fail> {
    see_plays(&rt, rt.alloc(), &FAULTS)
}

/// A recording, how many bytes a read gives at most, which read fails, and what is said.
type Failing = (Content, usize, u64, Said<'static>);

/// The plain chunk as a file.
static PLAIN_FILE: [(&str, Content); 1] = [("a.jfr", ONE_PLAIN)];

/// A read fails in mid-header, and where the header was refused already.
#[rattlefmt::skip]
static IN_HEADER: [Failing; 2] = [
    (ONE_PLAIN, 40, 2, (SCRUB, 3, "", "read fault\n")),
    ((&[Plain], &[(0, 0x47)]), 34, 3, (SCRUB, 2, "", "chunk 1 offset 0: Magic\n")),
];

/// Makes a read fail, and compares what is said; the output is empty.
fn see_failing_in(
    rt: &impl Abort,
    alloc: Global,
    place: &mut MemoryPlace,
    (_, size, nth, said): Failing,
) -> Result<(), Fail> {
    place.cut(size.max(1));
    place.fail(Call::Read, nth, 0)?;
    see_output(rt, alloc, place, said, &[])
}

/// Does so over a place with the recording.
fn see_failing(rt: &impl Abort, alloc: Global, failing: Failing) -> Result<(), Fail> {
    let mut place = place_of(alloc, &[("a.jfr", failing.0)])?;
    see_failing_in(rt, alloc, &mut place, failing)
}

/// Creates an output, which stays open.
fn open_output(place: &mut MemoryPlace) -> bool {
    place.create_output("c.jfr").is_ok()
}

/// An output is open already.
fn see_open_output(rt: &impl Abort, alloc: Global, place: &mut MemoryPlace) -> Result<(), Fail> {
    assert!(rt; open_output(place));
    say_all(rt, alloc, place, WRITE_FAULT)?;
    assert!(rt; place.file("b.jfr").is_none());
    Ok(())
}

#[test]
fn the_first_event_decides(rt: HostRuntime) -> Result<(), Fail> {
    for failing in IN_HEADER.iter() {
        see_failing(&rt, rt.alloc(), *failing)?;
    }
    let mut place = place_of(rt.alloc(), &PLAIN_FILE)?;
    see_open_output(&rt, rt.alloc(), &mut place)
}

const USAGE: &str =
    "usage: jfr print|summary|metadata|scrub|disassemble|assemble|sample|receipt|verify|build|stacks|mask\n";

/// Every other list of words is a usage fault, and nothing is asked of the place: calls that would fail do so
/// after it.
static OTHER_WORDS: [&[&str]; 23] = [
    &[],
    &["--help"],
    &["frobnicate", "x"],
    &["scrub", "a.jfr"],
    &["print", "--depth", "9", "a.jfr"],
    &["sample", "1", "0"],
    &["scrub", "--include-events", "b.jfr"],
    &["scrub", "a.jfr", ""],
    &["scrub", "a.jfr", "b.jfr", "c.jfr"],
    &["scrubs", "a.jfr", "b.jfr"],
    &["scrub", "--include-events"],
    &["scrub", "--include-events", "A"],
    &["scrub", "--include-events", "A", "a.jfr"],
    &["scrub", "--include-event", "A", "a.jfr", "b.jfr"],
    &["scrub", "--include-events", "A,,B", "a.jfr", "b.jfr"],
    &["scrub", "--exclude-threads", "", "a.jfr", "b.jfr"],
    &["scrub", "a.jfr", "b.jfr", "--include-events", "A"],
    &["scrub", "a.jfr", "--include-events", "A", "b.jfr"],
    &["--include-events", "A", "scrub", "a.jfr", "b.jfr"],
    &[
        "scrub",
        "--include-events",
        "A",
        "--include-events",
        "B",
        "a.jfr",
        "b.jfr",
    ],
    &["scrub", "--include-events", "A", "a.jfr", "b.jfr", "c.jfr"],
    &["mask", "--known", "k", "--table", "t", "a.jfr", "b.jfr"],
    &["mask", "--strings", "*", "a.jfr"],
];

/// What a place says then whose next open and whose next create fail.
static NEXT: [Said<'static>; 2] = [
    (SCRUB, 3, "", "read fault\n"),
    (SCRUB, 4, "", "write fault\n"),
];

/// Makes the next open and the next create fail, runs a command that is a usage fault, and compares that both are still
/// to fail.
fn misuse(
    rt: &impl Abort,
    alloc: Global,
    place: &mut MemoryPlace,
    line: &[&str],
) -> Result<(), Fail> {
    place.fail(Call::Open, 1, 0)?;
    place.fail(Call::Create, 1, 0)?;
    says_steadily(rt, alloc, place, (line, 1, "", USAGE))?;
    say_all(rt, alloc, place, &NEXT)
}

fn see_usage(rt: &impl Abort, alloc: Global, line: &[&str]) -> Result<(), Fail> {
    let mut place = place_of(alloc, &PLAIN_FILE)?;
    misuse(rt, alloc, &mut place, line)
}

#[test]
fn other_words_are_a_usage_fault(rt: HostRuntime) -> Result<(), Fail> {
    for line in OTHER_WORDS.iter() {
        see_usage(&rt, rt.alloc(), line)?;
    }
    Ok(())
}

/// Options in any order, whatever their values are.
static OPTIONS: [&[&str]; 4] = [
    &["scrub", "--include-events", "A,B", "a.jfr", "b.jfr"],
    &["scrub", "--exclude-categories", "-", "a.jfr", "b.jfr"],
    &[
        "scrub",
        "--include-events",
        "--x",
        "--exclude-threads",
        "-y",
        "a.jfr",
        "b.jfr",
    ],
    &[
        "scrub",
        "--exclude-threads",
        "--include-threads",
        "--include-threads",
        "scrub",
        "--exclude-events",
        "a.jfr",
        "--include-categories",
        "*",
        "--exclude-categories",
        "?",
        "--include-events",
        "A",
        "scrub",
        "b.jfr",
    ],
];

/// Their input isn't there.
fn see_options(rt: &impl Abort, alloc: Global, line: &[&str]) -> Result<(), Fail> {
    let mut place = SteadyPlace::new(alloc);
    says_steadily(rt, alloc, &mut place, (line, 3, "", "read fault\n"))
}

#[test]
fn options_come_before_the_names(rt: HostRuntime) -> Result<(), Fail> {
    for line in OPTIONS.iter() {
        see_options(&rt, rt.alloc(), line)?;
    }
    Ok(())
}
