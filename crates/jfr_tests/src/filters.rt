//! Scrubs with filters.
use crate::contents::FilePart::{Assembled, Chunk, JdkAfter, JdkLike, JdkUnnamed};
use crate::contents::{Content, OF_RINGS};
use crate::outputs::{Scrub, see_scrub, see_scrubs};
use crate::pieces::Piece::{
    AllLater, Enter, EnterAndLoadClasses, EnterClasses, Load, LoadClasses, NoJdkEventClasses,
    Nothing, NothingLater, OneTrace, Park, ParkAndEnterClasses, ParkClasses, Renamed, Symbols,
    ThreadAndSymbols, Unnamed,
};
use jfr_fixtures::{BYTES_LEFT, CLASSES, CLASSES_OF_A, CLASSES_OF_B, NO_EVENT_CLASSES, NO_POOLS};
use std::alloc::Global;
use std::process::Abort;
use std::test::Fail;

/// What stays of the chunk that is like the JDK's if no event is kept. The bytes that are changed are the first two of
/// the delta of the last checkpoint.
const NOTHING_LEFT: Content = (
    &[Assembled(&[Nothing, NoJdkEventClasses, NothingLater], 768, 78)],
    &[(775, 0xC4), (776, 0xFA)],
);

/// What stays of it if the second event is kept and the later thread of key 2 has no Java name.
const UNNAMED_LEFT: Content = (
    &[Assembled(&[Symbols, Enter, EnterClasses, Unnamed], 1022, 123)],
    &[(1029, 0xC6), (1030, 0xF8)],
);

/// Events go with the constants and the classes that only they need. These are chosen by their names.
#[rattlefmt::skip]
static BY_EVENTS: [Scrub; 3] = [
    (
        &["scrub", "--include-events", "ThreadPark", "a.jfr", "b.jfr"], (&[JdkLike], &[]), 0, "",
        (&[Assembled(&[ThreadAndSymbols, Park, ParkClasses, OneTrace], 1032, 140)], &[(1039, 0xBC), (1040, 0xF8)]),
    ),
    (
        &["scrub", "--exclude-events", "jdk.?,park", "a.jfr", "b.jfr"], (&[JdkLike], &[]), 0, "",
        (&[JdkAfter(ThreadAndSymbols, 1253, 162)], &[(1260, 0xDF), (1261, 0xF6)]),
    ),
    (
        &["scrub", "--include-events", "t.A", "a.jfr", "b.jfr"], (&[JdkLike], &[]), 0, "",
        NOTHING_LEFT,
    ),
];

/// These are chosen by their threads.
#[rattlefmt::skip]
static BY_THREADS: [Scrub; 3] = [
    (
        &["scrub", "--include-threads", "worker*", "a.jfr", "b.jfr"], (&[JdkLike], &[]), 0, "",
        (&[Assembled(&[Symbols, Enter, EnterClasses, Renamed], 1022, 123)], &[(1029, 0xC6), (1030, 0xF8)]),
    ),
    (
        &["scrub", "--exclude-threads", "main", "a.jfr", "b.jfr"], (&[JdkLike], &[]), 0, "",
        (&[Assembled(&[Symbols, Enter, Load, EnterAndLoadClasses, Renamed], 1135, 134)], &[(1142, 0xD5), (1143, 0xF7)]),
    ),
    (
        &["scrub", "--include-threads", "*", "a.jfr", "b.jfr"], (&[JdkLike], &[]), 0, "",
        (&[Assembled(&[ThreadAndSymbols, Park, Enter, ParkAndEnterClasses, AllLater], 1141, 151)], &[(1148, 0xCF), (1149, 0xF7)]),
    ),
];

/// This one is chosen by its categories.
#[rattlefmt::skip]
static BY_CATEGORIES: [Scrub; 1] = [
    (
        &["scrub", "--include-categories", "Operating*", "a.jfr", "b.jfr"], (&[JdkLike], &[]), 0, "",
        (&[Assembled(&[Nothing, Load, LoadClasses, NothingLater], 939, 89)], &[(946, 0x99), (947, 0xF9)]),
    ),
];

/// These are chosen by their times. A tick is a nanosecond, and tick 0 nanosecond 1000. So the first event is from
/// 2000 to 2050, the second from 2100 to 2160, and the third at 2200. The last row keeps no other event than the
/// first, and describes the second's class.
#[rattlefmt::skip]
static BY_TIMES: [Scrub; 4] = [
    (
        &["scrub", "--from", "2050", "--to", "2100", "a.jfr", "b.jfr"], (&[JdkLike], &[]), 0, "",
        (&[Assembled(&[ThreadAndSymbols, Park, ParkClasses, OneTrace], 1032, 140)], &[(1039, 0xBC), (1040, 0xF8)]),
    ),
    (
        &["scrub", "--from", "2160", "a.jfr", "b.jfr"], (&[JdkLike], &[]), 0, "",
        (&[Assembled(&[Symbols, Enter, Load, EnterAndLoadClasses, Renamed], 1135, 134)], &[(1142, 0xD5), (1143, 0xF7)]),
    ),
    (
        &["scrub", "--from", "2161", "--to", "2200", "--always", "ThreadPark", "a.jfr", "b.jfr"], (&[JdkLike], &[]), 0, "",
        (&[Assembled(&[ThreadAndSymbols, Park, ParkClasses, OneTrace], 1032, 140)], &[(1039, 0xBC), (1040, 0xF8)]),
    ),
    (
        &["scrub", "--include-events", "ThreadPark", "--describe", "JavaMonitorEnter", "a.jfr", "b.jfr"], (&[JdkLike], &[]), 0, "",
        (&[Assembled(&[ThreadAndSymbols, Park, ParkAndEnterClasses, OneTrace], 1130, 140)], &[(1137, 0xDA), (1138, 0xF7)]),
    ),
];

/// Compares what each scrub leaves, and that a second one changes nothing.
fn see_lasting(rt: &impl Abort, alloc: Global, rows: &[Scrub]) -> Result<(), Fail> {
    for (command, input, status, line, output) in rows {
        see_scrub(rt, alloc, (*command, *input, *status, *line, *output))?;
        see_scrub(rt, alloc, (*command, *output, *status, *line, *output))?;
    }
    Ok(())
}

#[test]
fn events_are_chosen(rt: HostRuntime) -> Result<(), Fail> {
    see_lasting(&rt, rt.alloc(), &BY_EVENTS)?;
    see_lasting(&rt, rt.alloc(), &BY_THREADS)?;
    see_lasting(&rt, rt.alloc(), &BY_CATEGORIES)
}

#[test]
fn times_choose_and_classes_are_described(rt: HostRuntime) -> Result<(), Fail> {
    see_lasting(&rt, rt.alloc(), &BY_TIMES)
}

/// A thread without a Java name goes by its system name. The empty text is a name.
#[rattlefmt::skip]
static THREADS: [Scrub; 3] = [
    (&["scrub", "--include-threads", "w", "a.jfr", "b.jfr"], (&[JdkUnnamed(0)], &[]), 0, "", UNNAMED_LEFT),
    (&["scrub", "--include-threads", "worker*", "a.jfr", "b.jfr"], (&[JdkUnnamed(0)], &[]), 0, "", NOTHING_LEFT),
    (&["scrub", "--include-threads", "w", "a.jfr", "b.jfr"], (&[JdkUnnamed(1)], &[]), 0, "", NOTHING_LEFT),
];

#[test]
fn threads_without_java_names_go_by_system_names(rt: HostRuntime) -> Result<(), Fail> {
    see_scrubs(&rt, rt.alloc(), &THREADS)
}

/// What stays of the rings of constants: the first event with the first ring, the second with the
/// second, and neither.
const FIRST_RING: &[u8] = &[
    5, 8, 0xAC, 2, 1, 0x13, 1, 0, 0, 0, 0, 1, 7, 2, 1, 2, 3, 1, 0x70, 2, 1, 3, 1, 0x71,
];

const SECOND_RING: &[u8] = &[
    3, 9, 3, 0x13, 1, 0, 0, 0, 0, 1, 7, 2, 3, 4, 3, 1, 0x72, 4, 3, 3, 1, 0x73,
];

const SECOND_WITH_A_BYTE_LEFT: &[u8] = &[
    4, 9, 3, 0xFF, 0x13, 1, 0, 0, 0, 0, 1, 7, 2, 3, 4, 3, 1, 0x72, 4, 3, 3, 1, 0x73,
];

/// A ring of constants stays whole, or goes whole.
#[rattlefmt::skip]
static RINGS_LEFT: [Scrub; 4] = [
    (
        &["scrub", "--include-events", "t.A", "a.jfr", "b.jfr"], (&[OF_RINGS], &[]), 0, "",
        (&[Chunk(&[CLASSES_OF_A, FIRST_RING], 307, 68)], &[]),
    ),
    (
        &["scrub", "--include-events", "t.B", "a.jfr", "b.jfr"], (&[OF_RINGS], &[]), 0, "",
        (&[Chunk(&[CLASSES_OF_B, SECOND_RING], 295, 68)], &[]),
    ),
    (
        &["scrub", "--include-events", "t.C", "a.jfr", "b.jfr"], (&[OF_RINGS], &[]), 0, "",
        (&[Chunk(&[NO_EVENT_CLASSES, NO_POOLS], 234, 68)], &[]),
    ),
    (
        &["scrub", "--include-events", "B", "a.jfr", "b.jfr"], (&[Chunk(&[CLASSES, BYTES_LEFT], 334, 68)], &[]), 0, "",
        (&[Chunk(&[CLASSES_OF_B, SECOND_WITH_A_BYTE_LEFT], 296, 68)], &[]),
    ),
];

#[test]
fn rings_stay_or_go(rt: HostRuntime) -> Result<(), Fail> {
    see_scrubs(&rt, rt.alloc(), &RINGS_LEFT)
}
