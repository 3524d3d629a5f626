//! Which events a time window keeps.
use crate::choice::filter_of;
use crate::reading::with_chunk;
use jfr_chunk::{Chunk, Kept};
use jfr_filter::{Filter, Side};
use jfr_fixtures::{Clock, timed};
use jfr_path::choose;
use std::alloc::Global;
use std::process::Abort;
use std::test::Fail;

/// A tick for each nanosecond, from 1000 on: the events 0, 1 and 2 start at 1100, and event 0 ends at 1150; event 7
/// is at 850. The others have no start that counts.
const USUAL: Clock = Clock {
    nanos: 1000,
    ticks: 100,
    rate: 1_000_000_000,
};

/// The ticks stand still.
const STILL: Clock = Clock {
    nanos: 1000,
    ticks: 100,
    rate: 0,
};

/// The ticks run backwards.
const BACKWARDS: Clock = Clock {
    nanos: 1000,
    ticks: 100,
    rate: -1_000_000_000,
};

/// Three ticks in a second: the events 0, 1 and 2 start at 66 seconds and two thirds, and event 0 ends at 83 seconds
/// and a third; event 7 is at minus 16 seconds and two thirds.
const THIRDS: Clock = Clock {
    nanos: 0,
    ticks: 0,
    rate: 3,
};

/// The earliest start of a chunk, and the most ticks in a second.
const FIRST: Clock = Clock {
    nanos: i64::MIN,
    ticks: i64::MIN,
    rate: i64::MAX,
};

/// The latest start.
const LAST: Clock = Clock {
    nanos: i64::MAX,
    ticks: i64::MAX,
    rate: i64::MAX,
};

const ALL: &[usize] = &[0, 1, 2, 3, 4, 5, 6, 7];

const TIMED: &[usize] = &[0, 1, 2, 7];

const NONE: &[usize] = &[];

/// A clock, the first moment of a window and the first one after it, and which events are kept.
type Row = (Clock, Option<i64>, Option<i64>, &'static [usize]);

static WINDOWS: [Row; 39] = [
    (USUAL, None, None, ALL),
    (USUAL, Some(850), None, TIMED),
    (USUAL, Some(851), None, &[0, 1, 2]),
    (USUAL, Some(1100), None, &[0, 1, 2]),
    (USUAL, Some(1101), None, &[0]),
    (USUAL, Some(1150), None, &[0]),
    (USUAL, Some(1151), None, NONE),
    (USUAL, None, Some(850), NONE),
    (USUAL, None, Some(851), &[7]),
    (USUAL, None, Some(1100), &[7]),
    (USUAL, None, Some(1101), TIMED),
    (USUAL, Some(1120), Some(1130), &[0]),
    (USUAL, Some(1120), Some(1120), &[0]),
    (USUAL, Some(1130), Some(1120), &[0]),
    (USUAL, Some(1151), Some(1100), NONE),
    (USUAL, Some(0), Some(800), NONE),
    (USUAL, Some(5000), Some(6000), NONE),
    (STILL, None, None, ALL),
    (STILL, Some(0), None, NONE),
    (STILL, None, Some(i64::MAX), NONE),
    (BACKWARDS, None, None, ALL),
    (BACKWARDS, Some(0), None, NONE),
    (BACKWARDS, None, Some(i64::MAX), NONE),
    (THIRDS, Some(-16_666_666_667), None, TIMED),
    (THIRDS, Some(-16_666_666_666), None, &[0, 1, 2]),
    (THIRDS, Some(66_666_666_666), None, &[0, 1, 2]),
    (THIRDS, Some(66_666_666_667), None, &[0]),
    (THIRDS, Some(83_333_333_333), None, &[0]),
    (THIRDS, Some(83_333_333_334), None, NONE),
    (THIRDS, None, Some(66_666_666_666), &[7]),
    (THIRDS, None, Some(66_666_666_667), TIMED),
    (FIRST, Some(i64::MIN), None, TIMED),
    (FIRST, Some(i64::MAX), None, NONE),
    (FIRST, None, Some(i64::MIN), NONE),
    (FIRST, None, Some(i64::MAX), TIMED),
    (LAST, Some(i64::MIN), None, TIMED),
    (LAST, Some(i64::MAX), None, NONE),
    (LAST, None, Some(i64::MIN), NONE),
    (LAST, None, Some(i64::MAX), TIMED),
];

/// Whether the events with these numbers are kept, and no others.
fn are_kept(kept: &Kept, numbers: &[usize]) -> bool {
    for number in 0..kept.len() {
        if kept.get(number) != Some(numbers.contains(&number)) {
            return false;
        }
    }
    kept.len() == ALL.len()
}

/// Sets the window of a filter.
fn set_window(filter: &mut Filter, from: Option<i64>, to: Option<i64>) {
    if let Some(from) = from {
        filter.set_from(from);
    }
    if let Some(to) = to {
        filter.set_to(to);
    }
}

/// Compares which events of a chunk a filter keeps.
fn compare_kept(
    rt: &impl Abort,
    alloc: Global,
    chunk: &Chunk<'_>,
    filter: &Filter,
    numbers: &[usize],
) -> Result<(), Fail> {
    let kept = choose(alloc, chunk, filter)?;
    assert!(rt;
        are_kept(&kept, numbers),
        "{:?} {:?}",
        filter.from(),
        filter.to()
    );
    Ok(())
}

/// Compares which events of the chunk with a clock a filter keeps.
fn compare_filter(
    rt: &impl Abort,
    alloc: Global,
    clock: Clock,
    filter: &Filter,
    numbers: &[usize],
) -> Result<(), Fail> {
    let bytes = timed(alloc, clock)?;
    with_chunk(alloc, &bytes, |chunk| {
        compare_kept(rt, alloc, chunk, filter, numbers)
    })
}

/// Compares which events a window keeps.
fn compare_window(
    rt: &impl Abort,
    alloc: Global,
    (clock, from, to, numbers): Row,
) -> Result<(), Fail> {
    let mut filter = Filter::new(alloc);
    set_window(&mut filter, from, to);
    compare_filter(rt, alloc, clock, &filter, numbers)
}

#[test]
fn windows_keep_events(rt: HostRuntime) -> Result<(), Fail> {
    for row in WINDOWS.iter() {
        compare_window(&rt, rt.alloc(), *row)?;
    }
    Ok(())
}

/// An option and its list, a window over a clock, and which events are kept.
type WithOption = (Side, &'static str, Row);

static OPTIONS: [WithOption; 14] = [
    (Side::Always, "t.Plain", (USUAL, None, None, ALL)),
    (Side::Always, "t.Plain", (USUAL, Some(5000), None, &[3])),
    (Side::Always, "Span", (USUAL, None, Some(850), &[0, 1, 7])),
    (
        Side::Always,
        "t.Array,Key",
        (USUAL, Some(1150), None, &[0, 4, 5]),
    ),
    (
        Side::Always,
        "t.Int",
        (USUAL, Some(1130), Some(1120), &[0, 6]),
    ),
    (
        Side::Always,
        "Start",
        (USUAL, Some(1150), Some(1151), &[0, 2]),
    ),
    (Side::Always, "*", (USUAL, Some(5000), Some(0), ALL)),
    (Side::Always, "t.Start", (STILL, Some(0), None, &[2])),
    (
        Side::Always,
        "t.*n",
        (BACKWARDS, None, Some(0), &[0, 1, 3, 7]),
    ),
    (Side::IncludeEvents, "t.S*", (USUAL, Some(1150), None, &[0])),
    (Side::IncludeEvents, "t.Plain", (USUAL, Some(0), None, NONE)),
    (
        Side::ExcludeEvents,
        "t.Span",
        (USUAL, Some(1100), None, &[2]),
    ),
    (Side::IncludeThreads, "*", (USUAL, Some(1100), None, NONE)),
    (
        Side::ExcludeThreads,
        "*",
        (USUAL, Some(1100), None, &[0, 1, 2]),
    ),
];

/// Compares which events a window and another option keep.
fn compare_option(
    rt: &impl Abort,
    alloc: Global,
    (side, list, (clock, from, to, numbers)): WithOption,
) -> Result<(), Fail> {
    let mut filter = filter_of(alloc, side, list)?;
    set_window(&mut filter, from, to);
    compare_filter(rt, alloc, clock, &filter, numbers)
}

#[test]
fn windows_join_other_options(rt: HostRuntime) -> Result<(), Fail> {
    for row in OPTIONS.iter() {
        compare_option(&rt, rt.alloc(), *row)?;
    }
    Ok(())
}
