//! Which events the options of a filter keep.
use crate::reading::with_chunk;
use jfr_chunk::{Chunk, Kept};
use jfr_filter::{Filter, Side};
use jfr_fixtures::{jdk_like, jdk_unnamed};
use jfr_path::choose;
use std::alloc::Global;
use std::process::Abort;
use std::test::Fail;

/// Which of the events of the chunk that is like the JDK's are kept.
const PARK: &[bool] = &[true, false, false];

const ENTER: &[bool] = &[false, true, false];

const LOAD: &[bool] = &[false, false, true];

const PARK_AND_ENTER: &[bool] = &[true, true, false];

const ENTER_AND_LOAD: &[bool] = &[false, true, true];

const NONE: &[bool] = &[false, false, false];

/// Gives an option to a filter that lacks it.
fn give(filter: &mut Filter, side: Side, list: &str) -> Result<(), Fail> {
    if filter.has(side) {
        Err("the option is given already")?;
    }
    filter.add(side, list)?;
    Ok(())
}

/// The filter of one option.
pub(crate) fn filter_of(alloc: Global, side: Side, list: &str) -> Result<Filter, Fail> {
    let mut filter = Filter::new(alloc);
    give(&mut filter, side, list)?;
    Ok(filter)
}

/// Whether these are the flags of all events.
fn has_flags(kept: &Kept, flags: &[bool]) -> bool {
    for (number, flag) in flags.iter().enumerate() {
        if kept.get(number) != Some(*flag) {
            return false;
        }
    }
    kept.len() == flags.len()
}

/// An option, its list, and the events that it keeps.
type Choice = (Side, &'static str, &'static [bool]);

/// Compares which events of a chunk an option keeps.
fn compare_choice(
    rt: &impl Abort,
    alloc: Global,
    chunk: &Chunk<'_>,
    (side, list, flags): Choice,
) -> Result<(), Fail> {
    let filter = filter_of(alloc, side, list)?;
    let kept = choose(alloc, chunk, &filter)?;
    assert!(rt; has_flags(&kept, flags), "{list}");
    Ok(())
}

/// By class, by the name in force of the thread, and by category.
const CHOICES: [Choice; 8] = [
    (Side::IncludeEvents, "ThreadPark", PARK),
    (Side::ExcludeEvents, "jdk.*Park,CPULoad", ENTER),
    (Side::IncludeThreads, "worker*", ENTER),
    (Side::IncludeThreads, "worker-1", NONE),
    (Side::IncludeThreads, "*", PARK_AND_ENTER),
    (Side::ExcludeThreads, "main", ENTER_AND_LOAD),
    (Side::IncludeCategories, "Operating*", LOAD),
    (Side::ExcludeCategories, "Processor", PARK_AND_ENTER),
];

/// Compares which events of a chunk each option keeps.
fn compare_choices(rt: &impl Abort, alloc: Global, chunk: &Chunk<'_>) -> Result<(), Fail> {
    for choice in CHOICES.iter() {
        compare_choice(rt, alloc, chunk, *choice)?;
    }
    Ok(())
}

#[test]
fn events_are_chosen(rt: HostRuntime) -> Result<(), Fail> {
    let bytes = jdk_like(rt.alloc())?;
    with_chunk(rt.alloc(), &bytes, |chunk| {
        compare_choices(&rt, rt.alloc(), chunk)
    })
}

/// A kind of Java name, a list of threads, and the events that it keeps.
type Threads = (u8, &'static str, &'static [bool]);

const THREADS: [Threads; 7] = [
    (0, "w", ENTER),
    (0, "worker*", NONE),
    (0, "main", PARK),
    (0, "?*", PARK_AND_ENTER),
    (1, "w", NONE),
    (1, "?*", PARK),
    (1, "*", PARK_AND_ENTER),
];

/// Compares which events a list of threads keeps of the chunk whose thread of key 2 has the system name `w`
/// and a Java name of this kind.
fn compare_threads(
    rt: &impl Abort,
    alloc: Global,
    (kind, list, flags): Threads,
) -> Result<(), Fail> {
    let bytes = jdk_unnamed(alloc, kind)?;
    with_chunk(alloc, &bytes, |chunk| {
        compare_choice(rt, alloc, chunk, (Side::IncludeThreads, list, flags))
    })
}

/// A thread without a Java name goes by its system name. The empty text is a name.
#[test]
fn threads_go_by_their_system_names(rt: HostRuntime) -> Result<(), Fail> {
    for threads in THREADS.iter() {
        compare_threads(&rt, rt.alloc(), *threads)?;
    }
    Ok(())
}
