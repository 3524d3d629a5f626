//! Commands from a.jfr to b.jfr over places in memory and over steady ones.
use crate::contents::{Content, EMPTY, bytes_of};
use crate::places::{place_with, steady_place};
use crate::runs::{SCRUB, Said, says, says_steadily};
use jfr_outside::{MemoryPlace, SteadyPlace};
use std::alloc::Global;
use std::process::Abort;
use std::test::Fail;

/// Compares b.jfr.
fn see_bytes(
    rt: &impl Abort,
    (command, _, _, line): Said<'_>,
    found: Option<&[u8]>,
    expected: &[u8],
) {
    assert!(rt; found == Some(expected), "{command:?} {line}");
}

/// Runs a command over a place in memory, and compares what it says and b.jfr.
pub(crate) fn see_output(
    rt: &impl Abort,
    alloc: Global,
    place: &mut MemoryPlace,
    said: Said<'_>,
    output: &[u8],
) -> Result<(), Fail> {
    says(rt, alloc, place, said)?;
    see_bytes(rt, said, place.file("b.jfr"), output);
    Ok(())
}

/// Runs a command over a steady place and with steady streams, and compares what it says and b.jfr.
fn see_steady_output(
    rt: &impl Abort,
    alloc: Global,
    place: &mut SteadyPlace,
    said: Said<'_>,
    output: &[u8],
) -> Result<(), Fail> {
    says_steadily(rt, alloc, place, said)?;
    see_bytes(rt, said, place.file("b.jfr"), output);
    Ok(())
}

/// Runs a command over a place in memory with a recording as a.jfr and reads of at most `size` bytes, which are at
/// least 1, and compares what it says and b.jfr.
pub(crate) fn run_in_memory(
    rt: &impl Abort,
    alloc: Global,
    recording: &[u8],
    size: usize,
    said: Said<'_>,
    output: &[u8],
) -> Result<(), Fail> {
    let mut place = place_with(alloc, "a.jfr", recording)?;
    place.cut(size.max(1));
    see_output(rt, alloc, &mut place, said, output)
}

/// Does the same over a steady place.
pub(crate) fn run_steadily(
    rt: &impl Abort,
    alloc: Global,
    recording: &[u8],
    size: usize,
    said: Said<'_>,
    output: &[u8],
) -> Result<(), Fail> {
    let mut place = steady_place(alloc, recording)?;
    place.cut(size.max(1));
    see_steady_output(rt, alloc, &mut place, said, output)
}

/// Runs a command over both places, with reads of one byte, of a header and of all.
fn run_over_places(
    rt: &impl Abort,
    alloc: Global,
    recording: &[u8],
    said: Said<'_>,
    output: &[u8],
) -> Result<(), Fail> {
    for size in [1, 68, 4096] {
        run_in_memory(rt, alloc, recording, size, said, output)?;
        run_steadily(rt, alloc, recording, size, said, output)?;
    }
    Ok(())
}

/// A command, what a.jfr has, the status, the line on the error stream, and what b.jfr has then.
pub(crate) type Scrub = (&'static [&'static str], Content, u8, &'static str, Content);

/// Compares what a command says and leaves.
pub(crate) fn see_scrub(
    rt: &impl Abort,
    alloc: Global,
    (command, input, status, line, output): Scrub,
) -> Result<(), Fail> {
    let recording = bytes_of(alloc, input)?;
    let output = bytes_of(alloc, output)?;
    run_over_places(rt, alloc, &recording, (command, status, "", line), &output)
}

/// Compares it for each row.
pub(crate) fn see_scrubs(rt: &impl Abort, alloc: Global, rows: &[Scrub]) -> Result<(), Fail> {
    for scrub in rows {
        see_scrub(rt, alloc, *scrub)?;
    }
    Ok(())
}

/// A recording that is refused, and the line that says why.
pub(crate) type Refused = (Content, &'static str);

/// Compares why each recording is refused, and that nothing is left of it.
pub(crate) fn see_refused(rt: &impl Abort, alloc: Global, rows: &[Refused]) -> Result<(), Fail> {
    for (input, line) in rows {
        see_scrub(rt, alloc, (SCRUB, *input, 2, *line, EMPTY))?;
    }
    Ok(())
}
