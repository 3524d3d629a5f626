//! Runs of the top call.
use jfr_cli::run;
use jfr_outside::{MemoryPlace, MemorySink, NoMemory, Place, Sink, SteadySink, Words};
use std::alloc::Global;
use std::process::Abort;
use std::test::Fail;

/// A command, its status, and what it writes to both streams.
pub(crate) type Said<'s> = (&'s [&'s str], u8, &'s str, &'s str);

/// The scrub of a.jfr to b.jfr.
pub(crate) const SCRUB: &[&str] = &["scrub", "a.jfr", "b.jfr"];

/// Adds words.
fn push_words(words: &mut Words, line: &[&str]) -> Result<(), NoMemory> {
    for word in line {
        words.push(word)?;
    }
    Ok(())
}

/// The words of a command line.
pub(crate) fn words(alloc: Global, line: &[&str]) -> Result<Words, NoMemory> {
    let mut words = Words::new(alloc);
    push_words(&mut words, line)?;
    Ok(words)
}

/// The status of a run of the top call. This function has no clauses, so a test that calls it is proved without those
/// of `run`, which would take most of the time.
pub(crate) fn status_of<P: Place, O: Sink, E: Sink>(
    alloc: Global,
    words: &Words,
    place: &mut P,
    out: &mut O,
    err: &mut E,
) -> u8 {
    run(alloc, words, place, out, err)
}

/// Compares a status and what both streams have.
fn see_answer(rt: &impl Abort, (line, status, text, fault): Said<'_>, found: (u8, &[u8], &[u8])) {
    let expected = (status, text.as_bytes(), fault.as_bytes());
    assert_eq!(rt; found, expected, "{line:?}");
}

/// Runs a command with these streams, and compares the status and what they have.
pub(crate) fn see_run(
    rt: &impl Abort,
    alloc: Global,
    place: &mut MemoryPlace,
    out: &mut MemorySink,
    err: &mut MemorySink,
    said: Said<'_>,
) -> Result<(), Fail> {
    let words = words(alloc, said.0)?;
    let status = status_of(alloc, &words, place, out, err);
    see_answer(rt, said, (status, out.bytes(), err.bytes()));
    Ok(())
}

/// Runs a command over a place in memory, and compares the status and both streams.
pub(crate) fn says(
    rt: &impl Abort,
    alloc: Global,
    place: &mut MemoryPlace,
    said: Said<'_>,
) -> Result<(), Fail> {
    let mut out = MemorySink::new(alloc);
    let mut err = MemorySink::new(alloc);
    see_run(rt, alloc, place, &mut out, &mut err, said)
}

/// Runs commands over a place in memory, one after another, and compares the status and both streams of each.
pub(crate) fn say_all(
    rt: &impl Abort,
    alloc: Global,
    place: &mut MemoryPlace,
    rows: &[Said<'_>],
) -> Result<(), Fail> {
    for said in rows {
        says(rt, alloc, place, *said)?;
    }
    Ok(())
}

/// A stream that fails after some bytes.
pub(crate) fn failing_sink(alloc: Global, keep: usize) -> Result<MemorySink, NoMemory> {
    let mut sink = MemorySink::new(alloc);
    sink.fail(1, keep)?;
    Ok(sink)
}

/// Runs a command whose standard output fails after three bytes, and compares these.
pub(crate) fn says_three_bytes(
    rt: &impl Abort,
    alloc: Global,
    place: &mut MemoryPlace,
    line: &[&str],
    taken: &str,
) -> Result<(), Fail> {
    let mut out = failing_sink(alloc, 3)?;
    let mut err = MemorySink::new(alloc);
    let said = (line, 4, taken, "write fault\n");
    see_run(rt, alloc, place, &mut out, &mut err, said)
}

/// Runs a command with steady streams over a place, and compares the status and both streams.
pub(crate) fn says_steadily<P: Place>(
    rt: &impl Abort,
    alloc: Global,
    place: &mut P,
    said: Said<'_>,
) -> Result<(), Fail> {
    let words = words(alloc, said.0)?;
    let mut out = SteadySink::new(alloc);
    let mut err = SteadySink::new(alloc);
    let status = status_of(alloc, &words, place, &mut out, &mut err);
    see_answer(rt, said, (status, out.bytes(), err.bytes()));
    Ok(())
}
