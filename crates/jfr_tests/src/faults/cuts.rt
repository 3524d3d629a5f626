//! Recordings that end anywhere in their first chunk.
use crate::faults::scrub::see_scrub;
use jfr_fixtures::{PLAIN, jdk_like};
use std::alloc::Global;
use std::process::Abort;
use std::test::Fail;

// Why a recording of `size` bytes is refused, if it ends before its first chunk does.
fn reason_of(size: usize) -> &'static str {
    match size {
        0 => "NoChunk",
        1..=67 => "ShortHeader",
        _ => "ShortChunk",
    }
}

// Each start of a chunk is refused at its end.
fn see_cuts(rt: &impl Abort, alloc: Global, chunk: &[u8]) -> Result<(), Fail> {
    for size in 0..chunk.len() {
        let reason = reason_of(size);
        let line = format!(in alloc; "chunk 1 offset {size}: {reason}\n")?;
        see_scrub(rt, alloc, &chunk[..size], 2, &line, &[])?;
    }
    Ok(())
}

#[test]
fn starts_of_chunks_are_refused(rt: HostRuntime) -> Result<(), Fail> {
    see_cuts(&rt, rt.alloc(), &PLAIN)?;
    see_cuts(&rt, rt.alloc(), &jdk_like(rt.alloc())?)
}
