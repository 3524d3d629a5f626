//! Scrubs over a place in memory.
use crate::outputs::run_in_memory;
use crate::runs::SCRUB;
use std::alloc::Global;
use std::process::Abort;
use std::test::Fail;

/// Scrubs a recording, and compares the status, the line and the output.
pub(crate) fn see_scrub(
    rt: &impl Abort,
    alloc: Global,
    recording: &[u8],
    status: u8,
    line: &str,
    output: &[u8],
) -> Result<(), Fail> {
    let said = (SCRUB, status, "", line);
    run_in_memory(rt, alloc, recording, recording.len(), said, output)
}
