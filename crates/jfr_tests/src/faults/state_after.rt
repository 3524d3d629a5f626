//! What is left after a call that failed.
use crate::faults::runs::{Fault, OUTPUTS, Run, run_once};
use std::alloc::Global;
use std::test::Fail;

/// What is left after a call that failed, given by runs over the first chunks in which no call fails.
#[derive(Clone, Copy)]
pub(crate) enum Left {
    /// No output, and no text.
    Nothing,
    /// What a run over this many chunks leaves, without a text that comes only at the end.
    Chunks(usize),
    /// What a run over this many chunks leaves, but of the last piece that it writes only the bytes that the
    /// failed call keeps.
    PartOf(usize),
}

/// A command over chunks, and whether its text comes only at the end.
pub(crate) struct Command {
    pub words: &'static [&'static str],
    pub at_end: bool,
}

// Whether a file has the same bytes as another, or neither is there.
fn is_same(file: Option<&[u8]>, other: Option<&[u8]>) -> bool {
    match (file, other) {
        (None, None) => true,
        (Some(file), Some(other)) => file == other,
        _ => false,
    }
}

// The bytes that a file had before, and the next `more` of those that it has now.
fn grown<'a>(now: Option<&'a [u8]>, before: Option<&[u8]>, more: usize) -> Option<&'a [u8]> {
    let now = now?;
    let size = match before {
        Some(bytes) => bytes.len().saturating_add(more),
        None => more,
    };
    Some(&now[..size.min(now.len())])
}

/// Whether a run left the files and the text of another.
pub(crate) fn leaves_same(run: &Run, whole: &Run) -> bool {
    for name in OUTPUTS.iter() {
        if !is_same(run.file(name), whole.file(name)) {
            return false;
        }
    }
    run.out.bytes() == whole.out.bytes()
}

// Whether a run left what one over fewer chunks does, and the next `more` bytes of what one over more chunks
// does.
fn is_between(command: &Command, run: &Run, before: &Run, now: &Run, more: usize) -> bool {
    for name in OUTPUTS.iter() {
        if !is_same(
            run.file(name),
            grown(now.file(name), before.file(name), more),
        ) {
            return false;
        }
    }
    let text = if command.at_end {
        None
    } else {
        Some(before.out.bytes())
    };
    is_same(
        Some(run.out.bytes()),
        grown(Some(now.out.bytes()), text, more),
    )
}

/// Whether this is left after a call that failed and kept this many bytes.
pub(crate) fn is_left(
    alloc: Global,
    command: &Command,
    run: &Run,
    left: Left,
    keep: usize,
) -> Result<bool, Fail> {
    let (before, now, more) = match left {
        Left::Nothing => return Ok(!run.has_file() && run.out.bytes().is_empty()),
        Left::Chunks(chunks) => (chunks, chunks, 0),
        Left::PartOf(chunks) => (chunks.saturating_sub(1), chunks, keep),
    };
    let before = run_once(alloc, command.words, before, Fault::Never, 0)?;
    let now = run_once(alloc, command.words, now, Fault::Never, 0)?;
    Ok(is_between(command, run, &before, &now, more))
}
