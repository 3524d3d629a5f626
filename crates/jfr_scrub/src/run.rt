//! Runs of kept events, which are copied as one range.
ghost use Rattle.std.specs.Prelude.{◌≡◌, false};
ghost use Rattle.jfr_chunk.specs.Parts.{events_of};
ghost use Rattle.jfr_output.specs.RemainingRecords.{IsCursor, is_kept_at};
ghost use Rattle.jfr_scrub.specs.Runs.{IsRun, Passes, is_in_run};
ghost use Rattle.jfr_scrub.specs.Scrubbing.{IsAccepted};

use crate::galloping::events_ahead;
use jfr_chunk::{Chunk, Kept};
use jfr_output::RecordCursor;

/// The range of the chunk that a run covers.
#[derive(Clone, Copy, Debug)]
pub(crate) struct Run {
    pub(crate) from: usize,
    pub(crate) to: usize,
}

/// The run of kept events that starts at the cursor and ends before the first other record. Moves the cursor
/// past it. No record is read.
#[inline(always)]
pub(crate) fn pass_run(chunk: &Chunk, kept: &Kept, cursor: &mut RecordCursor) -> Run
    requires { IsCursor chunk.now kept.now cursor.old }
    ensures cursor { IsCursor chunk.now kept.now cursor.new }
    ensures run { IsRun chunk.now kept.now cursor.old cursor.new result.from result.to }
    ensures all { is_in_run chunk.now kept.now cursor.new ≡ false }
{
    let frames = chunk.frames();
    let end = chunk.bytes().len();
    let from = frames.place(cursor.frame).unwrap_or(end);
    pass_kept(chunk, kept, cursor);
    let to = frames.place(cursor.frame).unwrap_or(end);
    Run { from, to }
}

/// Moves the cursor past the run.
fn pass_kept(chunk: &Chunk, kept: &Kept, cursor: &mut RecordCursor)
    requires accepted { IsAccepted chunk.now }
    requires cursor { IsCursor chunk.now kept.now cursor.old }
    ensures passed { Passes chunk.now kept.now cursor.old cursor.new }
    ensures all { is_in_run chunk.now kept.now cursor.new ≡ false }
{
    if kept.are_all() && kept.len() == chunk.event_count() {
        let count = events_ahead(chunk, cursor);
        cursor.frame += count;
        cursor.event += count;
        return;
    }
    pass_each(chunk, kept, cursor);
}

/// Moves the cursor past the run, one record at a time.
fn pass_each(chunk: &Chunk, kept: &Kept, cursor: &mut RecordCursor)
    requires accepted { IsAccepted chunk.now }
    requires cursor { IsCursor chunk.now kept.now cursor.old }
    ensures passed { Passes chunk.now kept.now cursor.old cursor.new }
    ensures all { is_in_run chunk.now kept.now cursor.new ≡ false }
{
    'run: while is_in_run(chunk, kept, cursor) {
        cursor.frame += 1;
        cursor.event += 1;
    }
}

/// Whether the cursor's record is that of the cursor's event, and the event is kept.
#[inline(always)]
fn is_in_run(chunk: &Chunk, kept: &Kept, cursor: &RecordCursor) -> bool
    ensures { result ≡ is_in_run chunk.now kept.now cursor.now }
{
    match chunk.frames().place(cursor.frame) {
        Some(at) => is_kept_at(chunk, kept, cursor.event, at),
        None => false,
    }
}

/// Whether the event with this number starts at this offset and is kept.
#[inline(always)]
fn is_kept_at(chunk: &Chunk, kept: &Kept, number: usize, at: usize) -> bool
    ensures { result ≡ is_kept_at (events_of chunk.now) kept.now number at }
{
    match chunk.event_place(number) {
        Some(place) => place == at && kept.is_kept(number),
        None => false,
    }
}
