//! Finding the length of a run of events by a galloping search.
ghost use Rattle.std.specs.Prelude.{◌≡◌, ◌+◌, ◌*◌, ◌<◌, ◌≤◌, ◌↔◌, ℕ, IsTrue};
ghost use Rattle.jfr_chunk.specs.Parts.{AreParts};
ghost use Rattle.jfr_scrub.specs.Runs.{HasEventAt, HasRoom, IsAtEvents};

use jfr_chunk::Chunk;
use jfr_output::RecordCursor;

/// The number of consecutive records, from the cursor's on, that are events. Event numbers rise with record
/// numbers: if record `r + k` is event `e + k`, all `k` records between are events. So only a few records
/// have to be tested: first at offsets that double, and then by binary search.
pub(crate) fn events_ahead(chunk: &Chunk, cursor: &RecordCursor) -> usize
    requires { IsAtEvents chunk.now cursor.now }
    ensures each { (offset : ℕ) → offset < result → HasEventAt chunk.now cursor.now offset }
    ensures last { HasEventAt chunk.now cursor.now result → ⊥ }
{
    let high = other_by_doubling(chunk, cursor);
    other_by_halving(chunk, cursor, high - high / 2, high)
}

/// An offset at which `is_event_at` is false, though it is true at all offsets below half of this one.
fn other_by_doubling(chunk: &Chunk, cursor: &RecordCursor) -> usize
    requires { IsAtEvents chunk.now cursor.now }
    ensures room { HasRoom cursor.now result }
    ensures before { (offset : ℕ) → 2 * offset < result → HasEventAt chunk.now cursor.now offset }
    ensures past { HasEventAt chunk.now cursor.now result → ⊥ }
{
    // Reading the numbers shows that they fit in 64 bits.
    let (_frame, _event) = (cursor.frame, cursor.event);
    let mut high = 0;
    'doubling: while is_event_at(chunk, cursor, high) {
        high = 2 * high + 1;
    }
    high
}

/// The first offset at which `is_event_at` is false. It is at least `low` and at most `high`.
fn other_by_halving(chunk: &Chunk, cursor: &RecordCursor, mut low: usize, mut high: usize) -> usize
    requires at { IsAtEvents chunk.now cursor.now }
    requires room { HasRoom cursor.now high }
    requires order { low ≤ high }
    requires before { (offset : ℕ) → offset < low → HasEventAt chunk.now cursor.now offset }
    requires past { HasEventAt chunk.now cursor.now high → ⊥ }
    ensures each { (offset : ℕ) → offset < result → HasEventAt chunk.now cursor.now offset }
    ensures last { HasEventAt chunk.now cursor.now result → ⊥ }
{
    'halving: while low < high {
        let middle = low + (high - low) / 2;
        if is_event_at(chunk, cursor, middle) {
            low = middle + 1;
        } else {
            high = middle;
        }
    }
    low
}

/// Whether the record at this offset from the cursor's is the event at the same offset from the cursor's.
#[inline(always)]
fn is_event_at(chunk: &Chunk, cursor: &RecordCursor, offset: usize) -> bool
    requires parts { AreParts chunk.now }
    requires room { HasRoom cursor.now offset }
    ensures { IsTrue result ↔ HasEventAt chunk.now cursor.now offset }
{
    match chunk.event_record(cursor.event + offset) {
        Some(record) => record == cursor.frame + offset,
        None => false,
    }
}
