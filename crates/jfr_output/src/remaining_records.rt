//! The records of a chunk that remain in the output.
ghost use Rattle.std.specs.Prelude.{◌≡◌, ◌||◌, ◌+◌, ◌-◌, ◌^◌, ◌<◌, [], ◌∷◌, length, slice_get, option_map, is_some, if◌then◌else◌, ℕ, List, Option, IfSome, MatchOption, None, Some};
ghost use Rattle.jfr_chunk.specs.Parts.{events_of, metadata_at};
ghost use Rattle.jfr_chunk.specs.Reach.{kept_by};
ghost use Rattle.jfr_chunk.specs.Scrub.{output_record_by, output_record_of};
ghost use Rattle.jfr_output.specs.RemainingRecords.{IsRemaining, IsCursor, ShowsEvent, ShowsMetadata, event_after, is_kept_at, link_after, linked_at, output_record_for, output_records_from};

use jfr_chunk::{Chunk, Kept};
use jfr_frame::{Framed, Frames};
use jfr_pool::{Chain, Link};

/// A record of the chunk for which an output record is written. Events and chained checkpoints are numbered in the
/// order of the file.
#[derive(Clone, Copy, Debug)]
pub enum RemainingRecord {
    /// A kept event, which is written whole.
    Event(usize, Framed),
    /// The metadata record, which is written whole or rebuilt.
    Metadata(Framed),
    /// A chained checkpoint, which is written anew with the entries that remain.
    Chained(usize, Link),
}

/// The numbers of the next record, the next event and the next chained checkpoint.
#[derive(Clone, Copy, Debug)]
pub struct RecordCursor {
    pub frame: usize,
    pub event: usize,
    pub link: usize,
}

/// The next remaining record, if there is one. Moves the cursor past it. Only the records of kept events and the
/// metadata record are looked up; of the others only the offset is read.
#[inline(always)]
pub fn next_remaining_record(
    chunk: &Chunk,
    kept: &Kept,
    cursor: &mut RecordCursor,
) -> Option<RemainingRecord>
    requires { IsCursor chunk.now kept.now cursor.old }
    ensures cursor { IsCursor chunk.now kept.now cursor.new }
    ensures exact { (slim : Option (List ℕ)) → MatchOption result (output_records_from slim chunk.now kept.now cursor.old ≡ []) (λ s. output_records_from slim chunk.now kept.now cursor.old ≡ output_record_for slim s ∷ output_records_from slim chunk.now kept.now cursor.new) }
    ensures metadata { IfSome result (ShowsMetadata (metadata_at chunk.now.bytes)) }
    ensures event { IfSome result (ShowsEvent chunk.now kept.now) }
{
    let frames = chunk.frames();
    'records: while let Some(at) = frames.place(cursor.frame) {
        let remaining_record = pass_record(chunk, kept, cursor, at);
        if remaining_record.is_some() {
            return remaining_record;
        }
    }
    None
}

/// The cursor's record, which starts at `at`, if it remains. Moves the cursor past it.
#[inline(always)]
fn pass_record(
    chunk: &Chunk,
    kept: &Kept,
    cursor: &mut RecordCursor,
    at: usize,
) -> Option<RemainingRecord>
    requires cursor { IsCursor chunk.now kept.now cursor.old }
    requires there { option_map (λ r. r.at) (slice_get chunk.now.records cursor.old.frame) ≡ Some at }
    requires more { cursor.old.frame < 2 ^ 64 - 1 }
    ensures cursor { IsCursor chunk.now kept.now cursor.new }
    ensures next { cursor.new.frame ≡ cursor.old.frame + 1 }
    ensures exact { (slim : Option (List ℕ)) → IfSome (slice_get chunk.now.records cursor.old.frame) (λ r. option_map (output_record_for slim) result ≡ output_record_of slim chunk.now (kept_by chunk.now kept.now) r) }
    ensures metadata { IfSome result (ShowsMetadata (metadata_at chunk.now.bytes)) }
    ensures event { IfSome result (ShowsEvent chunk.now kept.now) }
{
    let number = cursor.frame;
    cursor.frame = number + 1;
    let event = pass_event(chunk, kept, &mut cursor.event, at);
    let link = pass_link(chunk.chain(), &mut cursor.link, at);
    let is_metadata = at as u64 == chunk.header().metadata;
    remaining_record(link, event, is_metadata, chunk.frames(), number)
}

/// The record with this number, if it remains: as a chained checkpoint, as the metadata record, or as a kept event.
#[inline(always)]
fn remaining_record(
    link: Option<(usize, Link)>,
    event: Option<usize>,
    is_metadata: bool,
    frames: &Frames,
    number: usize,
) -> Option<RemainingRecord>
    ensures exact { (slim : Option (List ℕ)) → IfSome (slice_get frames.now number) (λ r. option_map (output_record_for slim) result ≡ output_record_by link (is_some event || is_metadata) (if is_metadata then slim else None) r) }
    ensures kind { IfSome (slice_get frames.now number) (λ r. IfSome result (IsRemaining link event is_metadata r)) }
{
    if let Some((number, link)) = link {
        return Some(RemainingRecord::Chained(number, link));
    }
    if is_metadata {
        return Some(RemainingRecord::Metadata(frames.get(number)?));
    }
    Some(RemainingRecord::Event(event?, frames.get(number)?))
}

/// `number` is that of the next event. If the event starts at this offset, `number` is incremented, and the
/// event's number is returned if it is kept.
#[inline(always)]
fn pass_event(chunk: &Chunk, kept: &Kept, number: &mut usize, at: usize) -> Option<usize>
    ensures number { number.new ≡ event_after (events_of chunk.now) number.old at }
    ensures kept { result ≡ (if is_kept_at (events_of chunk.now) kept.now number.old at then Some number.old else None) }
{
    let old = *number;
    let start = chunk.event_place(old)?;
    // The second condition never holds, since there is an event with this number. It is there for the proof that
    // the sum can't overflow.
    if start != at || old >= chunk.event_count() {
        return None;
    }
    *number = old + 1;
    if kept.is_kept(old) { Some(old) } else { None }
}

/// The chained checkpoint that starts at this offset, with its number. `number` then becomes that of the next one.
#[inline(always)]
fn pass_link(chain: &Chain, number: &mut usize, at: usize) -> Option<(usize, Link)>
    ensures number { number.new ≡ link_after chain.now number.old at }
    ensures link { result ≡ linked_at chain.now number.old at }
{
    let old = *number;
    let link = *chain.get(old)?;
    // The second condition never holds, since there is a link with this number. It is there for the proof that
    // the sum can't overflow.
    if link.frame.at != at || old >= chain.len() {
        return None;
    }
    *number = old + 1;
    Some((old, link))
}
