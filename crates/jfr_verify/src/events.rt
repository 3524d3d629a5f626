//! Whether the events of the output are the kept events of the input.
ghost use Rattle.std.specs.Prelude.{◌≡◌, ◌<◌, ◌≤◌, ◌^◌, slice_range, length, option_map, slice_get};
ghost use Rattle.jfr_chunk.specs.Parts.{events_of};
ghost use Rattle.jfr_chunk.specs.Reach.{kept_by};
ghost use Rattle.jfr_verify.specs.Checks.{content, contents};
ghost use Rattle.jfr_verify.specs.Decided.{Decided};
ghost use Rattle.jfr_verify.specs.SameEvents.{next_event, same_event};

use jfr_chunk::{Chunk, Kept};

/// Whether the events of the output are the kept events of the input, in order, each with the same class and
/// equal record bytes.
pub(crate) fn same_events(a: &Chunk<'_>, kept: &Kept, b: &Chunk<'_>) -> bool
    requires { length kept.now ≡ length (events_of a.now) }
    ensures { Decided (contents a.now (kept_by a.now kept.now) ≡ contents b.now (events_of b.now)) result }
{
    let count = b.event_count();
    let mut at: usize = 0;
    for number in 0..kept.len() {
        let Some(next) = next_event(a, kept, number, b, at) else {
            return false;
        };
        at = next;
    }
    at == count
}

/// The number of the event of the output to compare next, after event `number` of the input. `None` exactly
/// if that event is kept and event `at` of the output isn't the same.
fn next_event(a: &Chunk<'_>, kept: &Kept, number: usize, b: &Chunk<'_>, at: usize) -> Option<usize>
    requires { length (events_of b.now) < 2 ^ 64 }
    ensures { result ≡ next_event a.now b.now kept.now number at }
{
    if !kept.is_kept(number) {
        return Some(at);
    }
    if same_event(a, number, b, at) {
        Some(at + 1)
    } else {
        None
    }
}

/// Whether event `number` of the input and event `at` of the output exist and have the same class and equal
/// record bytes.
fn same_event(a: &Chunk<'_>, number: usize, b: &Chunk<'_>, at: usize) -> bool
    ensures { result ≡ same_event a.now b.now number at }
{
    let Some(one) = content_at(a, number) else {
        return false;
    };
    let Some(other) = content_at(b, at) else {
        return false;
    };
    one.class == other.class && one.bytes == other.bytes
}

/// The class of an event and the bytes of its record.
#[derive(Clone, Copy)]
struct Content<'a> {
    class: u64,
    bytes: &'a [u8],
}

/// The content of event `number`; `None` exactly if there is no such event.
#[inline(always)]
fn content_at<'a>(chunk: &Chunk<'a>, number: usize) -> Option<Content<'a>>
    ensures { option_map (λ c. (c.class, c.bytes.now)) result ≡ option_map (content chunk.now) (slice_get (events_of chunk.now) number) }
{
    let record = chunk.event_record(number)?;
    let frame = chunk.frames().get(record)?;
    Some(Content {
        class: frame.type_id,
        bytes: range(chunk.bytes(), frame.at, frame.end()),
    })
}

/// The bytes from `at` to `end`.
fn range(bytes: &[u8], at: usize, end: usize) -> &[u8]
    requires order { at ≤ end }
    requires within { end ≤ length bytes.now }
    ensures { result.now ≡ slice_range bytes.now at end }
{
    &bytes[at..end]
}
