//! Marking what the kept events refer to.
ghost use Rattle.std.specs.Prelude.{◌≡◌, ◌+◌, ◌<◌, ◌≤◌, All, length, option_to_list, slice_get};
ghost use Rattle.jfr_chunk.specs.Parts.{AreParts, events_of};
ghost use Rattle.jfr_chunk.specs.Reach.{kept_by, roots};
ghost use Rattle.jfr_worklist.specs.Putting.{Puts};
ghost use Rattle.jfr_reach.specs.Walks.{event_leaves};

use jfr_chunk::{Chunk, Kept};
use jfr_value::Steps;
use jfr_worklist::Worklist;
use std::sync::ledger::Ledger;

/// Marks the entries in force to which the kept events refer. If all events are kept, the
/// chunk's list for all events is used.
pub(crate) fn put_roots<L: Ledger>(
    list: &mut Worklist,
    chunk: &Chunk<'_>,
    kept: &Kept,
    steps: &mut Steps<L>,
)
    requires size { length list.old.flags.items ≡ length chunk.now.entries }
    requires parts { AreParts chunk.now }
    ensures puts { Puts (roots chunk.now (kept_by chunk.now kept.now)) list.old list.new }
    ensures cost { steps.new ≤ steps.old + event_leaves chunk.now (kept_by chunk.now kept.now) }
{
    if kept.are_all() && kept.len() == chunk.event_count() {
        put_each(list, chunk.all_entries(), steps);
        return;
    }
    put_events(list, chunk, kept, steps);
}

/// Marks the entries in force to which the kept events refer, one event after another.
fn put_events<L: Ledger>(list: &mut Worklist, chunk: &Chunk<'_>, kept: &Kept, steps: &mut Steps<L>)
    requires size { length list.old.flags.items ≡ length chunk.now.entries }
    requires parts { AreParts chunk.now }
    ensures puts { Puts (roots chunk.now (kept_by chunk.now kept.now)) list.old list.new }
    ensures cost { steps.new ≤ steps.old + event_leaves chunk.now (kept_by chunk.now kept.now) }
{
    for (number, keep) in kept.as_slice().iter().enumerate() {
        if !*keep {
            continue;
        }
        put_event(list, chunk, number, steps);
    }
}

/// Marks the entries in force to which the event with this number refers, if there is such an event.
#[inline]
fn put_event<L: Ledger>(list: &mut Worklist, chunk: &Chunk<'_>, number: usize, steps: &mut Steps<L>)
    requires size { length list.old.flags.items ≡ length chunk.now.entries }
    requires parts { AreParts chunk.now }
    ensures puts { Puts (roots chunk.now (option_to_list (slice_get (events_of chunk.now) number))) list.old list.new }
    ensures cost { steps.new ≤ steps.old + event_leaves chunk.now (option_to_list (slice_get (events_of chunk.now) number)) }
{
    if let Some(entries) = chunk.event_entries(number) {
        put_each(list, entries, steps);
    }
}

/// Marks the entries with these numbers, with a step for each.
#[inline]
fn put_each<L: Ledger>(list: &mut Worklist, entries: &[u32], steps: &mut Steps<L>)
    requires { All (λ number. number < length list.old.flags.items) entries.now }
    ensures puts { Puts entries.now list.old list.new }
    ensures cost { steps.new ≡ steps.old + length entries.now }
{
    for number in entries {
        steps.tick();
        list.put(*number as usize);
    }
}
