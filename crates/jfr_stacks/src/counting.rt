//! Counts the events of a chunk by their stacks.
ghost use Rattle.std.specs.Prelude.{◌≡◌, ℕ, ◌+◌, ◌≤◌, List, ◌++◌, codes, length, IfOk, IfSome, OnErr, OnOk, option_and_then, option_map, option_to_list};
ghost use Rattle.std.specs.List.{filter_map};
ghost use Rattle.jfr_chunk.specs.Parts.{events_of};
ghost use Rattle.jfr_chunk.specs.Reach.{kept_by};
ghost use Rattle.jfr_value.specs.Nodes.{IsValue, node_of};
ghost use Rattle.jfr_stacks.specs.Adding.{AddsTexts, AreAtMost, AreBelow, Fits, HasPending, kept_at, most_counted, most_events};
ghost use Rattle.jfr_stacks.specs.Folded.{Counts, texts_of};
ghost use Rattle.jfr_stacks.specs.Frames.{after_references, field_numbers, trace_of};
ghost use Rattle.jfr_stacks.specs.Held.{counts_in};
ghost use Rattle.jfr_stacks.specs.Roles.{WritesFor};
ghost use Rattle.jfr_stacks.specs.Texts.{entry_text, stack_of, trace_text};

use crate::adding::{add_entries, add_trace};
use crate::counts::CountMap;
use crate::fields::FieldNumbers;
use crate::trace::{TraceLocation, location_of};
use crate::writer::StackWriter;
use jfr_base::NoMemory;
use jfr_chunk::{Chunk, Kept};
use jfr_filter::Filter;
use jfr_path::{MOST_FOLLOWED, choose, follow_references};
use jfr_value::Node;
use std::alloc::Global;

/// Adds the events of a chunk that the filter keeps. They are first counted by the entry that is their stack
/// trace, so that the text of a stack is made only once for each entry. If memory runs out, some of the events
/// may have been added.
pub(crate) fn add_events(
    alloc: Global,
    chunk: &Chunk<'_>,
    filter: &Filter,
    counts: &mut CountMap,
) -> Result<(), NoMemory>
    requires below { AreBelow most_counted (counts_in counts.old) }
    ensures ok { OnOk result (AddsTexts (counts_in counts.old) (texts_of filter.now chunk.now) (counts_in counts.new)) }
    ensures below { (most : ℕ) → AreBelow most (counts_in counts.old) → AreBelow (most + most_events) (counts_in counts.new) }
{
    // By the clauses of this call, a chunk has fewer than 2^30 events.
    let _ = chunk.bytes();
    let kept = choose(alloc, chunk, filter)?;
    let mut writer = StackWriter::new(alloc, chunk)?;
    let by_entry = count_events(&mut writer, chunk, &kept, counts)?;
    add_entries(&mut writer, chunk, &by_entry, counts)
}

/// The number of kept events for each entry that is their stack trace. Events whose trace is inline are added to
/// the counts. Those that refer to an entry that doesn't exist have no stack, and aren't counted.
fn count_events(
    writer: &mut StackWriter,
    chunk: &Chunk<'_>,
    kept: &Kept,
    counts: &mut CountMap,
) -> Result<Vec<u64>, NoMemory>
    requires ready { WritesFor chunk.now writer.old.frames }
    requires each { length kept.now ≡ length (events_of chunk.now) }
    requires few { length (events_of chunk.now) ≤ most_events }
    requires below { AreBelow most_counted (counts_in counts.old) }
    ensures ok { IfOk result (λ by_entry. HasPending (entry_text chunk.now) (counts_in counts.old) (filter_map (stack_of chunk.now) (kept_by chunk.now kept.now)) (counts_in counts.new) 0 by_entry.items) }
    ensures each { IfOk result (λ by_entry. length by_entry.items ≡ length chunk.now.entries) }
    ensures small { IfOk result (λ by_entry. AreAtMost most_events by_entry.items) }
    ensures below { (most : ℕ) → AreBelow most (counts_in counts.old) → AreBelow (most + most_events) (counts_in counts.new) }
    ensures ready { OnOk result (WritesFor chunk.now writer.new.frames) }
{
    let fields = FieldNumbers::of(writer.alloc(), chunk.classes(), "stackTrace")?;
    let mut by_entry = vec![in writer.alloc(); 0; chunk.pools().len()]?;
    for number in 0..chunk.event_count() {
        if let Some(trace) = kept_trace(chunk, kept, &fields, number) {
            count_trace(writer, chunk, &trace, &mut by_entry, counts)?;
        }
    }
    Ok(by_entry)
}

/// The field `stackTrace` of the event with this number, if the event is kept and has the field.
fn kept_trace<'a>(
    chunk: &Chunk<'a>,
    kept: &Kept,
    fields: &FieldNumbers,
    number: usize,
) -> Option<Node<'a>>
    requires { fields.now ≡ field_numbers (codes "stackTrace") chunk.now.classes }
    ensures exact { option_map node_of result ≡ option_and_then (λ e. trace_of chunk.now e.node) (kept_at chunk.now kept.now number) }
    ensures bytes { IfSome result (λ trace. trace.bytes.now ≡ chunk.now.bytes) }
    ensures value { IfSome result (IsValue chunk.now.classes) }
{
    if !kept.is_kept(number) {
        return None;
    }
    fields.find(chunk, &chunk.event(number)?.node)
}

/// Counts an event with this stack trace in `by_entry`, for the entry that is the trace, or adds it to the
/// counts by text if the trace is inline. An event that refers to an entry that doesn't exist isn't counted.
fn count_trace<'a>(
    writer: &mut StackWriter,
    chunk: &Chunk<'a>,
    trace: &Node<'a>,
    by_entry: &mut [u64],
    counts: &mut CountMap,
) -> Result<(), NoMemory>
    requires ready { WritesFor chunk.now writer.old.frames }
    requires value { IsValue chunk.now.classes trace.now }
    requires of_chunk { trace.now.bytes.now ≡ chunk.now.bytes }
    requires each { length by_entry.old ≡ length chunk.now.entries }
    requires small { AreAtMost most_events by_entry.old }
    requires fits { Fits 1 (counts_in counts.old) }
    ensures ok { OnOk result ((old : Counts) (done : List (List ℕ)) → HasPending (entry_text chunk.now) old done (counts_in counts.old) 0 by_entry.old
        → HasPending (entry_text chunk.now) old (done ++ option_to_list (trace_text chunk.now (after_references 16 chunk.now (node_of trace.now)))) (counts_in counts.new) 0 by_entry.new) }
    ensures small { (most : ℕ) → AreAtMost most by_entry.old → AreAtMost (most + 1) by_entry.new }
    ensures unchanged { OnErr result (counts_in counts.new ≡ counts_in counts.old) }
    ensures ready { OnOk result (WritesFor chunk.now writer.new.frames) }
{
    match location_of(chunk, trace) {
        TraceLocation::Entry(number) => {
            by_entry[number] += 1;
            Ok(())
        }
        TraceLocation::Missing => Ok(()),
        TraceLocation::Inline => {
            let value = follow_references(chunk, trace, MOST_FOLLOWED);
            add_trace(writer, chunk, &value, 1, counts)
        }
    }
}
