//! Adding events to the counts by text: those with one stack trace, or all those that were counted by the entry
//! that is their stack trace.
ghost use Rattle.std.specs.Prelude.{◌≡◌, ℕ, ◌+◌, ◌≤◌, List, length, OnErr, OnOk};
ghost use Rattle.jfr_value.specs.Nodes.{IsValue, node_of};
ghost use Rattle.jfr_stacks.specs.Adding.{AddsText, AddsTexts, AreAtMost, AreBelow, Fits, HasPending, most_counted, most_events};
ghost use Rattle.jfr_stacks.specs.Folded.{Counts};
ghost use Rattle.jfr_stacks.specs.Held.{counts_in};
ghost use Rattle.jfr_stacks.specs.Roles.{WritesFor};
ghost use Rattle.jfr_stacks.specs.Texts.{entry_text, trace_text};

use crate::counts::{CountMap, add_count};
use crate::writer::StackWriter;
use jfr_base::NoMemory;
use jfr_chunk::Chunk;
use jfr_path::{MOST_FOLLOWED, follow_references};
use jfr_value::Node;

/// The most references that are followed from an entry. One has been followed to reach it.
const MOST_FOLLOWED_AFTER: u32 = MOST_FOLLOWED - 1;

/// Adds the events in `by_entry`, which are counted by entry, to the counts by text.
pub(crate) fn add_entries(
    writer: &mut StackWriter,
    chunk: &Chunk<'_>,
    by_entry: &[u64],
    counts: &mut CountMap,
) -> Result<(), NoMemory>
    requires ready { WritesFor chunk.now writer.old.frames }
    requires small { AreAtMost most_events by_entry.now }
    requires pending { (old : Counts) × (ts : List (List ℕ)) × AreBelow most_counted old × (length ts ≤ most_events) × HasPending (entry_text chunk.now) old ts (counts_in counts.old) 0 by_entry.now }
    ensures ok { OnOk result ((old : Counts) (ts : List (List ℕ)) → HasPending (entry_text chunk.now) old ts (counts_in counts.old) 0 by_entry.now → AddsTexts old ts (counts_in counts.new)) }
    ensures below { (old : Counts) (ts : List (List ℕ)) (most : ℕ) → HasPending (entry_text chunk.now) old ts (counts_in counts.old) 0 by_entry.now → AreBelow most old → AreBelow (most + length ts) (counts_in counts.new) }
{
    for (number, count) in by_entry.iter().enumerate() {
        add_entry(writer, chunk, number, *count, counts)?;
    }
    Ok(())
}

/// Adds events whose stack trace is the entry with this number.
#[tactic(auto, unfolding(crate::specs::Texts::entry_text))]
fn add_entry(
    writer: &mut StackWriter,
    chunk: &Chunk<'_>,
    number: usize,
    count: u64,
    counts: &mut CountMap,
) -> Result<(), NoMemory>
    requires ready { WritesFor chunk.now writer.old.frames }
    requires fits { Fits count (counts_in counts.old) }
    ensures ok { OnOk result (AddsText (counts_in counts.old) (entry_text chunk.now number) count (counts_in counts.new)) }
    ensures unchanged { OnErr result (counts_in counts.new ≡ counts_in counts.old) }
    ensures ready { OnOk result (WritesFor chunk.now writer.new.frames) }
{
    if count == 0 {
        return Ok(());
    }
    let Some(entry) = chunk.entry_node(number) else {
        return Ok(());
    };
    let trace = follow_references(chunk, &entry, MOST_FOLLOWED_AFTER);
    add_trace(writer, chunk, &trace, count, counts)
}

/// Adds `count` events with this stack trace to the counts, unless the trace has no stack.
pub(crate) fn add_trace<'a>(
    writer: &mut StackWriter,
    chunk: &Chunk<'a>,
    trace: &Node<'a>,
    count: u64,
    counts: &mut CountMap,
) -> Result<(), NoMemory>
    requires ready { WritesFor chunk.now writer.old.frames }
    requires value { IsValue chunk.now.classes trace.now }
    requires of_chunk { trace.now.bytes.now ≡ chunk.now.bytes }
    requires fits { Fits count (counts_in counts.old) }
    ensures ok { OnOk result (AddsText (counts_in counts.old) (trace_text chunk.now (node_of trace.now)) count (counts_in counts.new)) }
    ensures unchanged { OnErr result (counts_in counts.new ≡ counts_in counts.old) }
    ensures ready { OnOk result (WritesFor chunk.now writer.new.frames) }
{
    if !writer.write(chunk, trace)? {
        return Ok(());
    }
    add_count(writer.alloc(), counts, writer.as_str(), count)
}
