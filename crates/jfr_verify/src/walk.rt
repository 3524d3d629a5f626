//! The walk that makes the lines of a chunk's receipt: it starts at the events and follows references from
//! entry to entry.
ghost use Rattle.std.specs.Prelude.{◌≡◌, ◌+◌, ◌^◌, ◌<◌, ◌≤◌, [], All, length, Some, None, slice_get, option_map, IfOk};
ghost use Rattle.jfr_worklist.specs.Marks.{marked_at};
ghost use Rattle.jfr_chunk.specs.Parts.{EventAt, events_of};
ghost use Rattle.jfr_chunk.specs.Reach.{kept_by, next_entries, node_entries, roots};
ghost use Rattle.jfr_verify.specs.declared.line.Parent.TheVariants as kinds;
ghost use Rattle.jfr_verify.specs.Added.{Adds, AddsOf};
ghost use Rattle.jfr_verify.specs.Ranks.{kept_at, kept_lines};
ghost use Rattle.jfr_verify.specs.Receipts.{event_lines, lines_from, lines_of, no_marks};

use crate::Parent;
use crate::lines::Lines;
use jfr_base::NoMemory;
use jfr_chunk::{Chunk, Kept};
use jfr_pool::Pools;
use jfr_value::{Visit, visit_targets};
use std::alloc::Global;

impl Visit<Pools> for Lines {
    ghost use Rattle.std.specs.Prelude.{◌≡◌, [], ◌∷◌, length};
    ghost use Rattle.jfr_pool.specs.Entries.{number_in_force};
    ghost use Rattle.jfr_worklist.specs.Marks.{those};
    ghost use Rattle.jfr_verify.specs.Added.{Adds};

    ghost ready = { λ lines pools. length lines.flags.items ≡ length pools };

    ghost takes = { λ pools target old new. Adds (those (number_in_force pools) (target ∷ [])) old new };

    /// Adds a line for the entry in force for a class and key, if there is one and it has no line.
    #[inline]
    fn visit(&mut self, pools: &Pools, class: u64, key: u64) {
        if let Some(number) = pools.entry(class, key) {
            self.put(number);
        }
    }
}

/// The lines of a chunk's receipt: first for what the events refer to, then, line by line, for what the
/// entries of the lines refer to.
pub(crate) fn lines_in(alloc: Global, chunk: &Chunk<'_>) -> Result<Lines, NoMemory>
    ensures { IfOk result (λ lines. lines.items.items ≡ lines_of chunk.now) }
{
    let mut lines = no_lines(alloc, chunk)?;
    add_events(&mut lines, chunk);
    add_entries(&mut lines, chunk);
    Ok(lines)
}

/// The lines for a chunk's kept events: first for what the events refer to, then, line by line, for what the
/// entries of the lines refer to. Events are numbered among the kept ones.
pub(crate) fn kept_lines_in(
    alloc: Global,
    chunk: &Chunk<'_>,
    kept: &Kept,
) -> Result<Lines, NoMemory>
    ensures lines { IfOk result (λ lines. lines.items.items ≡ kept_lines chunk.now (kept_by chunk.now kept.now)) }
    ensures size { IfOk result (λ lines. length lines.flags.items ≡ length chunk.now.entries) }
{
    let mut lines = no_lines(alloc, chunk)?;
    add_kept_events(&mut lines, chunk, kept);
    add_entries(&mut lines, chunk);
    Ok(lines)
}

/// An empty list of lines for a chunk's receipt. A chunk has fewer events, and fewer entries, than bytes.
fn no_lines(alloc: Global, chunk: &Chunk<'_>) -> Result<Lines, NoMemory>
    ensures marks { IfOk result (λ lines. lines.flags.items ≡ no_marks chunk.now) }
    ensures none { IfOk result (λ lines. lines.items.items ≡ []) }
    ensures few { length (events_of chunk.now) < 2 ^ 31 }
{
    chunk.bytes();
    Lines::new(alloc, chunk.pools().len())
}

/// Adds lines for what the kept events refer to, one event after another.
fn add_kept_events(lines: &mut Lines, chunk: &Chunk<'_>, kept: &Kept)
    requires marks { lines.old.flags.items ≡ no_marks chunk.now }
    requires none { lines.old.items.items ≡ [] }
    requires few { length (events_of chunk.now) < 2 ^ 31 }
    ensures marks { lines.new.flags.items ≡ marked_at (no_marks chunk.now) (roots chunk.now (kept_by chunk.now kept.now)) }
    ensures lines { lines.new.items.items ≡ event_lines chunk.now (no_marks chunk.now) 0 (kept_by chunk.now kept.now) }
{
    let mut rank: usize = 0;
    for number in 0..kept.len() {
        add_kept_event(lines, chunk, kept, number, &mut rank);
    }
}

/// Adds lines for what event `number` refers to, if it is kept. `rank` counts the kept events.
fn add_kept_event(
    lines: &mut Lines,
    chunk: &Chunk<'_>,
    kept: &Kept,
    number: usize,
    rank: &mut usize,
)
    requires size { length lines.old.flags.items ≡ length chunk.now.entries }
    requires few { length (events_of chunk.now) < 2 ^ 31 }
    requires order { rank.old ≤ number }
    ensures adds { (e : EventAt) → kept_at kept.now (events_of chunk.now) number ≡ Some e → AddsOf (kinds.OfEvent rank.old) (node_entries chunk.now.entries chunk.now.classes chunk.now.bytes e.node) lines.old lines.new }
    ensures next { (e : EventAt) → kept_at kept.now (events_of chunk.now) number ≡ Some e → rank.new ≡ rank.old + 1 }
    ensures none { kept_at kept.now (events_of chunk.now) number ≡ None → lines.new ≡ lines.old }
    ensures same { kept_at kept.now (events_of chunk.now) number ≡ None → rank.new ≡ rank.old }
{
    if let Some(entries) = kept_entries(chunk, kept, number) {
        lines.parent = Parent::OfEvent(*rank);
        add_each(lines, entries);
        *rank += 1;
    }
}

/// The numbers of the entries in force to which the event with this number refers, if it is kept.
fn kept_entries<'a>(chunk: &'a Chunk<'_>, kept: &Kept, number: usize) -> Option<&'a [u32]>
    ensures { option_map (λ s. s.now) result ≡ option_map (λ e. node_entries chunk.now.entries chunk.now.classes chunk.now.bytes e.node) (kept_at kept.now (events_of chunk.now) number) }
{
    if !kept.is_kept(number) {
        return None;
    }
    chunk.event_entries(number)
}

/// Adds lines for what the events refer to, one event after another.
fn add_events(lines: &mut Lines, chunk: &Chunk<'_>)
    requires marks { lines.old.flags.items ≡ no_marks chunk.now }
    requires none { lines.old.items.items ≡ [] }
    requires few { length (events_of chunk.now) < 2 ^ 31 }
    ensures marks { lines.new.flags.items ≡ marked_at (no_marks chunk.now) (roots chunk.now (events_of chunk.now)) }
    ensures lines { lines.new.items.items ≡ event_lines chunk.now (no_marks chunk.now) 0 (events_of chunk.now) }
{
    for number in 0..chunk.event_count() {
        add_event(lines, chunk, number);
    }
}

/// Adds lines for what event `number` refers to.
fn add_event(lines: &mut Lines, chunk: &Chunk<'_>, number: usize)
    requires size { length lines.old.flags.items ≡ length chunk.now.entries }
    requires low { number < 2 ^ 31 }
    ensures adds { (e : EventAt) → slice_get (events_of chunk.now) number ≡ Some e → AddsOf (kinds.OfEvent number) (node_entries chunk.now.entries chunk.now.classes chunk.now.bytes e.node) lines.old lines.new }
    ensures none { slice_get (events_of chunk.now) number ≡ None → lines.new ≡ lines.old }
{
    if let Some(entries) = chunk.event_entries(number) {
        lines.parent = Parent::OfEvent(number);
        add_each(lines, entries);
    }
}

/// Adds lines for the entries with these numbers.
fn add_each(lines: &mut Lines, entries: &[u32])
    requires { All (λ number. number < length lines.old.flags.items) entries.now }
    ensures { Adds entries.now lines.old lines.new }
{
    for number in entries {
        lines.put(*number as usize);
    }
}

/// Adds lines for what the entries of the lines refer to, line by line, the added lines included.
fn add_entries(lines: &mut Lines, chunk: &Chunk<'_>)
    requires size { length lines.old.flags.items ≡ length chunk.now.entries }
    ensures lines { lines.new.items.items ≡ lines_from (length chunk.now.entries) chunk.now lines.old.flags.items lines.old.items.items }
    ensures size { length lines.new.flags.items ≡ length chunk.now.entries }
{
    let mut next: usize = 0;
    while next < lines.items.len() {
        let line = lines.items[next].line();
        add_entry(lines, chunk, line.entry);
        next += 1;
    }
}

/// Adds lines for what entry `number` refers to.
fn add_entry(lines: &mut Lines, chunk: &Chunk<'_>, number: usize)
    requires size { length lines.old.flags.items ≡ length chunk.now.entries }
    requires low { number < 2 ^ 31 }
    ensures { AddsOf (kinds.OfEntry number) (next_entries chunk.now number) lines.old lines.new }
{
    lines.parent = Parent::OfEntry(number);
    if let Some(node) = chunk.entry_node(number) {
        visit_targets(chunk.classes(), node, lines, chunk.pools());
    }
}
