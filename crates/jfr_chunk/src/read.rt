//! Stages of reading a chunk.
ghost use Rattle.std.specs.Prelude.{◌≡◌, ◌<◌, ◌≤◌, ◌^◌, ℕ, [], length, map, take, Some, IfOk, IfErr, OnOk};
ghost use Rattle.std.specs.BTreeMap as tree;
ghost use Rattle.std.specs.Ordering.{nat_cmp};
ghost use Rattle.jfr_base.specs.Formats.{run, end_or_flaw};
ghost use Rattle.jfr_header.specs.Fronts.{Whole};
ghost use Rattle.jfr_header.specs.Headers.{header_of};
ghost use Rattle.jfr_frame.specs.Records.{AreRecords, IsRecord, record_end, record_there};
ghost use Rattle.jfr_layout.specs.Classes.{IsEventLayout, Sound};
ghost use Rattle.jfr_meta.specs.Answers.{IfFlawed};
ghost use Rattle.jfr_meta.specs.Stays.{is_in};
ghost use Rattle.jfr_value.specs.Leaves.{keys_in};
ghost use Rattle.jfr_value.specs.Nodes.{node_at};
ghost use Rattle.jfr_value.specs.Reading.{value_format};
ghost use Rattle.jfr_pool.specs.Entries.{inline};
ghost use Rattle.jfr_chunk.specs.Missing.{AreNotedIn, Notes, node_missing};
ghost use Rattle.jfr_chunk.specs.KeyPlaces.{NotesKeys};
ghost use Rattle.jfr_chunk.specs.Refs.{AddsRefs, HasPlaceForEach};
ghost use Rattle.jfr_chunk.specs.Reach.{node_entries};
ghost use Rattle.jfr_chunk.specs.Refusal.{found_or};
ghost use Rattle.jfr_chunk.specs.Indexed.{AreKeysIn, AreRefs, indexed_missing, indexed_refs, used_in};
ghost use Rattle.jfr_chunk.specs.Stages.{AreFields, IsRefusedEvents};

use crate::event_index::{EventIndex, EventIndexEntry};
use crate::refs::ConstantRefs;
use jfr_base::{Flaw, NoMemory, ReadFault};
use jfr_frame::{Framed, Frames};
use jfr_header::{Header, read_header};
use jfr_layout::{Classes, FieldLayout};
use jfr_pool::Pools;
use jfr_value::{Walk, end_visiting_keys};
use std::collections::BTreeMap;

/// The header of a whole chunk.
pub(crate) fn header_in(chunk: &[u8]) -> Header
    requires { Whole chunk.now }
    ensures { result ≡ header_of (take 68 chunk.now) }
{
    let Some(bytes) = chunk.first_chunk::<68>() else {
        unreachable!()
    };
    match read_header(bytes) {
        Ok(header) => header,
        Err(_) => unreachable!(),
    }
}

/// The record that starts at this position, if it has this type; else this flaw.
pub(crate) fn record_named(
    frames: &Frames,
    at: u64,
    type_id: u64,
    flaw: Flaw,
) -> Result<Framed, Flaw>
    ensures { result ≡ found_or flaw (record_there frames.now at type_id) }
{
    frames.find(at, type_id).ok_or(flaw)
}

/// The index of the events, in the memory of an earlier one. Fails at the first event whose fields aren't all
/// in its record.
pub(crate) fn read_events(
    buffers: EventIndex,
    chunk: &[u8],
    frames: &Frames,
    classes: &Classes,
    pools: &Pools,
) -> Result<EventIndex, ReadFault>
    requires whole { Whole chunk.now }
    requires records { AreRecords chunk.now frames.now }
    requires sound { Sound classes.now }
    requires entries { length pools.now ≤ length chunk.now }
    ensures ok { IfOk result (λ index. AreFields chunk.now classes.now frames.now index.fields.items index.early) }
    ensures refs_end { IfOk result (λ index. AreRefs (indexed_refs pools.now classes.now chunk.now frames.now index.early) 0 index.fields.items index.numbers.items) }
    ensures keys { IfOk result (λ index. AreKeysIn pools.now classes.now chunk.now frames.now index.early index.fields.items index.keys) }
    ensures missing { IfOk result (λ index. AreNotedIn (map (indexed_missing pools.now classes.now chunk.now frames.now index.early) index.fields.items) index.missing) }
    ensures used { IfOk result (λ index. (id : ℕ) → is_in index.used.ids id ≡ used_in frames.now index.fields.items id) }
    ensures refused { IfErr result (IfFlawed (IsRefusedEvents chunk.now classes.now frames.now)) }
{
    let mut fields = emptied(buffers.fields, frames.len())?;
    let mut early = buffers.early;
    early.clear();
    let mut used = buffers.used;
    used.clear();
    let mut refs = ConstantRefs::new(buffers.numbers, buffers.keys, buffers.missing);
    let reader = EventReader {
        chunk,
        classes,
        pools,
    };
    for number in 0..frames.len() {
        let frame = frames.at(number);
        let Some(layout) = classes.event_layout(frame.type_id) else {
            continue;
        };
        refs.event = fields.len();
        let end = fields_end(reader, &layout, frame, &mut refs)?;
        let record = number as u32;
        if end < frame.end() {
            add_early(&mut early, record, end as u32)?;
        }
        used.add(frame.type_id)?;
        fields.push(EventIndexEntry {
            record,
            refs_end: refs.numbers.len() as u32,
        })?;
    }
    if refs.lacks {
        return Err(ReadFault::Memory);
    }
    Ok(EventIndex {
        fields,
        early,
        numbers: refs.numbers,
        keys: refs.keys,
        missing: refs.missing,
        used,
    })
}

/// An empty list in the memory of this one, with capacity for `count` members.
fn emptied(list: Vec<EventIndexEntry>, count: usize) -> Result<Vec<EventIndexEntry>, NoMemory>
    ensures { IfOk result (λ emptied. emptied.items ≡ []) }
{
    let mut emptied = list;
    emptied.clear();
    emptied.reserve(count)?;
    Ok(emptied)
}

/// Adds where an event's fields end, under the number of its record. It is called only if they end before the
/// record does. This is rare, so it isn't inlined.
#[cold]
#[inline(never)]
fn add_early(early: &mut BTreeMap<u32, u32>, number: u32, end: u32) -> Result<(), NoMemory>
    ensures { OnOk result (tree.Updates nat_cmp early.old early.new number (Some end)) }
{
    early.insert(number, end)?;
    Ok(())
}

/// What stays the same while the events of a chunk are read.
#[derive(Clone, Copy)]
struct EventReader<'a> {
    chunk: &'a [u8],
    classes: &'a Classes,
    pools: &'a Pools,
}

/// Where the fields of an event end. Adds the numbers of the entries to which they refer, the places of the keys, and
/// what they refer to without an entry.
#[inline]
fn fields_end(
    reader: EventReader<'_>,
    layout: &FieldLayout,
    frame: Framed,
    refs: &mut ConstantRefs,
) -> Result<usize, Flaw>
    requires sound { Sound reader.classes.now }
    requires event { IsEventLayout reader.classes.now frame.type_id layout.now }
    requires record { IsRecord reader.chunk.now frame }
    requires entries { length reader.pools.now < 2 ^ 32 }
    requires even { HasPlaceForEach refs.now }
    ensures exact { result ≡ end_or_flaw (run (value_format reader.entry.classes.now (inline frame.type_id)) reader.entry.chunk.now (record_end frame) frame.body) }
    ensures refs_end { IfOk result (λ end. AddsRefs (node_entries reader.entry.pools.now reader.entry.classes.now reader.entry.chunk.now (node_at (inline frame.type_id) frame.body end)) refs.old refs.new) }
    ensures keys { IfOk result (λ end. NotesKeys reader.entry.pools.now (keys_in reader.entry.classes.now reader.entry.chunk.now (node_at (inline frame.type_id) frame.body end)) refs.old.keys refs.new.keys) }
    ensures even { HasPlaceForEach refs.new }
    ensures missing { IfOk result (λ end. Notes (node_missing reader.entry.pools.now reader.entry.classes.now reader.entry.chunk.now (node_at (inline frame.type_id) frame.body end)) refs.old.event refs.old.missing refs.new.missing) }
{
    let walk = Walk {
        classes: reader.classes,
        bytes: reader.chunk,
        end: frame.end(),
        with: reader.pools,
    };
    end_visiting_keys(walk, layout, frame.body, refs)
}
