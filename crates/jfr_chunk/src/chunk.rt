//! An accepted chunk.
ghost use Rattle.std.specs.Prelude.{◌≡◌, ◌+◌, ◌<◌, ◌≤◌, ◌^◌, ℕ, true, length, filter, replicate, reverse, slice_get, take, option_map, Some, Ok, IfOk, IfErr, IfSome, MatchResult};
ghost use Rattle.std.specs.List.{AllZip};
ghost use Rattle.jfr_header.specs.Fronts.{Whole};
ghost use Rattle.jfr_header.specs.Headers.{header_of};
ghost use Rattle.jfr_layout.specs.Classes.{Sound};
ghost use Rattle.jfr_meta.specs.Answers.{IfFlawed};
ghost use Rattle.jfr_meta.specs.Described.{IsNamedBy, described};
ghost use Rattle.jfr_meta.specs.Held.{body_in};
ghost use Rattle.jfr_meta.specs.Stays.{is_in};
ghost use Rattle.jfr_meta.specs.Written.{depth};
ghost use Rattle.jfr_chunk.specs.Metas.{used_by};
ghost use Rattle.jfr_value.specs.Nodes.{IsValue, node_of};
ghost use Rattle.jfr_pool.specs.Entries.{entry_node};
ghost use Rattle.jfr_pool.specs.Faults.{TellsFlaw};
ghost use Rattle.jfr_chunk.specs.Parts.{AreParts, StartsAt, events_of, is_inert, metadata_at};
ghost use Rattle.jfr_chunk.specs.Reach.{node_entries, roots};
ghost use Rattle.jfr_chunk.specs.Refusal.{Refused, read_parts};
ghost use Rattle.jfr_chunk.specs.Buffers.{IsEmpty};
ghost use Rattle.jfr_chunk.specs.Indexed.{IsOfChunk, event_at};
ghost use Rattle.jfr_chunk.specs.KeyPlaces.{AreKeyPlaces};
ghost use Rattle.jfr_chunk.specs.Missing.{AreMissing, missing_by_event};

use crate::event_index::EventIndex;
use crate::read::{header_in, read_events, record_named};
use crate::{Buffers, Event, Kept, KeyPlace, MissingRef};
use jfr_base::{Flaw, NoMemory, ReadFault, Reason, Words};
use jfr_frame::{CHECKPOINT_TYPE, Framed, Frames, METADATA_TYPE};
use jfr_header::Header;
use jfr_layout::{Classes, Shape};
use jfr_meta::{ClassNames, Ids, Metadata, class_names, read_metadata};
use jfr_pool::{Chain, Pools};
use jfr_value::Node;
use std::alloc::Global;
use std::marker::Model;

/// The flaw if no metadata record starts at the position in the header. Its offset is that of the header's
/// field.
const NO_METADATA: Flaw = Flaw {
    offset: 24,
    reason: Reason::MetadataPosition,
};

/// The flaw if no checkpoint starts at the position in the header.
const NO_CHECKPOINT: Flaw = Flaw {
    offset: 16,
    reason: Reason::PoolPosition,
};

/// An accepted chunk, with indexes over it. It borrows the bytes; only the texts of the metadata are copied.
/// Contracts see its parts.
#[derive(Drop)]
pub struct Chunk<'a> {
    bytes: &'a [u8],
    header: Header,
    frames: Frames<'a>,
    metadata_frame: Framed,
    chain: Chain,
    metadata: Metadata,
    pools: Pools,
    events: EventIndex,
}

impl<'a> Model for Chunk<'a> {
    ghost use Rattle.std.specs.Coded.{codes};
    ghost use Rattle.jfr_meta.specs.Trees.{tree_code};
    ghost use Rattle.jfr_chunk.specs.Parts.{Parts};
    ghost use Rattle.jfr_meta.specs.Held.{body_in};
    ghost use Rattle.jfr_chunk.specs.Indexed.{IsIndexed, parts_in};

    ghost Value = { Parts };

    ghost coded = { Prim.hlevel (codes, tree_code) };

    ghost view = { λ c. parts_in c.bytes.now c.frames c.chain (body_in c.metadata) c.metadata.classes c.pools };

    ghost invariant = { λ c. IsIndexed (parts_in c.bytes.now c.frames c.chain (body_in c.metadata) c.metadata.classes c.pools) c.header c.metadata_frame c.events };
}

impl<'a> Chunk<'a> {
    /// Reads a whole chunk. Reading has stages: the records, the positions of the metadata record and of the
    /// last checkpoint, the chain of checkpoints, the metadata record, the bodies of the chained checkpoints,
    /// the fields of the events. The chunk is refused with the first flaw of the first stage that has one.
    /// `Memory` if memory runs out.
    pub fn read(alloc: Global, bytes: &'a [u8]) -> Result<Chunk<'a>, ReadFault>
        requires { Whole bytes.now }
        ensures ok { IfOk result (λ chunk. chunk.bytes ≡ bytes.now) }
        ensures refused { IfErr result (IfFlawed (Refused bytes.now)) }

        // What `read_parts` computes.
        ensures exact { MatchResult result (λ chunk. read_parts bytes.now ≡ Ok chunk) (TellsFlaw (read_parts bytes.now)) }
    {
        Chunk::read_in(alloc, Buffers::new(alloc), bytes)
    }

    /// As `read`, but uses the memory of an earlier chunk's indexes again.
    pub fn read_in(alloc: Global, buffers: Buffers, bytes: &'a [u8]) -> Result<Chunk<'a>, ReadFault>
        requires { Whole bytes.now }
        ensures ok { IfOk result (λ chunk. chunk.bytes ≡ bytes.now) }
        ensures refused { IfErr result (IfFlawed (Refused bytes.now)) }
        ensures exact { MatchResult result (λ chunk. read_parts bytes.now ≡ Ok chunk) (TellsFlaw (read_parts bytes.now)) }
    {
        let header = header_in(bytes);
        let frames = Frames::read_in(buffers.frames, bytes)?;
        let metadata_frame = record_named(&frames, header.metadata, METADATA_TYPE, NO_METADATA)?;
        record_named(&frames, header.pools, CHECKPOINT_TYPE, NO_CHECKPOINT)?;
        let chain = Chain::read(alloc, bytes, &frames, header.pools)?;
        let metadata = read_metadata(alloc, bytes, &metadata_frame)?;
        let pools = Pools::read(alloc, bytes, &metadata.classes, &chain)?;
        let events = read_events(buffers.events, bytes, &frames, &metadata.classes, &pools)?;
        Ok(Chunk {
            bytes,
            header,
            frames,
            metadata_frame,
            chain,
            metadata,
            pools,
            events,
        })
    }

    /// The memory of the indexes, for use with the next chunk.
    pub fn into_buffers(self) -> Buffers
        ensures { IsEmpty result }
    {
        Buffers::of(self.frames.into_buffers(), self.events)
    }

    /// The bytes of the chunk.
    pub fn bytes(&self) -> &'a [u8]
        ensures exact { result.now ≡ self.now.bytes }
        ensures whole { Whole self.now.bytes }
        ensures parts { AreParts self.now }
    {
        self.bytes
    }

    /// A call that does nothing, for proofs: its clauses hold for every chunk, and laws of parts and of
    /// values require them.
    pub fn parts_are_valid(&self)
        ensures parts { AreParts self.now }
        ensures sound { Sound self.now.classes }
    {
        // The proof gets the invariant of `self` by reading a field.
        let _ = &self.bytes;
    }

    /// The header.
    pub fn header(&self) -> &Header
        ensures { result.now ≡ header_of (take 68 self.now.bytes) }
    {
        &self.header
    }

    /// All records, in the order of the file.
    pub fn frames(&self) -> &Frames<'a>
        ensures { result.now ≡ self.now.records }
    {
        &self.frames
    }

    /// The metadata record at the position in the header.
    pub fn metadata_frame(&self) -> Framed
        ensures { StartsAt self.now.records (metadata_at self.now.bytes) 0 result }
    {
        self.metadata_frame
    }

    /// The contents of the metadata record: its strings, its tree of elements, and the classes that they
    /// describe.
    pub fn metadata(&self) -> &Metadata
        ensures body { body_in result.now ≡ self.now.body }
        ensures classes { result.now.classes ≡ self.now.classes }
        ensures read { described (body_in result.now) ≡ Ok result.now.classes }
        ensures shallow { depth result.now.root ≤ 16 }
    {
        &self.metadata
    }

    /// The classes that the metadata describes.
    pub fn classes(&self) -> &Classes
        ensures { result.now ≡ self.now.classes }
    {
        &self.metadata.classes
    }

    /// The strings of the metadata's table, as texts.
    pub fn strings(&self) -> &Words
        ensures { result.now ≡ self.now.body.strings }
    {
        &self.metadata.strings
    }

    /// For each class, in order: its name and its categories, each as the index of a string in the
    /// metadata's table.
    pub fn class_names(&self, alloc: Global) -> Result<Vec<ClassNames>, NoMemory>
        ensures ok { IfOk result (λ names. AllZip (IsNamedBy self.now.body.strings) self.now.classes names.items) }
    {
        let names = class_names(alloc, &self.metadata.strings, &self.metadata.root)?;
        Ok(names)
    }

    /// The chained checkpoints, in the order of the file.
    pub fn chain(&self) -> &Chain
        ensures { reverse result.now ≡ self.now.chain }
    {
        &self.chain
    }

    /// The entries of the chained checkpoints, in the order of the file.
    pub fn pools(&self) -> &Pools
        ensures { result.now ≡ self.now.entries }
    {
        &self.pools
    }

    /// The node of the value of entry `number`, from 0 in the order of the file; `None` exactly if there is
    /// no such entry.
    #[inline]
    pub fn entry_node(&self, number: usize) -> Option<Node<'a>>
        ensures exact { option_map node_of result ≡ option_map entry_node (slice_get self.now.entries number) }
        ensures bytes { IfSome result (λ node. node.bytes.now ≡ self.now.bytes) }
        ensures value { IfSome result (IsValue self.now.classes) }
    {
        let entry = self.pools.get(number)?;
        Some(Node {
            shape: Shape::inline(entry.class),
            bytes: self.bytes,
            at: entry.value_at,
            end: entry.end,
        })
    }

    /// The number of inert records. A record is inert if it is neither an event, nor the metadata record at
    /// the position in the header, nor a chained checkpoint.
    pub fn inert_count(&self) -> u64
        ensures { result ≡ length (filter (is_inert self.now) self.now.records) }
    {
        (self.frames.len() - self.events.fields.len() - self.chain.len() - 1) as u64
    }

    /// The number of events.
    pub fn event_count(&self) -> usize
        ensures { result ≡ length (events_of self.now) }
    {
        self.events.fields.len()
    }

    /// A `Kept` with every event kept.
    pub fn keep_all(&self, alloc: Global) -> Result<Kept, NoMemory>
        ensures ok { IfOk result (λ kept. kept ≡ replicate (length (events_of self.now)) true) }
        ensures parts { AreParts self.now }
    {
        Kept::all(alloc, self.events.fields.len())
    }

    /// Event `number`, from 0 in the order of the file; `None` exactly if there is no such event.
    #[inline(always)]
    pub fn event(&self, number: usize) -> Option<Event<'a>>
        ensures exact { option_map event_at result ≡ slice_get (events_of self.now) number }
        ensures of_chunk { IfSome result (IsOfChunk self.now number) }
        ensures value { IfSome result (λ event. IsValue self.now.classes event.node) }
    {
        let fields = self.events.fields_at(number)?;
        let frame = self.frames.get(fields.record as usize)?;
        let node = Node {
            shape: Shape::inline(frame.type_id),
            bytes: self.bytes,
            at: frame.body,
            end: self.events.end_of_fields(fields.record, frame),
        };
        Some(Event {
            number,
            frame,
            node,
        })
    }

    /// As `event`, for an event that is known to be there.
    #[inline(always)]
    pub fn known_event(&self, number: usize) -> Event<'a>
        requires known { number < length (events_of self.now) }
        ensures exact { slice_get (events_of self.now) number ≡ Some (event_at result) }
        ensures of_chunk { IsOfChunk self.now number result }
        ensures value { IsValue self.now.classes result.node }
    {
        match self.event(number) {
            Some(event) => event,
            None => unreachable!(),
        }
    }

    /// The offset of the record of event `number`; `None` exactly if there is no such event. The record is
    /// not read.
    #[inline]
    pub fn event_place(&self, number: usize) -> Option<usize>
        ensures { result ≡ option_map (λ e. e.record_of.at) (slice_get (events_of self.now) number) }
    {
        let fields = self.events.fields_at(number)?;
        self.frames.place(fields.record as usize)
    }

    /// The id of the class of event `number`; `None` exactly if there is no such event. The fields of the
    /// event are not read.
    #[inline]
    pub fn event_class(&self, number: usize) -> Option<u64>
        ensures { result ≡ option_map (λ e. e.record_of.type_id) (slice_get (events_of self.now) number) }
    {
        let fields = self.events.fields_at(number)?;
        let frame = self.frames.get(fields.record as usize)?;
        Some(frame.type_id)
    }

    /// The ids of the classes of all events.
    pub fn event_classes(&self) -> &Ids
        ensures { (id : ℕ) → is_in result.now id ≡ used_by (events_of self.now) id }
    {
        self.events.used.ids()
    }

    /// The number, among all records, of the record of event `number`; `None` exactly if there is no such
    /// event. The record is not read.
    #[inline]
    pub fn event_record(&self, number: usize) -> Option<usize>
        ensures { option_map (slice_get self.now.records) result ≡ option_map (λ e. Some e.record_of) (slice_get (events_of self.now) number) }
    {
        let fields = self.events.fields_at(number)?;
        Some(fields.record as usize)
    }

    /// The numbers of the entries in force to which the events refer, one event after another. A number
    /// occurs once for each value that refers to its entry.
    pub fn all_entries(&self) -> &[u32]
        ensures { result.now ≡ roots self.now (events_of self.now) }
    {
        self.events.numbers.as_slice()
    }

    /// The classes and keys to which the events refer and that have no entry in force; `None` if there are too
    /// many to note, or memory ran out for them.
    pub fn missing_refs(&self) -> Option<&[MissingRef]>
        ensures { IfSome result (λ refs. AreMissing (missing_by_event self.now) refs.now) }
    {
        self.events.missing.all()
    }

    /// The numbers of the entries in force to which event `number` refers, from left to right; `None` exactly
    /// if there is no such event.
    pub fn event_entries(&self, number: usize) -> Option<&[u32]>
        ensures { option_map (λ s. s.now) result ≡ option_map (λ e. node_entries self.now.entries self.now.classes self.now.bytes e.node) (slice_get (events_of self.now) number) }
    {
        let fields = self.events.fields_at(number)?;
        let start = self.events.refs_before(number);
        self.events.numbers.get(start..fields.refs_end as usize)
    }

    /// Where the keys with an entry in force are spelled in event `number`, from left to right, if this is noted, and
    /// if all its other keys are 0 in one byte. A chunk that is read with `Buffers::noting_keys` notes it, unless
    /// memory runs out, or another key of an event has no entry.
    pub fn event_keys(&self, number: usize) -> Option<&[KeyPlace]>
        ensures { IfSome result (λ places. IfSome (slice_get (events_of self.now) number) (λ e. AreKeyPlaces self.now e.node places.now)) }
    {
        let fields = self.events.fields_at(number)?;
        let places = self.events.keys.all()?;
        let from = self.events.refs_before(number);
        places.get(from..fields.refs_end as usize)
    }
}
