//! The index of a chunk's events: their records, where their fields end, and to what they refer.
ghost use Rattle.std.specs.Prelude.{◌≡◌, ℕ, ◌+◌, ◌<◌, ◌^◌, length, slice_get, option_map, Some};
ghost use Rattle.jfr_frame.specs.Records.{record_end};
ghost use Rattle.jfr_chunk.specs.Buffers.{HasNoEvents};
ghost use Rattle.jfr_chunk.specs.Indexed.{end_in};

use crate::key_places::KeyPlaces;
use crate::missing::MissingRefs;
use crate::used::UsedClasses;
use jfr_frame::Framed;
use std::alloc::Global;
use std::collections::BTreeMap;

/// The index entry of an event. A chunk can have millions of events, so an entry is small: 32 bits are enough
/// for each number, since none is larger than the chunk's size, and the end of the fields is not kept here,
/// since it is nearly always that of the record.
#[derive(Clone, Copy, Debug)]
pub(crate) struct EventIndexEntry {
    /// The number of its record among all records, from 0.
    pub record: u32,
    /// The end of this event's range in the index's numbers of entries. The range starts where that of the
    /// event before ends.
    pub refs_end: u32,
}

/// The records of the events, in the order of the file, where their fields end, the numbers of the entries in
/// force to which they refer, where their keys are spelled, what they refer to without an entry, and their classes.
#[derive(Drop)]
pub(crate) struct EventIndex {
    /// An entry for each event.
    pub fields: Vec<EventIndexEntry>,
    /// Where the fields end, for the few events whose fields end before their record does, by the record's
    /// number.
    pub early: BTreeMap<u32, u32>,
    /// The numbers of the entries in force to which the events refer, one event after another.
    pub numbers: Vec<u32>,
    /// Where the keys with these entries are spelled, if this is noted.
    pub keys: KeyPlaces,
    /// The classes and keys to which the events refer and that have no entry in force.
    pub missing: MissingRefs,
    /// The classes of the events.
    pub used: UsedClasses,
}

impl EventIndex {
    /// An index without events, in which places of keys are noted or not. It allocates nothing.
    pub fn new(alloc: Global, notes_keys: bool) -> EventIndex
        ensures { HasNoEvents result }
    {
        EventIndex {
            fields: Vec::new(alloc),
            early: BTreeMap::new(alloc),
            numbers: Vec::new(alloc),
            keys: KeyPlaces::new(alloc, notes_keys),
            missing: MissingRefs::new(alloc),
            used: UsedClasses::new(alloc),
        }
    }

    /// Removes all events, and keeps the memory.
    pub fn clear(&mut self)
        ensures { HasNoEvents self.new }
    {
        self.fields.clear();
        self.early.clear();
        self.numbers.clear();
        self.keys.clear();
        self.missing.clear();
        self.used.clear();
    }

    /// The entry of event `number`; `None` exactly if there is no such event.
    #[inline]
    pub fn fields_at(&self, number: usize) -> Option<EventIndexEntry>
        ensures { result ≡ slice_get self.now.fields.items number }
    {
        self.fields.get(number).copied()
    }

    /// Where the fields of the event with record `number` end.
    #[inline]
    pub fn end_of_fields(&self, number: u32, frame: Framed) -> usize
        requires { record_end frame < 2 ^ 64 }
        ensures { result ≡ end_in self.now.early number frame }
    {
        match self.early.get(&number) {
            Some(end) => *end as usize,
            None => frame.end(),
        }
    }

    /// The start of event `number`'s range in the index's numbers of entries.
    #[inline]
    pub fn refs_before(&self, number: usize) -> usize
        requires { number < length self.now.fields.items }
        ensures first { number ≡ 0 → result ≡ 0 }
        ensures later { (before : ℕ) → number ≡ before + 1 → Some result ≡ option_map (λ f. f.refs_end) (slice_get self.now.fields.items before) }
    {
        match number.checked_sub(1) {
            Some(before) => self.fields[before].refs_end as usize,
            None => 0,
        }
    }
}
