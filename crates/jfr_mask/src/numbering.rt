//! The numbers of a chunk's masked texts.
ghost use Rattle.std.specs.Prelude.{◌≡◌, ◌<◌, ◌≤◌, true, ℕ, List, Option, IfOk, IfSome, IsSome, OnOk, Some, length, slice_get, slice_range};
ghost use Rattle.std.specs.List.{AllByRecursion, flat_map};
ghost use Rattle.std.specs.Str.{chars};
ghost use Rattle.jfr_value.specs.Leaves.{leaf_of};
ghost use Rattle.jfr_value.specs.Nodes.{IsValue, node_of};
ghost use Rattle.jfr_pool.specs.Entries.{entry_node};
ghost use Rattle.jfr_chunk.specs.Parts.{events_of, metadata_at};
ghost use Rattle.jfr_chunk.specs.Reach.{kept_by};
ghost use Rattle.jfr_output.specs.RemainingRecords.{ShowsEvent, ShowsMetadata, output_record_for};
ghost use Rattle.jfr_output.specs.Remaining.{NotFalling};
ghost use Rattle.jfr_rewrite.specs.Copying.{LiesIn};
ghost use Rattle.jfr_mask.specs.Masked.{is_string_leaf, numbered_text};
ghost use Rattle.jfr_mask.specs.MaskedLeaves.{is_masked_leaf, leaf_text};
ghost use Rattle.jfr_mask.specs.Maskers.{IsEntryValue, IsMaskingBy, KnowsPlain, entries_by, held_by, leaf_texts_by, node_texts_by, string_texts_by};
ghost use Rattle.jfr_mask.specs.MaskOf.{Masking, dictionary_after, origin_of, origin_texts};
ghost use Rattle.jfr_mask.specs.Noted.{AreNoted, IsNotedFor, IsStringIn, NotesTexts, NumbersListed, entry_by, texts_at};
ghost use Rattle.jfr_mask.specs.Pseudonyms.{Extends, has_text, with_texts};
ghost use Rattle.jfr_mask.specs.Reaching.{marked_get};
ghost use Rattle.jfr_mask.specs.Visitors.{AddsTexts};

use crate::event_strings::EventStrings;
use crate::noted::{NOTHING, Noted, NotedTexts};
use crate::shown::is_unmasked;
use crate::texts::{MaskedStrings, leaf_text, payload_of};
use crate::{Dictionary, Known};
use jfr_base::NoMemory;
use jfr_chunk::Kept;
use jfr_layout::Shape;
use jfr_output::{RecordCursor, RemainingRecord, entries_of, next_remaining_record};
use jfr_pool::EntryAt;
use jfr_value::{Leaf, Node, VisitLeaf, visit_leaves};
use std::alloc::Global;
use std::mem;
use std::ops::Range;

/// Adds the masked texts of a chunk to a dictionary, except for those that are shown as they are. If memory runs out,
/// some of the texts are added.
#[derive(Clone, Copy)]
pub(crate) struct Numbering<'m> {
    pub(crate) alloc: Global,
    pub(crate) strings: MaskedStrings<'m>,
    pub(crate) known: &'m Known,
    /// The events that are kept.
    pub(crate) kept: &'m Kept,
    /// Their masked strings.
    pub(crate) events: &'m EventStrings,
}

impl Numbering<'_> {
    /// Adds the texts of the masked chunk, in the order in which they are in it: those of the kept events, and of the
    /// entries that are left. Returns the pseudonyms of the strings, and of the texts to which entries lead.
    pub(crate) fn number_chunk(
        &self,
        dictionary: &mut Dictionary,
        entries: &[EntryAt],
    ) -> Result<NotedTexts, NoMemory>
        requires plain { KnowsPlain self.now.strings }
        requires listed { NumbersListed self.now }
        requires entries { entries.now ≡ entries_by self.now.strings (kept_by self.now.strings.chunk.now self.now.kept.now) }
        ensures ok { OnOk result ((m : Masking) → IsMaskingBy self.now m → dictionary.new ≡ dictionary_after m dictionary.old self.now.strings.chunk.now (kept_by self.now.strings.chunk.now self.now.kept.now)) }
        ensures noted { IfOk result (λ noted. AreNoted self.now.strings.chunk.now (has_text self.now.known.now) dictionary.new self.now.events.now.strings.items noted) }
    {
        let strings = self.events.strings.len();
        let noted = NotedTexts::new(self.alloc, self.strings.chunk.pools().len(), strings)?;
        let mut growing = GrowingDictionary {
            dictionary: mem::replace(dictionary, Dictionary::new(self.alloc)),
            noted,
            failed: false,
        };
        let added = self.add_chunk(&mut growing, entries);
        *dictionary = growing.dictionary;
        added?;
        Ok(growing.noted)
    }

    /// Adds the texts of the masked chunk. If all classes are plain, its records aren't looked at.
    fn add_chunk(
        &self,
        growing: &mut GrowingDictionary,
        entries: &[EntryAt],
    ) -> Result<(), NoMemory>
        requires plain { KnowsPlain self.now.strings }
        requires listed { NumbersListed self.now }
        requires entries { entries.now ≡ entries_by self.now.strings (kept_by self.now.strings.chunk.now self.now.kept.now) }
        requires noted { NotesTexts self.now growing.old }
        ensures ok { OnOk result ((m : Masking) → IsMaskingBy self.now m → growing.new.dictionary ≡ dictionary_after m growing.old.dictionary self.now.strings.chunk.now (kept_by self.now.strings.chunk.now self.now.kept.now)) }
        ensures noted { OnOk result (NotesTexts self.now growing.new) }
    {
        self.strings.chunk.parts_are_valid();
        if self.strings.are_none() {
            return Ok(());
        }
        self.add_records(growing, entries)
    }

    /// As `add_chunk`, one record after another.
    fn add_records(
        &self,
        growing: &mut GrowingDictionary,
        entries: &[EntryAt],
    ) -> Result<(), NoMemory>
        requires plain { KnowsPlain self.now.strings }
        requires listed { NumbersListed self.now }
        requires entries { entries.now ≡ entries_by self.now.strings (kept_by self.now.strings.chunk.now self.now.kept.now) }
        requires noted { NotesTexts self.now growing.old }
        ensures ok { OnOk result ((m : Masking) → IsMaskingBy self.now m → growing.new.dictionary ≡ dictionary_after m growing.old.dictionary self.now.strings.chunk.now (kept_by self.now.strings.chunk.now self.now.kept.now)) }
        ensures noted { OnOk result (NotesTexts self.now growing.new) }
    {
        self.strings.chunk.parts_are_valid();
        let mut cursor = RecordCursor {
            frame: 0,
            event: 0,
            link: 0,
        };
        'output_records: while let Some(remaining_record) = next_remaining_record(
            self.strings.chunk,
            self.kept,
            &mut cursor,
        ) {
            self.add_record(growing, entries, remaining_record)?;
        }
        Ok(())
    }

    /// Adds the texts of a remaining record.
    fn add_record(
        &self,
        growing: &mut GrowingDictionary,
        entries: &[EntryAt],
        remaining_record: RemainingRecord,
    ) -> Result<(), NoMemory>
        requires plain { KnowsPlain self.now.strings }
        requires listed { NumbersListed self.now }
        requires order { NotFalling 0 entries.now }
        requires values { AllByRecursion (IsEntryValue self.now.strings.chunk.now) entries.now }
        requires kept { ShowsEvent self.now.strings.chunk.now self.now.kept.now remaining_record }
        requires noted { NotesTexts self.now growing.old }
        ensures ok { OnOk result ((m : Masking) (slim : Option (List ℕ)) → IsMaskingBy self.now m → ShowsMetadata (metadata_at self.now.strings.chunk.now.bytes) remaining_record → growing.new.dictionary ≡ with_texts growing.old.dictionary (origin_texts m self.now.strings.chunk.now (origin_of self.now.strings.chunk.now (kept_by self.now.strings.chunk.now self.now.kept.now) entries.now (output_record_for slim remaining_record)))) }
        ensures noted { OnOk result (NotesTexts self.now growing.new) }
    {
        self.strings.chunk.parts_are_valid();
        match remaining_record {
            RemainingRecord::Event(number, _) => self.add_event(growing, number),
            RemainingRecord::Metadata(_) => Ok(()),
            RemainingRecord::Chained(number, _) => {
                self.add_entries(growing, entries_of(entries, number))
            }
        }
    }

    /// Adds the texts of the strings of a kept event.
    fn add_event(&self, growing: &mut GrowingDictionary, number: usize) -> Result<(), NoMemory>
        requires listed { NumbersListed self.now }
        requires kept { IsSome (marked_get self.now.kept.now (events_of self.now.strings.chunk.now) number) }
        requires noted { NotesTexts self.now growing.old }
        ensures ok { OnOk result (IfSome (slice_get (events_of self.now.strings.chunk.now) number) (λ e. growing.new.dictionary ≡ with_texts growing.old.dictionary (node_texts_by self.now e.node))) }
        ensures noted { OnOk result (NotesTexts self.now growing.new) }
    {
        self.strings.chunk.parts_are_valid();
        self.add_strings(growing, self.events.of_event(number))
    }

    /// Adds the texts of the strings with these numbers.
    fn add_strings(
        &self,
        growing: &mut GrowingDictionary,
        numbers: Range<usize>,
    ) -> Result<(), NoMemory>
        requires order { numbers.start ≤ numbers.end }
        requires within { numbers.end ≤ length self.now.events.now.strings.items }
        requires strings { AllByRecursion (IsStringIn self.now.strings.chunk.now) (slice_range self.now.events.now.strings.items numbers.start numbers.end) }
        requires noted { NotesTexts self.now growing.old }
        ensures ok { OnOk result (growing.new.dictionary ≡ with_texts growing.old.dictionary (flat_map (texts_at self.now) (slice_range self.now.events.now.strings.items numbers.start numbers.end))) }
        ensures noted { OnOk result (NotesTexts self.now growing.new) }
    {
        for number in numbers.start..numbers.end {
            self.add_string_at(growing, number)?;
        }
        Ok(())
    }

    /// Adds the text of the string with this number, if it has one, and notes its pseudonym.
    fn add_string_at(&self, growing: &mut GrowingDictionary, number: usize) -> Result<(), NoMemory>
        requires there { number < length self.now.events.now.strings.items }
        requires string { IfSome (slice_get self.now.events.now.strings.items number) (IsStringIn self.now.strings.chunk.now) }
        requires noted { NotesTexts self.now growing.old }
        ensures ok { OnOk result (IfSome (slice_get self.now.events.now.strings.items number) (λ s. growing.new.dictionary ≡ with_texts growing.old.dictionary (texts_at self.now s))) }
        ensures noted { OnOk result (NotesTexts self.now growing.new) }
    {
        let leaf = self.events.strings[number].leaf(self.strings.chunk.bytes());
        let noted = self.add_string(growing, &leaf)?;
        growing.noted.strings[number] = noted;
        Ok(())
    }

    /// Adds the texts of entries.
    fn add_entries(
        &self,
        growing: &mut GrowingDictionary,
        entries: &[EntryAt],
    ) -> Result<(), NoMemory>
        requires plain { KnowsPlain self.now.strings }
        requires values { AllByRecursion (IsEntryValue self.now.strings.chunk.now) entries.now }
        requires noted { NotesTexts self.now growing.old }
        ensures ok { OnOk result (growing.new.dictionary ≡ with_texts growing.old.dictionary (flat_map (λ e. node_texts_by self.now (entry_node e)) entries.now)) }
        ensures noted { OnOk result (NotesTexts self.now growing.new) }
    {
        for entry in entries {
            self.add_entry(growing, entry)?;
        }
        Ok(())
    }

    /// Adds the texts of an entry.
    fn add_entry(&self, growing: &mut GrowingDictionary, entry: &EntryAt) -> Result<(), NoMemory>
        requires plain { KnowsPlain self.now.strings }
        requires value { IsEntryValue self.now.strings.chunk.now entry.now }
        requires noted { NotesTexts self.now growing.old }
        ensures ok { OnOk result (growing.new.dictionary ≡ with_texts growing.old.dictionary (node_texts_by self.now (entry_node entry.now))) }
        ensures noted { OnOk result (NotesTexts self.now growing.new) }
    {
        let node = Node {
            shape: Shape::inline(entry.class),
            bytes: self.strings.chunk.bytes(),
            at: entry.value_at,
            end: entry.end,
        };
        self.add_node(growing, node)
    }

    /// Adds the texts of a node, from left to right. A node of a plain class isn't read.
    #[inline(always)]
    fn add_node(&self, growing: &mut GrowingDictionary, node: Node<'_>) -> Result<(), NoMemory>
        requires plain { KnowsPlain self.now.strings }
        requires value { IsValue self.now.strings.chunk.now.classes node }
        requires of_chunk { node.bytes.now ≡ self.now.strings.chunk.now.bytes }
        requires noted { NotesTexts self.now growing.old }
        ensures ok { OnOk result (growing.new.dictionary ≡ with_texts growing.old.dictionary (node_texts_by self.now (node_of node.entry))) }
        ensures noted { OnOk result (NotesTexts self.now growing.new) }
    {
        self.strings.chunk.parts_are_valid();
        if self.strings.are_none_in(node) {
            return Ok(());
        }
        self.add_leaves(growing, node)
    }

    /// As `add_node`, by the leaves of the node.
    #[inline(never)]
    fn add_leaves(&self, growing: &mut GrowingDictionary, node: Node<'_>) -> Result<(), NoMemory>
        requires value { IsValue self.now.strings.chunk.now.classes node }
        requires of_chunk { node.bytes.now ≡ self.now.strings.chunk.now.bytes }
        requires noted { NotesTexts self.now growing.old }
        ensures ok { OnOk result (growing.new.dictionary ≡ with_texts growing.old.dictionary (node_texts_by self.now (node_of node.entry))) }
        ensures noted { OnOk result (NotesTexts self.now growing.new) }
    {
        self.strings.chunk.parts_are_valid();
        visit_leaves(self.strings.chunk.classes(), node, growing, self);
        if growing.failed {
            return Err(NoMemory);
        }
        Ok(())
    }

    /// Adds the text of a masked string, if it has one. If memory runs out, this is noted, and nothing more is added.
    #[inline(never)]
    fn take_string(&self, growing: &mut GrowingDictionary, leaf: &Leaf<'_>)
        requires masked { is_masked_leaf (held_by self.now.strings) (leaf_of leaf.now) ≡ true }
        requires lies { LiesIn self.now.strings.chunk.now (leaf_of leaf.now) }
        requires noted { NotesTexts self.now growing.old }
        ensures takes { AddsTexts (leaf_texts_by self.now (leaf_of leaf.now)) growing.old growing.new }
        ensures noted { NotesTexts self.now growing.new }
    {
        if growing.failed {
            return;
        }
        if self.add_string(growing, leaf).is_err() {
            growing.failed = true;
        }
    }

    /// Adds the text of a string, if it has one. Returns its pseudonym, if it is known.
    fn add_string(
        &self,
        growing: &mut GrowingDictionary,
        leaf: &Leaf<'_>,
    ) -> Result<Noted, NoMemory>
        requires string { is_string_leaf leaf.now.kind ≡ true }
        requires lies { LiesIn self.now.strings.chunk.now (leaf_of leaf.now) }
        requires noted { NotesTexts self.now growing.old }
        ensures ok { OnOk result (growing.new.dictionary ≡ with_texts growing.old.dictionary (string_texts_by self.now (leaf_of leaf.now))) }
        ensures known { IfOk result (IsNotedFor (has_text self.now.known.now) growing.new.dictionary (leaf_text self.now.strings.chunk.now (leaf_of leaf.now))) }
        ensures failed { growing.new.failed ≡ growing.old.failed }
        ensures noted { NotesTexts self.now growing.new }
    {
        match self.strings.entry_of(leaf) {
            Some(entry) => self.add_constant(growing, leaf, entry),
            None => self.add_text(growing, leaf),
        }
    }

    /// Adds the text of a string that leads to this entry, and notes its pseudonym, unless that is noted. Returns it.
    fn add_constant(
        &self,
        growing: &mut GrowingDictionary,
        leaf: &Leaf<'_>,
        entry: usize,
    ) -> Result<Noted, NoMemory>
        requires string { is_string_leaf leaf.now.kind ≡ true }
        requires lies { LiesIn self.now.strings.chunk.now (leaf_of leaf.now) }
        requires entry { entry_by self.now.strings.chunk.now (leaf_of leaf.now) ≡ Some entry }
        requires noted { NotesTexts self.now growing.old }
        ensures ok { OnOk result (growing.new.dictionary ≡ with_texts growing.old.dictionary (string_texts_by self.now (leaf_of leaf.now))) }
        ensures known { IfOk result (IsNotedFor (has_text self.now.known.now) growing.new.dictionary (leaf_text self.now.strings.chunk.now (leaf_of leaf.now))) }
        ensures failed { growing.new.failed ≡ growing.old.failed }
        ensures noted { NotesTexts self.now growing.new }
    {
        let noted = growing.noted.entry(entry);
        if noted.is_pseudonym() {
            return Ok(noted);
        }
        let noted = self.add_text(growing, leaf)?;
        growing.noted.entries[entry] = noted;
        Ok(noted)
    }

    /// Adds the text of a string, if it has one that isn't shown as it is, and returns its pseudonym.
    fn add_text(&self, growing: &mut GrowingDictionary, leaf: &Leaf<'_>) -> Result<Noted, NoMemory>
        requires string { is_string_leaf leaf.now.kind ≡ true }
        requires lies { LiesIn self.now.strings.chunk.now (leaf_of leaf.now) }
        requires noted { NotesTexts self.now growing.old }
        ensures ok { OnOk result (growing.new.dictionary ≡ with_texts growing.old.dictionary (string_texts_by self.now (leaf_of leaf.now))) }
        ensures known { IfOk result (IsNotedFor (has_text self.now.known.now) growing.new.dictionary (leaf_text self.now.strings.chunk.now (leaf_of leaf.now))) }
        ensures failed { growing.new.failed ≡ growing.old.failed }
        ensures same { growing.new.noted ≡ growing.old.noted }
        ensures noted { NotesTexts self.now growing.new }
    {
        if let Some(text) = payload_of(leaf) {
            return add_unless_shown(self.known, &mut growing.dictionary, text);
        }
        match leaf_text(self.alloc, self.strings.chunk, leaf)? {
            Some(text) => add_unless_shown(self.known, &mut growing.dictionary, text.as_str()),
            None => Ok(NOTHING),
        }
    }
}

/// A dictionary to which the texts of a chunk are added. Once memory has run out, nothing more is added.
#[derive(Drop)]
pub(crate) struct GrowingDictionary {
    pub(crate) dictionary: Dictionary,
    /// The pseudonyms of the chunk's texts.
    pub(crate) noted: NotedTexts,
    pub(crate) failed: bool,
}

impl VisitLeaf<Numbering<'_>> for GrowingDictionary {
    ghost use Rattle.std.specs.Prelude.{ℕ, ◌≤◌};
    ghost use Rattle.jfr_value.specs.Leaves.{LeafAt};
    ghost use Rattle.jfr_value.specs.Visits.{IsNumber};
    ghost use Rattle.jfr_mask.specs.declared.numbering.GrowingDictionary.{GrowingDictionary};
    ghost use Rattle.jfr_mask.specs.declared.numbering.Numbering.{Numbering};
    ghost use Rattle.jfr_mask.specs.Maskers.{leaf_texts_by};
    ghost use Rattle.jfr_mask.specs.Noted.{NotesTexts};
    ghost use Rattle.jfr_mask.specs.Visitors.{AddsTexts};
    ghost use Rattle.jfr_rewrite.specs.Copying.{LiesIn};

    ghost admits = { λ numbering leaf. LiesIn numbering.strings.chunk.now leaf };

    ghost ready = { λ growing numbering at. NotesTexts numbering growing };

    ghost takes = { λ numbering leaf old new. AddsTexts (leaf_texts_by numbering leaf) old new };

    fn passes_numbers()
        ensures same { (numbering : Numbering) (leaf : LeafAt) (growing : GrowingDictionary) → IsNumber leaf → LiesIn numbering.strings.chunk.now leaf → NotesTexts numbering growing → AddsTexts (leaf_texts_by numbering leaf) growing growing }
        ensures ready { (numbering : Numbering) (growing : GrowingDictionary) (at to : ℕ) → NotesTexts numbering growing → at ≤ to → NotesTexts numbering growing }
    {}

    /// Most leaves are no masked strings, and then nothing is called.
    #[inline(always)]
    fn visit_leaf(&mut self, numbering: &Numbering<'_>, leaf: Leaf<'_>) {
        if numbering.strings.has(&leaf) {
            numbering.take_string(self, &leaf);
        }
    }
}

/// Adds a text, unless it is shown as it is, and returns its pseudonym, or nothing if it is shown as it is.
fn add_unless_shown(
    known: &Known,
    dictionary: &mut Dictionary,
    text: &str,
) -> Result<Noted, NoMemory>
    ensures ok { OnOk result (dictionary.new ≡ with_texts dictionary.old (numbered_text (has_text known.now) (Some (chars text.now)))) }
    ensures known { IfOk result (IsNotedFor (has_text known.now) dictionary.new (Some (chars text.now))) }
    ensures grown { Extends dictionary.old dictionary.new }
{
    if is_unmasked(known, text) {
        return Ok(NOTHING);
    }
    let number = dictionary.add(text)?;
    Ok(Noted::of(text, number))
}
