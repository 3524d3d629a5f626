//! Masked values.
ghost use Rattle.std.specs.Prelude.{◌≡◌, ◌≤◌, ◌++◌, ℕ, true, IfSome, List, OnOk, Option, Some, length, slice_get, slice_range};
ghost use Rattle.std.specs.List.{AllByRecursion};
ghost use Rattle.std.specs.Option.{option_map};
ghost use Rattle.std.specs.Str.{chars};
ghost use Rattle.jfr_frame.specs.Records.{record_end};
ghost use Rattle.jfr_meta.specs.Written.{text_bytes};
ghost use Rattle.jfr_value.specs.Leaves.{KeyIsSpelled, leaf_of};
ghost use Rattle.jfr_rewrite.specs.Copying.{LiesIn};
ghost use Rattle.jfr_mask.specs.Masked.{is_string_leaf, string_bytes};
ghost use Rattle.jfr_mask.specs.MaskedLeaves.{leaf_text};
ghost use Rattle.jfr_mask.specs.Maskers.{shown_by};
ghost use Rattle.jfr_mask.specs.NewLeaves.{masked_by};
ghost use Rattle.jfr_mask.specs.Noted.{HasNoted, IsNotedFor, IsShownBy, IsStringIn};
ghost use Rattle.jfr_mask.specs.Pseudonyms.{has_text, pseudonym};
ghost use Rattle.jfr_mask.specs.Written.{AreApart, shown_bytes, utf8_string, with_strings};

use crate::event_strings::{EventStrings, StringAt};
use crate::noted::{Noted, NotedTexts};
use crate::shown::pseudonym_start;
use crate::texts::{MaskedStrings, leaf_text, payload_of};
use crate::widths::width_of;
use crate::{Dictionary, Known, MaskedFields, Shown};
use itoa::Buffer;
use jfr_base::{NoMemory, push_var};
use jfr_chunk::{Chunk, Event, Kept};
use jfr_frame::Framed;
use jfr_layout::Kind;
use jfr_rewrite::Rewriter;
use jfr_text::{EMPTY_BYTE, NULL_BYTE, UTF8_BYTE};
use jfr_value::{Leaf, LeafKind, Node};
use std::alloc::Global;
use std::ops::Range;

/// What the values of a chunk are masked with: its masked strings, the known texts, and the dictionary, which should
/// have all texts of these strings.
#[derive(Clone, Copy)]
pub(crate) struct Masker<'m, 'd> {
    pub(crate) alloc: Global,
    pub(crate) strings: MaskedStrings<'m>,
    pub(crate) known: &'m Known,
    pub(crate) dictionary: &'d Dictionary,
    /// The events that are kept.
    pub(crate) kept: &'m Kept,
    /// Their masked strings.
    pub(crate) events: &'d EventStrings,
    /// The pseudonyms of the strings, and of the texts to which entries lead.
    pub(crate) noted: &'d NotedTexts,
}

/// A masked string of a value whose leaves are visited.
#[derive(Clone, Copy)]
pub(crate) struct MaskedLeaf {
    /// Its class.
    pub(crate) class: u64,
    /// The offset of its first byte.
    pub(crate) at: usize,
    /// The number of its bytes.
    pub(crate) len: usize,
}

impl Rewriter for Masker<'_, '_> {
    type NewLeaf = MaskedLeaf;

    ghost use Rattle.std.specs.Prelude.{◌≡◌};
    ghost use Rattle.jfr_value.specs.Leaves.{LeafAt};
    ghost use Rattle.jfr_value.specs.Visits.{IsNumber};
    ghost use Rattle.jfr_rewrite.specs.Copying.{leaf_becomes};
    ghost use Rattle.jfr_mask.specs.declared.masker.Masker.{Masker};
    ghost use Rattle.jfr_mask.specs.Maskers.{KnowsPlain, rewrite_by};
    ghost use Rattle.jfr_mask.specs.NewLeaves.{CanPut, new_bytes};
    ghost use Rattle.jfr_mask.specs.Noted.{HasListed, HasNoted};

    ghost rewrite = { λ m. rewrite_by m };

    ghost suits = { λ m p. (p ≡ m.strings.chunk.now) × KnowsPlain m.strings × HasNoted m × HasListed m };

    ghost can_put = { CanPut };

    ghost spells = { new_bytes };

    fn is_unchanged(&self, _chunk: &Chunk<'_>, node: Node<'_>) -> bool {
        self.strings.chunk.parts_are_valid();
        self.strings.are_none_in(node)
    }

    /// It is known where the masked strings of a kept event are.
    fn put_event(
        &self,
        out: &mut Vec<u8>,
        chunk: &Chunk<'_>,
        event: Event<'_>,
    ) -> Result<bool, NoMemory> {
        if !self.kept.is_kept(event.number) {
            return Ok(false);
        }
        chunk.parts_are_valid();
        let numbers = self.events.of_event(event.number);
        self.put_strings(out, numbers, event.frame)?;
        Ok(true)
    }

    fn keeps_numbers()
        ensures { (masker : Masker) (leaf : LeafAt) → IsNumber leaf → leaf_becomes (rewrite_by masker).change leaf ≡ leaf.spelled }
    {}

    fn new_leaf(&self, _chunk: &Chunk<'_>, leaf: &Leaf<'_>) -> Option<MaskedLeaf> {
        if !self.strings.has(leaf) {
            return None;
        }
        Some(MaskedLeaf {
            class: leaf.class,
            at: leaf.at,
            len: leaf.spelled.len(),
        })
    }

    fn put_new_leaf(&self, out: &mut Vec<u8>, new: MaskedLeaf) -> Result<(), NoMemory> {
        let bytes = self.strings.chunk.bytes();
        let leaf = Leaf {
            kind: LeafKind::Base(Kind::Text),
            class: new.class,
            holder: None,
            at: new.at,
            spelled: &bytes[new.at..new.at + new.len],
        };
        self.put_string(out, &leaf)
    }

    fn entry_key(&self, _class: u64, key: u64) -> u64 {
        key
    }

    fn width(&self, frame: Framed, rest: usize) -> usize {
        width_of(frame, rest)
    }
}

impl Masker<'_, '_> {
    /// Appends the bytes of a record of the chunk, in which the strings with these numbers are masked.
    fn put_strings(
        &self,
        out: &mut Vec<u8>,
        numbers: Range<usize>,
        frame: Framed,
    ) -> Result<(), NoMemory>
        requires order { numbers.start ≤ numbers.end }
        requires listed { numbers.end ≤ length self.now.events.now.strings.items }
        requires strings { AllByRecursion (IsStringIn self.now.strings.chunk.now) (slice_range self.now.events.now.strings.items numbers.start numbers.end) }
        requires apart { AreApart frame.at (record_end frame) (slice_range self.now.events.now.strings.items numbers.start numbers.end) }
        requires within { record_end frame ≤ length self.now.strings.chunk.now.bytes }
        requires noted { HasNoted self.now }
        ensures ok { OnOk result (out.new.items ≡ out.old.items ++ with_strings (masked_by self.now) self.now.strings.chunk.now.bytes frame.at (record_end frame) (slice_range self.now.events.now.strings.items numbers.start numbers.end)) }
    {
        let bytes = self.strings.chunk.bytes();
        let mut copied = frame.at;
        for number in numbers.start..numbers.end {
            let string = self.events.strings[number];
            out.extend_from_slice(&bytes[copied..string.start()])?;
            self.put_string_at(out, number, string)?;
            copied = string.end();
        }
        out.extend_from_slice(&bytes[copied..frame.end()])?;
        Ok(())
    }

    /// Appends the string with this number, masked.
    fn put_string_at(
        &self,
        out: &mut Vec<u8>,
        number: usize,
        string: StringAt,
    ) -> Result<(), NoMemory>
        requires there { slice_get self.now.events.now.strings.items number ≡ Some string }
        requires string { IsStringIn self.now.strings.chunk.now string }
        requires noted { HasNoted self.now }
        ensures ok { OnOk result (out.new.items ≡ out.old.items ++ masked_by self.now string) }
    {
        match self.shown_as(self.noted.string(number)) {
            Some(shown) => put_shown(out, shown),
            None => self.put_string(out, &string.leaf(self.strings.chunk.bytes())),
        }
    }

    /// Appends a string with what is shown for the text of this one; the null string if this one has no text.
    fn put_string(&self, out: &mut Vec<u8>, leaf: &Leaf<'_>) -> Result<(), NoMemory>
        requires string { is_string_leaf leaf.now.kind ≡ true }
        requires lies { LiesIn self.now.strings.chunk.now (leaf_of leaf.now) }
        requires noted { HasNoted self.now }
        ensures ok { OnOk result (out.new.items ≡ out.old.items ++ string_bytes (option_map (shown_by self.now) (leaf_text self.now.strings.chunk.now (leaf_of leaf.now)))) }
    {
        match self.noted_shown(leaf) {
            Some(shown) => put_shown(out, shown),
            None => self.put_made(out, leaf),
        }
    }

    /// What is shown for the text of a string, if the string leads to an entry for which the text's number is noted.
    fn noted_shown(&self, leaf: &Leaf<'_>) -> Option<Shown<'static>>
        requires key { KeyIsSpelled (leaf_of leaf.now) }
        requires noted { HasNoted self.now }
        ensures { IfSome result (λ shown. IsShownBy self.now (leaf_text self.now.strings.chunk.now (leaf_of leaf.now)) (shown_bytes shown)) }
    {
        let entry = self.strings.entry_of(leaf)?;
        self.shown_as(self.noted.entry(entry))
    }

    /// What is shown for a text, if its pseudonym is noted.
    fn shown_as(&self, noted: Noted) -> Option<Shown<'static>>
        ensures { (found : Option (List ℕ)) → IsNotedFor (has_text self.now.known.now) self.now.dictionary.now found noted → IfSome result (λ shown. IsShownBy self.now found (shown_bytes shown)) }
    {
        self.dictionary.texts_are_distinct();
        noted.shown()
    }

    /// As `put_string`. The text is made, unless the payload is the text.
    fn put_made(&self, out: &mut Vec<u8>, leaf: &Leaf<'_>) -> Result<(), NoMemory>
        requires string { is_string_leaf leaf.now.kind ≡ true }
        requires lies { LiesIn self.now.strings.chunk.now (leaf_of leaf.now) }
        ensures ok { OnOk result (out.new.items ≡ out.old.items ++ string_bytes (option_map (shown_by self.now) (leaf_text self.now.strings.chunk.now (leaf_of leaf.now)))) }
    {
        if let Some(text) = payload_of(leaf) {
            return self.put_text(out, text);
        }
        match leaf_text(self.alloc, self.strings.chunk, leaf)? {
            Some(text) => self.put_text(out, text.as_str()),
            None => Ok(out.push(NULL_BYTE)?),
        }
    }

    /// Appends a string with what is shown for a text. Only the empty text is shown as the empty text.
    fn put_text(&self, out: &mut Vec<u8>, text: &str) -> Result<(), NoMemory>
        ensures ok { OnOk result (out.new.items ≡ out.old.items ++ text_bytes (shown_by self.now (chars text.now))) }
    {
        if text.is_empty() {
            out.push(EMPTY_BYTE)?;
            return Ok(());
        }
        put_shown(out, Shown::of(self.known, self.dictionary, text))
    }
}

/// Appends a string in UTF-8 with what is shown for a text that isn't empty.
fn put_shown(out: &mut Vec<u8>, shown: Shown<'_>) -> Result<(), NoMemory>
    ensures ok { OnOk result (out.new.items ≡ out.old.items ++ utf8_string (shown_bytes shown.entry)) }
{
    match shown {
        Shown::Text(text) => put_utf8(out, text.as_bytes()),
        Shown::Pseudonym { descriptor, number } => put_pseudonym(out, descriptor, number),
    }
}

/// Appends a string in UTF-8 with these bytes.
fn put_utf8(out: &mut Vec<u8>, bytes: &[u8]) -> Result<(), NoMemory>
    ensures ok { OnOk result (out.new.items ≡ out.old.items ++ utf8_string bytes.now) }
{
    out.push(UTF8_BYTE)?;
    push_var(out, bytes.len() as u64)?;
    out.extend_from_slice(bytes)?;
    Ok(())
}

/// Appends a string in UTF-8 with the pseudonym with a number.
fn put_pseudonym(out: &mut Vec<u8>, descriptor: bool, number: u64) -> Result<(), NoMemory>
    ensures ok { OnOk result (out.new.items ≡ out.old.items ++ utf8_string (pseudonym descriptor number)) }
{
    let mut buffer = Buffer::new();
    let start = pseudonym_start(descriptor);
    let digits = buffer.format(number).as_bytes();
    out.push(UTF8_BYTE)?;
    push_var(out, (start.len() + digits.len()) as u64)?;
    out.extend_from_slice(start)?;
    out.extend_from_slice(digits)?;
    Ok(())
}
