//! The dictionary of masked texts.
ghost use Rattle.std.specs.Prelude.{◌≡◌, ◌==◌, ◌+◌, ◌∷◌, ◌++◌, ◌↔◌, ◌<◌, ℕ, List, [], length, IfOk, IfSome, IsTrue, OnErr, OnOk, None, Some, false, true, slice_get, if◌then◌else◌};
ghost use Rattle.std.specs.Str.{chars};
ghost use Rattle.jfr_base.specs.Texts.{text_in};
ghost use Rattle.jfr_mask.specs.Held.{HasNumber, IsNumber, LacksOther, LacksSlot, number_under, text_tag};
ghost use Rattle.jfr_mask.specs.Pseudonyms.{IsDictionary, has_text, number_of, with_text};

use crate::slots::{Slots, next_widening};
use crate::text_list::TextList;
use jfr_base::NoMemory;
use std::alloc::Global;
use std::collections::BTreeMap;
use std::hash::{FoldHasher, Hash, Hasher};
use std::marker::Model;
use std::rc::RcStr;

/// Distinct texts, each with its number, which is its index in the list, from 1. A number is found by the hash of its
/// text, and only if that has no slot, by the text. Contracts see the list.
#[derive(Drop)]
pub struct Dictionary {
    alloc: Global,
    texts: TextList,
    /// The numbers of most texts.
    slots: Slots,
    /// The numbers of the texts that have no slot. They are few, unless texts were chosen for their similar hashes.
    others: BTreeMap<RcStr, u64>,
    /// With this many texts, more slots are made.
    widen_at: usize,
}

impl Model for Dictionary {
    ghost use Rattle.std.specs.Prelude.{ℕ, List};
    ghost use Rattle.jfr_mask.specs.Held.{IsComplete};

    ghost Value = { List (List ℕ) };

    ghost view = { λ d. d.texts };

    ghost invariant = { λ d. IsComplete d.texts d.slots.slots.items d.others };
}

impl Dictionary {
    /// A dictionary without texts. It allocates nothing.
    pub fn new(alloc: Global) -> Dictionary
        ensures { result ≡ [] }
    {
        Dictionary {
            alloc,
            texts: TextList::new(alloc),
            slots: Slots::new(alloc),
            others: BTreeMap::new(alloc),
            widen_at: 0,
        }
    }

    /// The number of a text, if the dictionary has it. It allocates nothing.
    pub fn number(&self, text: &str) -> Option<u64>
        ensures { result ≡ (if has_text self.now (chars text.now) then Some (number_of self.now (chars text.now)) else None) }
    {
        self.number_by_tag(text, tag_of(text))
    }

    /// As `number`, given the tag of the text.
    fn number_by_tag(&self, text: &str, tag: u32) -> Option<u64>
        requires { tag ≡ text_tag text.now }
        ensures { result ≡ (if has_text self.now (chars text.now) then Some (number_of self.now (chars text.now)) else None) }
    {
        match number_in_slots(&self.texts, &self.slots, text, tag) {
            Some(number) => Some(number),
            None => number_in_others(&self.texts, &self.others, text),
        }
    }

    /// The number of a text, or the next number if the dictionary doesn't have it.
    pub(crate) fn number_or_next(&self, text: &str) -> u64
        ensures { result ≡ number_of self.now (chars text.now) }
    {
        match self.number(text) {
            Some(number) => number,
            None => self.texts.len() as u64 + 1,
        }
    }

    /// The number of a text, which is added at the end if the dictionary doesn't have it. If memory runs out, nothing is
    /// added.
    pub fn add(&mut self, text: &str) -> Result<u64, NoMemory>
        ensures ok { OnOk result (self.new ≡ with_text self.old (chars text.now)) }
        ensures number { IfOk result (λ number. number ≡ number_of self.new (chars text.now)) }
        ensures unchanged { OnErr result (self.new ≡ self.old) }
    {
        let tag = tag_of(text);
        if let Some(number) = self.number_by_tag(text, tag) {
            return Ok(number);
        }
        self.widen();
        self.append(text, tag)
    }

    /// Makes more slots if there are too few. If that fails, it is tried again when there are twice as many texts.
    fn widen(&mut self)
        ensures { self.new ≡ self.old }
    {
        let texts = self.texts.len();
        if texts < self.widen_at {
            return;
        }
        self.widen_at = next_widening(texts);
        if let Ok(Some(wider)) = self.slots.widened(self.alloc, texts) {
            self.slots = wider;
        }
    }

    /// Adds a text that isn't there at the end, and returns its number. If memory runs out, nothing is added.
    fn append(&mut self, text: &str, tag: u32) -> Result<u64, NoMemory>
        requires tag { tag ≡ text_tag text.now }
        requires absent { has_text self.old (chars text.now) ≡ false }
        ensures ok { OnOk result (self.new ≡ self.old ++ chars text.now ∷ []) }
        ensures number { IfOk result (λ number. number ≡ length self.old + 1) }
        ensures unchanged { OnErr result (self.new ≡ self.old) }
    {
        // If there is no memory for the text, its number stays without it. Since each number that is found is checked,
        // this does no harm.
        let number = self.texts.len() as u64 + 1;
        if !self.slots.put(tag, number) {
            put_other(self.alloc, &mut self.others, text, number)?;
        }
        self.texts.push(text)?;
        Ok(number)
    }

    /// The texts are distinct, so each has the number of its own index. It does nothing.
    pub(crate) fn texts_are_distinct(&self)
        ensures { IsDictionary self.now }
    {
        // The proof gets the invariant of `self` by reading a field.
        let _ = &self.texts;
    }

    /// The number of texts, which is also the greatest number of a text.
    pub fn len(&self) -> usize
        ensures { result ≡ length self.now }
    {
        self.texts.len()
    }

    /// Whether there is no text.
    pub fn is_empty(&self) -> bool
        ensures { IsTrue result ↔ (self.now ≡ []) }
    {
        self.texts.len() == 0
    }

    /// The text with this index, from 0, which is known to be there.
    pub(crate) fn known(&self, at: usize) -> &str
        requires known { at < length self.now }
        ensures text { slice_get self.now at ≡ Some (chars result.now) }
    {
        match self.texts.get(at) {
            Some(text) => text,
            None => "",
        }
    }

    /// The text with this index, from 0, if there is one. Its number is one more.
    pub fn get(&self, at: usize) -> Option<&str>
        ensures text { text_in result ≡ slice_get self.now at }
        ensures number { IfSome result (λ text. number_of self.now (chars text.now) ≡ at + 1) }
    {
        self.texts.get(at)
    }
}

/// A part of the text's hash. It depends on nothing else.
#[tactic(auto, unfolding(crate::specs::Held::text_tag))]
fn tag_of(text: &str) -> u32
    ensures { result ≡ text_tag text.now }
{
    let mut hasher = FoldHasher::default();
    text.hash(&mut hasher);
    (hasher.finish() >> 32) as u32
}

/// Whether the text has this number.
fn has_number(texts: &TextList, text: &str, number: u64) -> bool
    ensures { IsTrue result ↔ IsNumber texts.now (chars text.now) number }
{
    match number.checked_sub(1) {
        Some(at) => texts.is(at as usize, text),
        None => false,
    }
}

/// The number of a text with this tag, if a slot has it.
fn number_in_slots(texts: &TextList, slots: &Slots, text: &str, tag: u32) -> Option<u64>
    ensures found { IfSome result (λ number. IsNumber texts.now (chars text.now) number) }
    ensures absent { result ≡ None → LacksSlot texts.now slots.now.slots.items (chars text.now) tag }
{
    for slot in slots.window(tag) {
        if slot.number == 0 {
            return None;
        }
        if slot.tag == tag {
            let number = u64::from(slot.number);
            if has_number(texts, text, number) {
                return Some(number);
            }
        }
    }
    None
}

/// The number of a text, if it is among those that have no slot.
fn number_in_others(texts: &TextList, others: &BTreeMap<RcStr, u64>, text: &str) -> Option<u64>
    ensures found { IfSome result (λ number. IsNumber texts.now (chars text.now) number) }
    ensures absent { result ≡ None → LacksOther texts.now others.now text.now }
{
    let number = number_under(others, text)?;
    if has_number(texts, text, number) {
        Some(number)
    } else {
        None
    }
}

/// The number under a text.
fn number_under(others: &BTreeMap<RcStr, u64>, text: &str) -> Option<u64>
    ensures { result ≡ number_under others.now text.now }
{
    if others.is_empty() {
        return None;
    }
    others.get(text).copied()
}

/// Puts a number under a text.
fn put_other(
    alloc: Global,
    others: &mut BTreeMap<RcStr, u64>,
    text: &str,
    number: u64,
) -> Result<(), NoMemory>
    ensures ok { OnOk result (HasNumber others.old others.new text.now number) }
    ensures unchanged { OnErr result ((bytes : List ℕ) → number_under others.new bytes ≡ number_under others.old bytes) }
{
    others.insert(RcStr::from_str(alloc, text)?, number)?;
    Ok(())
}
