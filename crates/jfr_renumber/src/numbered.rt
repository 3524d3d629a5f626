//! The new keys of all used pairs of a class and a key.
ghost use Rattle.std.specs.Prelude.{◌≡◌, ℕ, ◌++◌, ◌<◌, [], ◌∷◌, length, map, slice_get, if◌then◌else◌, IfOk, IfSome, OnOk};
ghost use Rattle.jfr_chunk.specs.Parts.{events_of};
ghost use Rattle.jfr_chunk.specs.Reach.{kept_by, marked, reached_marks};
ghost use Rattle.jfr_renumber.specs.Numbers.{number_of, number_or_zero};
ghost use Rattle.jfr_renumber.specs.Renumber.{new_key_of, pair_of};

use crate::finding::find;
use crate::missing::{missing_keys, sort_and_dedup};
use crate::numbering::number_all;
use crate::rewriting::NewKeys;
use crate::values::with_values;
use jfr_base::NoMemory;
use jfr_chunk::{Chunk, Kept};
use jfr_pool::EntryAt;
use jfr_reach::Marks;
use std::alloc::Global;
use std::marker::Model;

/// The used pairs of a class and a key, in order, and the new key of each.
#[derive(Drop)]
pub(crate) struct NumberedKeys {
    pairs: Vec<(u64, u64)>,
    numbers: Vec<u64>,
}

impl Model for NumberedKeys {
    ghost use Rattle.std.specs.Prelude.{◌≡◌, ℕ, length};
    ghost use Rattle.jfr_renumber.specs.Missing.{IsRising};
    ghost use Rattle.jfr_renumber.specs.Numbers.{NumberedPairs, number_or_zero};

    ghost Value = { NumberedPairs };

    ghost view = { λ k. record { pairs = k.pairs.items; numbers = k.numbers.items } };

    ghost invariant = { λ k. IsRising k.pairs.items × (length k.numbers.items ≡ length k.pairs.items) × ((class : ℕ) → number_or_zero (record { pairs = k.pairs.items; numbers = k.numbers.items }) (class, 0) ≡ 0) };
}

impl NumberedKeys {
    /// Gives new keys to all that the kept events, and the entries that they reach, refer to.
    pub(crate) fn make(
        alloc: Global,
        chunk: &Chunk<'_>,
        kept: &Kept,
        marks: &Marks,
    ) -> Result<NumberedKeys, NoMemory>
        requires kept { length kept.now ≡ length (events_of chunk.now) }
        requires marks { marks.now ≡ reached_marks chunk.now (kept_by chunk.now kept.now) }
        requires size { length marks.now ≡ length chunk.now.entries }
        ensures { IfOk result (λ k. (t : ℕ × ℕ) → number_of k t ≡ new_key_of chunk.now (kept_by chunk.now kept.now) t) }
    {
        chunk.parts_are_valid();
        let mut pairs = missing_keys(alloc, chunk, kept, marks)?;
        push_reached(&mut pairs, chunk, marks)?;
        sort_and_dedup(&mut pairs);
        let keys = with_values(alloc, chunk, &pairs)?;
        let numbers = number_all(alloc, &keys)?;
        Ok(NumberedKeys { pairs, numbers })
    }

    /// The new key of a class and a key; `None` exactly if they aren't used. Allocates nothing.
    pub(crate) fn get(&self, class: u64, key: u64) -> Option<u64>
        ensures { result ≡ number_of self.now (class, key) }
    {
        let at = find(&self.pairs, class, key)?;
        Some(self.numbers[at])
    }
}

impl NewKeys for NumberedKeys {
    ghost use Rattle.jfr_renumber.specs.Numbers.{number_or_zero};

    ghost keys = { number_or_zero };

    /// The new key of a class and a key, or 0 if they aren't used.
    #[inline(never)]
    fn new_key(&self, class: u64, key: u64) -> u64 {
        self.get(class, key).unwrap_or(0)
    }

    /// The proof gets the invariant of `self` by reading a field.
    fn zero_is_kept(&self) {
        let _pairs = &self.pairs;
    }
}

/// Adds the classes and keys of the entries that are reached.
fn push_reached(
    pairs: &mut Vec<(u64, u64)>,
    chunk: &Chunk<'_>,
    marks: &Marks,
) -> Result<(), NoMemory>
    requires { length marks.now ≡ length chunk.now.entries }
    ensures ok { OnOk result (pairs.new.items ≡ pairs.old.items ++ map pair_of (marked marks.now chunk.now.entries)) }
{
    let entries = chunk.pools().as_slice();
    for at in 0..entries.len() {
        push_if(pairs, pair_at(entries, at), marks.is_reached(at))?;
    }
    Ok(())
}

/// The class and the key of the entry with this number.
fn pair_at(entries: &[EntryAt], at: usize) -> (u64, u64)
    requires { at < length entries.now }
    ensures { IfSome (slice_get entries.now at) (λ e. result ≡ pair_of e) }
{
    (entries[at].class, entries[at].key)
}

/// Adds a class and a key if `keep` is true.
fn push_if(pairs: &mut Vec<(u64, u64)>, pair: (u64, u64), keep: bool) -> Result<(), NoMemory>
    ensures ok { OnOk result (pairs.new.items ≡ pairs.old.items ++ (if keep then pair ∷ [] else [])) }
{
    if keep {
        pairs.push(pair)?;
    }
    Ok(())
}
