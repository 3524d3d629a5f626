//! The entries of the output: of those that are reached, the first of each group.
ghost use Rattle.std.specs.Prelude.{◌≡◌, ℕ, Bool, List, false, length, true, IfOk, OnOk};
ghost use Rattle.jfr_chunk.specs.Reach.{kept_by, marked, reached_marks};
ghost use Rattle.jfr_renumber.specs.Firsts.{AddsFirst, firsts_by};
ghost use Rattle.jfr_renumber.specs.Numbers.{number_of};
ghost use Rattle.jfr_renumber.specs.Renumber.{firsts, new_key_of};

use crate::entry_keys::EntryKeys;
use crate::rewriting::NewKeys;
use jfr_base::NoMemory;
use jfr_chunk::Chunk;
use jfr_pool::{EntryAt, Pools};
use jfr_reach::Marks;
use std::alloc::Global;
use std::collections::BTreeSet;

/// The first entries so far, and their classes and new keys.
#[derive(Drop)]
pub(crate) struct FirstEntries {
    entries: Vec<EntryAt>,
    seen: BTreeSet<(u64, u64)>,
}

/// Of the marked entries, the first for each class and new key. If the marked ones are those that kept events
/// reach, and the keys are the new keys of all that is used, these are the entries of the output.
pub(crate) fn first_entries(
    alloc: Global,
    chunk: &Chunk<'_>,
    marks: &Marks,
    keys: &EntryKeys<'_>,
) -> Result<Vec<EntryAt>, NoMemory>
    requires { length marks.now ≡ length chunk.now.entries }
    ensures { IfOk result (λ es. (flags : List Bool) → marks.now ≡ reached_marks chunk.now (kept_by chunk.now flags) → ((t : ℕ × ℕ) → number_of keys.now.keys t ≡ new_key_of chunk.now (kept_by chunk.now flags) t) → es.items ≡ firsts chunk.now (kept_by chunk.now flags)) }
{
    chunk.parts_are_valid();
    collected(alloc, chunk.pools(), marks, keys)
}

/// Of the marked entries, the first for each class and new key.
fn collected<N: NewKeys>(
    alloc: Global,
    pools: &Pools,
    marks: &Marks,
    new: &N,
) -> Result<Vec<EntryAt>, NoMemory>
    requires { length marks.now ≡ length pools.now }
    ensures { IfOk result (λ firsts. firsts.items ≡ firsts_by (N.keys new.now) (marked marks.now pools.now)) }
{
    let mut firsts = FirstEntries {
        entries: Vec::new(alloc),
        seen: BTreeSet::new(alloc),
    };
    for (at, entry) in pools.as_slice().iter().enumerate() {
        add_if(&mut firsts, entry, new, marks.is_reached(at))?;
    }
    Ok(firsts.entries)
}

/// Adds an entry if `keep` is true and no entry with the same class and new key was added.
fn add_if<N: NewKeys>(
    firsts: &mut FirstEntries,
    entry: &EntryAt,
    new: &N,
    keep: bool,
) -> Result<(), NoMemory>
    ensures added { OnOk result (keep ≡ true → AddsFirst (N.keys new.now) entry.now firsts.old firsts.new) }
    ensures unchanged { OnOk result (keep ≡ false → firsts.new ≡ firsts.old) }
{
    if !keep {
        return Ok(());
    }
    add_entry(firsts, entry, new)
}

/// Adds an entry, unless one with the same class and new key was added.
fn add_entry<N: NewKeys>(
    firsts: &mut FirstEntries,
    entry: &EntryAt,
    new: &N,
) -> Result<(), NoMemory>
    ensures ok { OnOk result (AddsFirst (N.keys new.now) entry.now firsts.old firsts.new) }
{
    let number = new.new_key(entry.class, entry.key);
    if firsts.seen.insert((entry.class, number))? {
        firsts.entries.push(*entry)?;
    }
    Ok(())
}
