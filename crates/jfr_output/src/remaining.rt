//! The entries that remain in the output: those that a kept event reaches.
ghost use Rattle.std.specs.Prelude.{◌≡◌, ◌<◌, ◌++◌, ◌==◌, [], ◌∷◌, filter, length, slice_get, Some, IfOk, IsTrue, OnOk, if◌then◌else◌};
ghost use Rattle.jfr_chunk.specs.Reach.{marked};
ghost use Rattle.jfr_output.specs.Remaining.{NotFalling, entries_in};

use jfr_base::NoMemory;
use jfr_pool::{EntryAt, Pools};
use jfr_reach::Marks;
use std::alloc::Global;

/// The entries that remain, in order. If all do, the chunk's own list is borrowed.
#[derive(Drop)]
pub enum RemainingEntries<'p> {
    /// All entries of the chunk, borrowed.
    All(&'p [EntryAt]),
    /// Copies of the entries that remain.
    Listed(Vec<EntryAt>),
}

impl RemainingEntries<'_> {
    /// The entries as a slice.
    pub fn as_slice(&self) -> &[EntryAt]
        ensures { result.now ≡ entries_in self.now }
    {
        match self {
            RemainingEntries::All(entries) => entries,
            RemainingEntries::Listed(entries) => entries.as_slice(),
        }
    }
}

/// Lists the entries that remain.
pub fn remaining_entries<'p>(
    alloc: Global,
    pools: &'p Pools,
    marks: &Marks,
) -> Result<RemainingEntries<'p>, NoMemory>
    requires { length marks.now ≡ length pools.now }
    ensures { IfOk result (λ remaining. entries_in remaining ≡ marked marks.now pools.now) }
{
    if are_all_reached(pools, marks) {
        return Ok(RemainingEntries::All(pools.as_slice()));
    }
    Ok(RemainingEntries::Listed(reached(alloc, pools, marks)?))
}

/// Whether every entry is reached.
fn are_all_reached(pools: &Pools, marks: &Marks) -> bool
    requires { length marks.now ≡ length pools.now }
    ensures { IsTrue result → marked marks.now pools.now ≡ pools.now }
{
    for at in 0..pools.len() {
        if !marks.is_reached(at) {
            return false;
        }
    }
    true
}

/// A list of the entries that are reached.
fn reached(alloc: Global, pools: &Pools, marks: &Marks) -> Result<Vec<EntryAt>, NoMemory>
    requires { length marks.now ≡ length pools.now }
    ensures { IfOk result (λ remaining. remaining.items ≡ marked marks.now pools.now) }
{
    let mut remaining = Vec::new(alloc);
    for (at, entry) in pools.as_slice().iter().enumerate() {
        push_if(&mut remaining, *entry, marks.is_reached(at))?;
    }
    Ok(remaining)
}

/// Adds the entry if `keep` is true.
fn push_if(remaining: &mut Vec<EntryAt>, entry: EntryAt, keep: bool) -> Result<(), NoMemory>
    ensures ok { OnOk result (remaining.new.items ≡ remaining.old.items ++ (if keep then entry ∷ [] else [])) }
{
    if keep {
        remaining.push(entry)?;
    }
    Ok(())
}

/// The entries of checkpoint `number`. The given entries are in the order of their checkpoints.
pub fn entries_of(remaining: &[EntryAt], number: usize) -> &[EntryAt]
    requires { NotFalling 0 remaining.now }
    ensures { result.now ≡ filter (λ e. e.checkpoint == number) remaining.now }
{
    let (_, rest) = remaining.split_at(remaining.partition_point(|entry| entry.checkpoint
        < number));
    let (entries, _) = rest.split_at(rest.partition_point(|entry| entry.checkpoint <= number));
    entries
}
