//! Confirming the claims of a receipt's lines: one pass over the events and the entries of the chunk.
ghost use Rattle.std.specs.Prelude.{◌≡◌, ◌<◌, All, ℕ, List, length, Some, None, slice_get, IfOk};
ghost use Rattle.std.specs.List.{list_all};
ghost use Rattle.jfr_chunk.specs.Parts.{EventAt, events_of};
ghost use Rattle.jfr_chunk.specs.Reach.{next_entries, node_entries};
ghost use Rattle.jfr_verify.specs.declared.line.Parent.TheVariants as kinds;
ghost use Rattle.jfr_verify.specs.Claims.{AreConfirmed, AreClaimed, with_claimed};
ghost use Rattle.jfr_verify.specs.Confirmed.{Confirms, ConfirmsEntries, ConfirmsEvents, ConfirmsOf};
ghost use Rattle.jfr_verify.specs.Decided.{Decided};

use crate::Parent;
use crate::claims::Claims;
use jfr_base::NoMemory;
use jfr_chunk::Chunk;
use jfr_pool::Pools;
use jfr_value::{Visit, visit_targets};
use std::alloc::Global;

impl Visit<Pools> for Claims {
    ghost use Rattle.std.specs.Prelude.{◌≡◌, [], ◌∷◌, length};
    ghost use Rattle.jfr_pool.specs.Entries.{number_in_force};
    ghost use Rattle.jfr_worklist.specs.Marks.{those};
    ghost use Rattle.jfr_verify.specs.Confirmed.{Confirms};

    ghost ready = { λ claims pools. length claims.confirmed.items ≡ length pools };

    ghost takes = { λ pools target old new. Confirms (those (number_in_force pools) (target ∷ [])) old new };

    /// Confirms the claim of the entry in force for a class and key, if there is one and the current parent
    /// is its claimed parent.
    #[inline]
    fn visit(&mut self, pools: &Pools, class: u64, key: u64) {
        if let Some(number) = pools.entry(class, key) {
            self.put(number);
        }
    }
}

/// Whether the claimed parent of each entry refers to it. Each entry of the chunk, and each event that is a
/// claimed parent, is visited once, however many entries name it as their parent.
pub(crate) fn are_confirmed(
    alloc: Global,
    chunk: &Chunk<'_>,
    parents: Vec<Parent>,
) -> Result<bool, NoMemory>
    requires size { length parents.items ≡ length chunk.now.entries }
    ensures { IfOk result (Decided (AreConfirmed chunk.now parents.items)) }
{
    let claimed = claimed_events(alloc, &parents, chunk.event_count())?;
    let mut claims = Claims::new(alloc, parents)?;
    confirm_events(&mut claims, chunk, &claimed);
    confirm_entries(&mut claims, chunk);
    Ok(all_set(&claims.confirmed))
}

/// For each event of a chunk with this number of them, whether it is a claimed parent. Few events are, so the
/// references of all others needn't be visited. No clause says that the other flags aren't set, since that
/// only saves time.
fn claimed_events(alloc: Global, parents: &[Parent], count: usize) -> Result<Vec<bool>, NoMemory>
    ensures claimed { IfOk result (λ claimed. AreClaimed parents.now claimed.items) }
    ensures size { IfOk result (λ claimed. length claimed.items ≡ count) }
{
    let mut claimed = Vec::new(alloc);
    claimed.resize(count, false)?;
    for parent in parents {
        set_claimed(&mut claimed, *parent);
    }
    Ok(claimed)
}

/// Sets the flag of a parent, if it is an event of the chunk.
fn set_claimed(claimed: &mut Vec<bool>, parent: Parent)
    ensures { claimed.new.items ≡ with_claimed claimed.old.items parent }
{
    match parent {
        Parent::OfEvent(number) => {
            if number < claimed.len() {
                claimed[number] = true;
            }
        }
        Parent::OfEntry(_) => {}
    }
}

/// Confirms the claims that name an event, if the event refers to the entry.
fn confirm_events(claims: &mut Claims, chunk: &Chunk<'_>, claimed: &[bool])
    requires size { length claims.old.confirmed.items ≡ length chunk.now.entries }
    requires claimed { AreClaimed claims.old.parents.items claimed.now }
    requires count { length claimed.now ≡ length (events_of chunk.now) }
    ensures { ConfirmsEvents chunk.now (length (events_of chunk.now)) claims.old claims.new }
{
    for number in 0..chunk.event_count() {
        confirm_event(claims, chunk, claimed, number);
    }
}

/// Confirms the claims that name event `number`, if it refers to the entry.
fn confirm_event(claims: &mut Claims, chunk: &Chunk<'_>, claimed: &[bool], number: usize)
    requires size { length claims.old.confirmed.items ≡ length chunk.now.entries }
    requires claimed { AreClaimed claims.old.parents.items claimed.now }
    requires within { number < length claimed.now }
    ensures { (e : EventAt) → slice_get (events_of chunk.now) number ≡ Some e → ConfirmsOf (kinds.OfEvent number) (node_entries chunk.now.entries chunk.now.classes chunk.now.bytes e.node) claims.old claims.new }
{
    if !claimed[number] {
        return;
    }
    if let Some(entries) = chunk.event_entries(number) {
        claims.parent = Parent::OfEvent(number);
        confirm_each(claims, entries);
    }
}

/// Confirms the claims of those entries with these numbers that name the current parent.
fn confirm_each(claims: &mut Claims, entries: &[u32])
    requires { All (λ number. number < length claims.old.confirmed.items) entries.now }
    ensures { Confirms entries.now claims.old claims.new }
{
    for number in entries {
        claims.put(*number as usize);
    }
}

/// Confirms the claims that name an entry as parent, if it refers to the claiming entry.
fn confirm_entries(claims: &mut Claims, chunk: &Chunk<'_>)
    requires size { length claims.old.confirmed.items ≡ length chunk.now.entries }
    ensures { ConfirmsEntries chunk.now (length chunk.now.entries) claims.old claims.new }
{
    for number in 0..chunk.pools().len() {
        confirm_entry(claims, chunk, number);
    }
}

/// Confirms the claims that name entry `number` as parent, if it refers to the claiming entry.
fn confirm_entry(claims: &mut Claims, chunk: &Chunk<'_>, number: usize)
    requires size { length claims.old.confirmed.items ≡ length chunk.now.entries }
    ensures { ConfirmsOf (kinds.OfEntry number) (next_entries chunk.now number) claims.old claims.new }
{
    claims.parent = Parent::OfEntry(number);
    if let Some(node) = chunk.entry_node(number) {
        visit_targets(chunk.classes(), node, claims, chunk.pools());
    }
}

/// Whether every flag is set.
fn all_set(flags: &[bool]) -> bool
    ensures { result ≡ list_all (λ flag. flag) flags.now }
{
    flags.iter().all(|flag| *flag)
}
