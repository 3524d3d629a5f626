//! The classes and keys that are referred to but have no entry in force.
ghost use Rattle.std.specs.Prelude.{◌≡◌, ◌<◌, ℕ, [], ◌∷◌, length, map, filter, false, option_to_list, Contains, IfOk, IsSome, IsTrue};
ghost use Rattle.jfr_layout.specs.Classes.{Sound, find_class};
ghost use Rattle.jfr_value.specs.Nodes.{EndsAt, IsValue, node_at, node_of, targets};
ghost use Rattle.jfr_value.specs.Visits.{TakesAll};
ghost use Rattle.jfr_pool.specs.Entries.{entry_node};
ghost use Rattle.jfr_chunk.specs.Parts.{events_of};
ghost use Rattle.jfr_chunk.specs.Reach.{all_targets, kept_by, nodes_of, reached_marks};
ghost use Rattle.jfr_chunk.specs.Missing.{is_missing, pair_of};
ghost use Rattle.jfr_renumber.specs.Missing.{HoldsMissing, IsRising, Lists, are_kept, flagged};
ghost use Rattle.jfr_renumber.specs.Renumber.{used_keys};

use jfr_base::NoMemory;
use jfr_chunk::{Chunk, Kept, MissingRef};
use jfr_layout::{Classes, Form, Shape};
use jfr_pool::Pools;
use jfr_reach::Marks;
use jfr_value::{Node, Visit, Walk, end_visiting, layout_of};
use std::alloc::Global;

/// The classes and keys that are referred to but have no entry in force. `failed` is set once memory has run
/// out.
#[derive(Drop)]
pub(crate) struct Missing {
    keys: Vec<(u64, u64)>,
    failed: bool,
}

impl Visit<Pools> for Missing {
    ghost use Rattle.std.specs.Prelude.{[], ◌∷◌, ⊤};
    ghost use Rattle.jfr_renumber.specs.Missing.{Lists};

    ghost ready = { λ list pools. ⊤ };

    ghost takes = { λ pools target old new. Lists pools (target ∷ []) old new };

    /// Adds a class and a key, unless they have an entry in force. Most calls without an entry repeat the pair
    /// that was added last, a class and the key 0; it isn't added again.
    #[inline(always)]
    fn visit(&mut self, pools: &Pools, class: u64, key: u64) {
        if pools.entry(class, key).is_some() {
            return;
        }
        if is_last(&self.keys, class, key) {
            return;
        }
        if self.keys.push((class, key)).is_err() {
            self.failed = true;
        }
    }
}

/// Whether a class and a key are the last pair of the list.
fn is_last(keys: &[(u64, u64)], class: u64, key: u64) -> bool
    ensures { IsTrue result → Contains keys.now (class, key) }
{
    match keys.last() {
        Some(last) => last.0 == class && last.1 == key,
        None => false,
    }
}

/// The classes and keys without an entry in force to which the kept events, and the entries that they reach,
/// refer. A pair may be there more than once.
#[inline(never)]
pub(crate) fn missing_keys(
    alloc: Global,
    chunk: &Chunk<'_>,
    kept: &Kept,
    marks: &Marks,
) -> Result<Vec<(u64, u64)>, NoMemory>
    requires kept { length kept.now ≡ length (events_of chunk.now) }
    requires marks { marks.now ≡ reached_marks chunk.now (kept_by chunk.now kept.now) }
    requires size { length marks.now ≡ length chunk.now.entries }
    ensures all { IfOk result (λ keys. (t : ℕ × ℕ) → Contains (filter (is_missing chunk.now.entries) (used_keys chunk.now (kept_by chunk.now kept.now))) t → Contains keys.items t) }
    ensures only { IfOk result (λ keys. (t : ℕ × ℕ) → Contains keys.items t → Contains (filter (is_missing chunk.now.entries) (used_keys chunk.now (kept_by chunk.now kept.now))) t) }
{
    let mut list = Missing {
        keys: keys_of_events(alloc, chunk, kept)?,
        failed: false,
    };
    for entry in 0..chunk.pools().len() {
        list_entry(&mut list, chunk, marks, entry);
    }
    if list.failed {
        return Err(NoMemory);
    }
    Ok(list.keys)
}

/// The classes and keys without an entry in force to which the kept events refer. Those that the chunk has noted
/// are used if the event of each is kept, which saves a visit of all events. Otherwise a pair may also be one of
/// another event that is kept, so the kept events are visited.
fn keys_of_events(
    alloc: Global,
    chunk: &Chunk<'_>,
    kept: &Kept,
) -> Result<Vec<(u64, u64)>, NoMemory>
    requires { length kept.now ≡ length (events_of chunk.now) }
    ensures { IfOk result (λ keys. HoldsMissing chunk.now.entries (all_targets chunk.now (nodes_of (kept_by chunk.now kept.now))) keys.items) }
{
    if let Some(refs) = chunk.missing_refs() {
        if are_kept(kept, refs) {
            return keys_of(alloc, refs);
        }
    }
    visited_keys(alloc, chunk, kept)
}

/// Whether the event of each of these references is kept.
fn are_kept(kept: &Kept, refs: &[MissingRef]) -> bool
    ensures { result ≡ are_kept kept.now refs.now }
{
    refs.iter().all(|noted| kept.is_kept(noted.event))
}

/// The classes and keys of these references.
fn keys_of(alloc: Global, refs: &[MissingRef]) -> Result<Vec<(u64, u64)>, NoMemory>
    ensures { IfOk result (λ keys. keys.items ≡ map pair_of refs.now) }
{
    let keys = refs
        .iter()
        .map(|noted| (noted.class, noted.key))
        .collect(alloc)?;
    Ok(keys)
}

/// As `keys_of_events`, but always visits the kept events.
fn visited_keys(alloc: Global, chunk: &Chunk<'_>, kept: &Kept) -> Result<Vec<(u64, u64)>, NoMemory>
    requires { length kept.now ≡ length (events_of chunk.now) }
    ensures { IfOk result (λ keys. HoldsMissing chunk.now.entries (all_targets chunk.now (nodes_of (kept_by chunk.now kept.now))) keys.items) }
{
    let mut list = Missing {
        keys: Vec::new(alloc),
        failed: false,
    };
    for number in 0..kept.len() {
        list_event(&mut list, chunk, kept, number);
    }
    if list.failed {
        return Err(NoMemory);
    }
    Ok(list.keys)
}

/// If the event with this number is kept, adds the classes and keys to which it refers and that have no entry
/// in force.
#[inline(always)]
fn list_event(list: &mut Missing, chunk: &Chunk<'_>, kept: &Kept, number: usize)
    ensures { Lists chunk.now.entries (all_targets chunk.now (nodes_of (option_to_list (flagged kept.now (events_of chunk.now) number)))) list.old list.new }
{
    match kept.get(number) {
        Some(true) => {}
        _ => return,
    }
    chunk.parts_are_valid();
    if let Some(event) = chunk.event(number) {
        list_value(list, chunk.classes(), chunk.pools(), event.node);
    }
}

/// If the entry with this number is reached, adds the classes and keys to which it refers and that have no
/// entry in force.
#[inline(never)]
fn list_entry(list: &mut Missing, chunk: &Chunk<'_>, marks: &Marks, number: usize)
    requires { number < length marks.now }
    ensures { Lists chunk.now.entries (all_targets chunk.now (map entry_node (option_to_list (flagged marks.now chunk.now.entries number)))) list.old list.new }
{
    if !marks.is_reached(number) {
        return;
    }
    chunk.parts_are_valid();
    if let Some(node) = chunk.entry_node(number) {
        list_value(list, chunk.classes(), chunk.pools(), node);
    }
}

/// Adds the classes and keys to which an inline value refers and that have no entry in force.
#[inline(always)]
fn list_value(list: &mut Missing, classes: &Classes, pools: &Pools, node: Node<'_>)
    requires sound { Sound classes.now }
    requires value { IsValue classes.now node }
    requires array { node.shape.array ≡ false }
    requires constant { node.shape.constant ≡ false }
    ensures { TakesAll (λ t old new. Lists pools.now (t ∷ []) old new) (targets classes.now node.entry.bytes.now (node_of node.entry)) list.old list.new }
{
    let layout = layout_of(classes, node.shape);
    let walk = Walk {
        classes,
        bytes: node.bytes,
        end: node.end,
        with: pools,
    };
    match layout.form {
        Form::Fields => {
            let _end = end_visiting(walk, &layout, node.at, list);
        }
        _ => list_single(list, walk, node.shape, node.at),
    }
}

/// Adds the classes and keys to which a value of this shape refers and that have no entry in force. Composite
/// values, the usual case, are handled in the caller. Other values are handled here, out of line, so that the
/// compiler keeps the caller's variables in registers.
#[inline(never)]
fn list_single(list: &mut Missing, walk: Walk<'_, '_, Pools>, shape: Shape, at: usize)
    requires sound { Sound walk.classes.now }
    requires known { IsSome (find_class walk.classes.now shape.class) }
    requires there { EndsAt walk.classes.now walk.bytes.now shape at walk.end }
    ensures { TakesAll (λ t old new. Lists walk.entry.with.now (t ∷ []) old new) (targets walk.entry.classes.now walk.entry.bytes.now (node_at shape at walk.entry.end)) list.old list.new }
{
    let layout = layout_of(walk.classes, shape);
    let _end = end_visiting(walk, &layout, at, list);
}

/// Sorts the pairs, and removes repeated ones.
pub(crate) fn sort_and_dedup(pairs: &mut Vec<(u64, u64)>)
    ensures rising { IsRising pairs.new.items }
    ensures kept { (t : ℕ × ℕ) → Contains pairs.old.items t → Contains pairs.new.items t }
    ensures none_added { (t : ℕ × ℕ) → Contains pairs.new.items t → Contains pairs.old.items t }
{
    pairs.sort_unstable();
    pairs.dedup();
}
