//! The metadata record of the output.
ghost use Rattle.std.specs.Prelude.{◌≡◌, ◌<◌, ◌&&◌, ◌||◌, ◌==◌, ℕ, length, option_map, slice_get, IfOk, IfSome, OnOk};
ghost use Rattle.jfr_meta.specs.Stays.{is_in};
ghost use Rattle.jfr_layout.specs.declared.class.ClassInfo.{ClassInfo};
ghost use Rattle.jfr_filter.specs.Filters.{describes};
ghost use Rattle.jfr_chunk.specs.Metas.{is_described, is_used, new_metadata, stays_in};
ghost use Rattle.jfr_chunk.specs.Parts.{events_of};
ghost use Rattle.jfr_chunk.specs.Reach.{kept_by};
ghost use Rattle.jfr_output.specs.Metadata.{IsMetadataRecord};

use jfr_base::NoMemory;
use jfr_chunk::{Chunk, Kept, UsedClasses};
use jfr_filter::{Filter, Side};
use jfr_layout::{ClassInfo, Classes};
use jfr_meta::{Ids, slim, staying};
use std::alloc::Global;

/// The metadata record of the classes that remain. An event class remains only if it has a kept event, its name
/// matches a pattern of `Side::Describe`, or a class that remains names it. `None` if the output keeps the record of
/// the chunk, since the new one would be longer.
pub fn slim_metadata(
    alloc: Global,
    chunk: &Chunk,
    kept: &Kept,
    filter: &Filter,
) -> Result<Option<Vec<u8>>, NoMemory>
    requires { length kept.now ≡ length (events_of chunk.now) }
    ensures exact { IfOk result (λ found. option_map (λ v. v.items) found ≡ new_metadata (describes filter.now) chunk.now (kept_by chunk.now kept.now)) }
    ensures metadata { IfOk result (λ found. IfSome found (λ v. IsMetadataRecord v.items)) }
{
    chunk.parts_are_valid();
    let remaining = remaining_class_ids(alloc, chunk, kept, filter)?;
    slim(
        alloc,
        chunk.metadata(),
        &remaining,
        chunk.metadata_frame().size,
    )
}

/// The ids of the classes that remain if the metadata record is rebuilt.
fn remaining_class_ids(
    alloc: Global,
    chunk: &Chunk,
    kept: &Kept,
    filter: &Filter,
) -> Result<Ids, NoMemory>
    requires { length kept.now ≡ length (events_of chunk.now) }
    ensures exact { IfOk result (λ remaining. (id : ℕ) → is_in remaining id ≡ stays_in (describes filter.now) chunk.now (kept_by chunk.now kept.now) id) }
{
    if !filter.has(Side::Describe) && kept.are_all() {
        return staying(alloc, chunk.metadata(), chunk.event_classes());
    }
    let used = used_classes(alloc, chunk, kept, filter)?;
    staying(alloc, chunk.metadata(), used.ids())
}

/// The classes of the kept events, and those that the filter describes without events.
fn used_classes(
    alloc: Global,
    chunk: &Chunk,
    kept: &Kept,
    filter: &Filter,
) -> Result<UsedClasses, NoMemory>
    requires { length kept.now ≡ length (events_of chunk.now) }
    ensures { IfOk result (λ used. (id : ℕ) → is_in used.ids id ≡ is_used (describes filter.now) chunk.now (kept_by chunk.now kept.now) id) }
{
    let mut used = UsedClasses::new(alloc);
    for number in 0..chunk.event_count() {
        if !kept.is_kept(number) {
            continue;
        }
        add_class(&mut used, chunk, number)?;
    }
    add_described(&mut used, chunk.classes(), filter)?;
    Ok(used)
}

/// Adds the classes that the filter describes, whether or not events of them are kept.
fn add_described(used: &mut UsedClasses, classes: &Classes, filter: &Filter) -> Result<(), NoMemory>
    ensures { OnOk result ((id : ℕ) → is_in used.new.ids id ≡ (is_in used.old.ids id || is_described (describes filter.now) classes.now id)) }
{
    for class in classes.as_slice() {
        add_if_described(used, class, filter)?;
    }
    Ok(())
}

/// Adds the class if the filter describes it.
fn add_if_described(
    used: &mut UsedClasses,
    class: &ClassInfo,
    filter: &Filter,
) -> Result<(), NoMemory>
    ensures { OnOk result ((id : ℕ) → is_in used.new.ids id ≡ (is_in used.old.ids id || ((class.now.id == id) && describes filter.now class.now.name))) }
{
    if !filter.matches(Side::Describe, class.name.as_str()) {
        return Ok(());
    }
    used.add(class.id)
}

/// Adds the class of event `number`.
fn add_class(used: &mut UsedClasses, chunk: &Chunk, number: usize) -> Result<(), NoMemory>
    ensures { OnOk result ((id : ℕ) → option_map (λ e. is_in used.old.ids id || (e.record_of.type_id == id)) (slice_get (events_of chunk.now) number) ≡ option_map (λ e. is_in used.new.ids id) (slice_get (events_of chunk.now) number)) }
{
    match chunk.event_class(number) {
        Some(id) => used.add(id),
        None => Ok(()),
    }
}
