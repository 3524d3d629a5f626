//! Counting the events of a chunk by the names of their classes.
ghost use Rattle.std.specs.Prelude.{◌*◌, ◌≡◌, ℕ, ◌+◌, ◌^◌, ◌<◌, ◌≤◌, List, ◌∷◌, [], ◌++◌, length, IfOk, OnOk};
ghost use Rattle.jfr_frame.specs.declared.framed.Framed.{Framed as Record};
ghost use Rattle.jfr_chunk.specs.Parts.{AreParts};
ghost use Rattle.jfr_show.specs.Counting.{AddsEvents, AreBelow, AreClassTallies, AreLeaders, AreSmall, AreTallies};
ghost use Rattle.jfr_show.specs.Held.{tallies_in};
ghost use Rattle.jfr_show.specs.Totals.{count_in_force, occurrences};

use crate::leaders::{class_leaders, leader_of};
use crate::tally::{Tally, TallyMap, add_tally};
use jfr_base::NoMemory;
use jfr_chunk::Chunk;
use jfr_frame::Framed;
use jfr_layout::Classes;
use jfr_pool::Pools;
use std::alloc::Global;

const NO_EVENTS: Tally = Tally {
    events: 0,
    bytes: 0,
};

/// Adds the events of a chunk to the tallies of their classes' names. They are first counted by class, so a
/// name is looked up only once for each string that names classes. If memory runs out, some of the events
/// have been added.
pub(crate) fn add_events(
    alloc: Global,
    chunk: &Chunk<'_>,
    tallies: &mut TallyMap,
) -> Result<(), NoMemory>
    requires parts { AreParts chunk.now }
    requires small { length chunk.now.bytes < 2 ^ 30 }
    requires below { AreBelow (2 ^ 30 * 17000000000) (tallies_in tallies.old) }
    ensures ok { OnOk result (AddsEvents (tallies_in tallies.old) (occurrences chunk.now) (tallies_in tallies.new)) }
    ensures below { (most : ℕ) → AreBelow most (tallies_in tallies.old) → AreBelow (most + length chunk.now.bytes) (tallies_in tallies.new) }
{
    let counted = class_tallies(alloc, chunk)?;
    add_classes(alloc, chunk, &counted, tallies)
}

/// A tally for each class, in order, of the events of the classes whose leader it is.
fn class_tallies(alloc: Global, chunk: &Chunk<'_>) -> Result<Vec<Tally>, NoMemory>
    requires parts { AreParts chunk.now }
    requires small { length chunk.now.bytes < 2 ^ 30 }
    ensures { IfOk result (λ counted. AreClassTallies chunk.now.classes chunk.now.records counted.items) }
{
    let leaders = class_leaders(alloc, chunk)?;
    let classes = chunk.classes();
    let frames = chunk.frames();
    let mut counted = vec![in alloc; NO_EVENTS; classes.len()]?;
    for number in 0..frames.len() {
        count_record(classes, &leaders, frames.at(number), &mut counted);
    }
    Ok(counted)
}

/// Counts a record at the leader of its class, if it is an event.
#[inline(always)]
fn count_record(classes: &Classes, leaders: &[usize], frame: Framed, counted: &mut [Tally])
    requires led { AreLeaders classes.now leaders.now }
    requires each { length counted.old ≡ length classes.now }
    requires small { AreSmall counted.old }
    requires size { frame.size < 2 ^ 32 }
    ensures { (rs : List Record) → AreTallies classes.now leaders.now rs counted.old → AreTallies classes.now leaders.now (rs ++ frame ∷ []) counted.new }
{
    if let Some(leader) = leader_of(classes, leaders, frame.type_id) {
        let tally = counted[leader];
        counted[leader] = Tally {
            events: tally.events + 1,
            bytes: tally.bytes + frame.size as u64,
        };
    }
}

/// Adds the tallies of the classes of a chunk to those of their names. A class that isn't its own leader has
/// an empty tally.
fn add_classes(
    alloc: Global,
    chunk: &Chunk<'_>,
    counted: &[Tally],
    tallies: &mut TallyMap,
) -> Result<(), NoMemory>
    requires parts { AreParts chunk.now }
    requires small { length chunk.now.bytes < 2 ^ 30 }
    requires counted { AreClassTallies chunk.now.classes chunk.now.records counted.now }
    requires below { AreBelow (2 ^ 30 * 17000000000) (tallies_in tallies.old) }
    ensures ok { OnOk result (AddsEvents (tallies_in tallies.old) (occurrences chunk.now) (tallies_in tallies.new)) }
    ensures below { (most : ℕ) → AreBelow most (tallies_in tallies.old) → AreBelow (most + length chunk.now.bytes) (tallies_in tallies.new) }
{
    let classes = chunk.classes();
    for (index, class) in classes.as_slice().iter().enumerate() {
        add_tally(alloc, tallies, class.name.as_str(), counted[index])?;
    }
    Ok(())
}

/// The number of entries in force.
pub(crate) fn count_in_force(pools: &Pools) -> usize
    ensures exact { result ≡ count_in_force pools.now }
    ensures most { result ≤ length pools.now }
{
    let mut count = 0;
    for number in 0..pools.len() {
        if pools.in_force(number) {
            count += 1;
        }
    }
    count
}
