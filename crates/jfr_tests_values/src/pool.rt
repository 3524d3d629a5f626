//! Chains and entries of small chunks: a header, and the records.

ghost use Rattle.jfr_frame.specs.Records.{AreRecords};

use crate::classes::Has::{Inline, Reference};
use crate::classes::{ClassLine, add, classes_of};
use jfr_base::{Flaw, ReadFault, Reason, write_var};
use jfr_fixtures::{STRINGS, THREE, TWICE, chunk_of};
use jfr_frame::Frames;
use jfr_layout::{ClassFault, ClassList, Classes};
use jfr_outside::NoMemory;
use jfr_pool::{Chain, EntryAt, Pools};
use std::alloc::{AllocError, Global};
use std::process::Abort;
use std::test::Fail;

const HEADER: usize = 68;

static NODE: [ClassLine; 2] = [
    (6, "java.lang.String", None, &[]),
    (
        7,
        "t.Node",
        None,
        &[("next", Reference(7)), ("text", Inline(6))],
    ),
];

/// The entries of a chunk, whose last checkpoint lies at this place.
fn pools_of(alloc: Global, classes: &Classes, chunk: &[u8], last: u64) -> Result<Pools, ReadFault> {
    if chunk.len() < HEADER {
        return Err(ReadFault::Memory);
    }
    let frames = Frames::read(alloc, chunk)?;
    pools_in_frames(alloc, classes, chunk, &frames, last)
}

/// The entries of a chunk with these records.
fn pools_in_frames(
    alloc: Global,
    classes: &Classes,
    chunk: &[u8],
    frames: &Frames<'_>,
    last: u64,
) -> Result<Pools, ReadFault>
    requires { AreRecords chunk.now frames.now }
{
    if !frames.starts_at(last, 1) {
        return Err(ReadFault::Memory);
    }
    let chain = Chain::read(alloc, chunk, frames, last)?;
    Pools::read(alloc, chunk, classes, &chain)
}

/// The entries of the chunk of these records, whose last checkpoint lies at this place.
fn pools_with(
    alloc: Global,
    classes: &Classes,
    records: &[u8],
    last: u64,
) -> Result<Pools, ReadFault> {
    let chunk = chunk_of(alloc, &[records], last, 68)?;
    pools_of(alloc, classes, &chunk, last)
}

/// Its entries, if the nodes are its classes.
fn pools_in(alloc: Global, records: &[u8], last: u64) -> Result<Pools, Fail> {
    let classes = classes_of(alloc, &NODE)?;
    Ok(pools_with(alloc, &classes, records, last)?)
}

/// The second of the two entries of a key.
const SECOND: EntryAt = EntryAt {
    class: 7,
    key: 1,
    key_at: 104,
    value_at: 105,
    end: 109,
    checkpoint: 1,
    pool: 0,
};

fn see_last(rt: &impl Abort, pools: &Pools) {
    assert!(rt; pools.get(1).copied() == Some(SECOND));
    assert_eq!(rt; (pools.entry(7, 1), pools.entry(7, 2)), (Some(1), None));
    assert!(rt; pools.len() == 2);
    assert!(rt; !pools.in_force(0) && pools.in_force(1));
}

#[test]
fn last_entry_of_a_key_is_in_force(rt: HostRuntime) -> Result<(), Fail> {
    let pools = pools_in(rt.alloc(), TWICE, 87)?;
    see_last(&rt, &pools);
    Ok(())
}

/// The class, key, checkpoint and pool of an entry.
type Expected = (u64, u64, usize, usize);

static OF_THREE: [Expected; 2] = [(7, 1, 0, 0), (7, 3, 1, 0)];

static OF_STRINGS: [Expected; 4] = [(7, 1, 0, 0), (6, 1, 0, 1), (6, 2, 0, 1), (6, 3, 0, 1)];

/// The entry with this number, if there is one.
fn entry_at(pools: &Pools, number: usize) -> Option<Expected> {
    let entry = pools.get(number)?;
    Some((entry.class, entry.key, entry.checkpoint, entry.pool))
}

/// Compares an entry, which is in force.
fn see_entry(rt: &impl Abort, pools: &Pools, number: usize, expected: &Expected) {
    assert_eq!(rt; entry_at(pools, number), Some(*expected));
    assert!(rt;
        pools.entry(expected.0, expected.1) == Some(number),
        "{number}"
    );
}

/// Compares each entry, and looks for one of the key 0.
fn see_entries(rt: &impl Abort, pools: &Pools, expected: &[Expected]) {
    assert_eq!(rt; pools.len(), expected.len());
    for (number, row) in expected.iter().enumerate() {
        see_entry(rt, pools, number, row);
    }
    assert_eq!(rt; pools.entry(7, 0), None);
}

/// Compares the entries of a chunk.
fn see_chunk(
    rt: &impl Abort,
    alloc: Global,
    records: &[u8],
    last: u64,
    expected: &[Expected],
) -> Result<(), Fail> {
    let pools = pools_in(alloc, records, last)?;
    see_entries(rt, &pools, expected);
    Ok(())
}

#[test]
fn entries_follow_the_chain(rt: HostRuntime) -> Result<(), Fail> {
    see_chunk(&rt, rt.alloc(), THREE, 109, &OF_THREE)?;
    see_chunk(&rt, rt.alloc(), STRINGS, 73, &OF_STRINGS)
}

/// Records, and the place of their flaw.
type Flawed = (&'static [u8], u64, Reason);

static FLAWED: [Flawed; 5] = [
    (&[7, 1, 0, 0, 1, 0, 0], 72, Reason::ChainDelta),
    (&[4, 1, 0, 0], 72, Reason::Short),
    (&[8, 1, 0, 0, 0, 0, 0, 0], 75, Reason::Trailing),
    (&[9, 1, 0, 0, 0, 0, 1, 10, 0], 75, Reason::PoolType),
    (
        &[14, 1, 0, 0, 0, 0, 1, 7, 2, 1, 0, 3, 1, 0x70],
        82,
        Reason::Short,
    ),
];

/// Compares the flaw of these records.
fn see_flaw(rt: &impl Abort, alloc: Global, classes: &Classes, (records, offset, reason): Flawed) {
    let flaw = ReadFault::Flawed(Flaw { offset, reason });
    assert_eq!(rt; pools_with(alloc, classes, records, 68).err(), Some(flaw));
}

#[test]
fn faults_are_reported(rt: HostRuntime) -> Result<(), Fail> {
    let classes = classes_of(rt.alloc(), &NODE)?;
    for flawed in FLAWED.iter() {
        see_flaw(&rt, rt.alloc(), &classes, *flawed);
    }
    Ok(())
}

/// Adds classes without fields, of these ids.
fn add_empty(list: &mut ClassList, alloc: Global, ids: &[u64]) -> Result<(), NoMemory> {
    for id in ids {
        add(list, alloc, *id, "t.Empty", None, &[])?;
    }
    Ok(())
}

/// Classes without fields, of these ids.
fn empty_classes(alloc: Global, ids: &[u64]) -> Result<Classes, ClassFault> {
    let mut list = ClassList::new(alloc);
    add_empty(&mut list, alloc, ids)?;
    Classes::make(alloc, list)
}

fn push_integer(bytes: &mut Vec<u8>, value: u64) -> Result<(), AllocError> {
    let mut spelled = [0; 9];
    let len = write_var(value, &mut spelled);
    bytes.extend_from_slice(&spelled[..len])
}

/// Adds a pool of one entry for each of these classes and keys, whose values have no bytes.
fn push_pools(body: &mut Vec<u8>, entries: &[(u64, u64)]) -> Result<(), AllocError> {
    push_integer(body, entries.len() as u64)?;
    for (class, key) in entries {
        push_integer(body, *class)?;
        body.push(1)?;
        push_integer(body, *key)?;
    }
    Ok(())
}

/// Adds the size of a record with this body, which counts its own two bytes.
fn push_size(bytes: &mut Vec<u8>, body: &[u8]) -> Result<(), AllocError> {
    let size = body.len().saturating_add(2);
    bytes.push((size % 128) as u8 | 0x80)?;
    bytes.push((size / 128 % 128) as u8)?;
    Ok(())
}

/// Adds a record with this body.
fn push_record(bytes: &mut Vec<u8>, body: &[u8]) -> Result<(), AllocError> {
    push_size(bytes, body)?;
    bytes.extend_from_slice(body)
}

/// A record with this body.
fn record_of(alloc: Global, body: &[u8]) -> Result<Vec<u8>, AllocError> {
    let mut bytes = Vec::new(alloc);
    push_record(&mut bytes, body)?;
    Ok(bytes)
}

/// A checkpoint with these pools.
fn checkpoint_of(alloc: Global, entries: &[(u64, u64)]) -> Result<Vec<u8>, AllocError> {
    let mut body = Vec::from_slice(alloc, [1, 0, 0, 0, 0].as_slice())?;
    push_pools(&mut body, entries)?;
    record_of(alloc, &body)
}

/// The entries of a checkpoint by itself.
fn pools_of_checkpoint(
    alloc: Global,
    ids: &[u64],
    entries: &[(u64, u64)],
) -> Result<Pools, ReadFault> {
    let checkpoint = checkpoint_of(alloc, entries)?;
    pools_of_record(alloc, ids, &checkpoint)
}

/// The entries of this checkpoint.
fn pools_of_record(alloc: Global, ids: &[u64], checkpoint: &[u8]) -> Result<Pools, ReadFault> {
    match empty_classes(alloc, ids) {
        Ok(classes) => pools_with(alloc, &classes, checkpoint, 68),
        Err(_) => Err(ReadFault::Memory),
    }
}

/// A class that is too large for a row, and keys of it that have one home among 24 entries.
const UNROWED: u64 = 5000;

static ONE_HOME: [u64; 11] = [0, 74, 117, 160, 203, 246, 320, 363, 406, 449, 492];

/// A class that is too large for a slot, too.
const LARGE: u64 = 1 << 32;

/// Adds an entry for each of these keys, and for one of the large class.
fn push_keys(entries: &mut Vec<(u64, u64)>) -> Result<(), AllocError> {
    for key in ONE_HOME.iter() {
        entries.push((UNROWED, *key))?;
    }
    entries.push((LARGE, 0))?;
    Ok(())
}

/// Adds all of them twice.
fn push_keys_twice(entries: &mut Vec<(u64, u64)>) -> Result<(), AllocError> {
    push_keys(entries)?;
    push_keys(entries)
}

/// All of them, twice.
fn twelve_twice(alloc: Global) -> Result<Vec<(u64, u64)>, AllocError> {
    let mut entries = Vec::new(alloc);
    push_keys_twice(&mut entries)?;
    Ok(entries)
}

/// The second entry of each key is in force, and there are no others.
fn see_second(rt: &impl Abort, pools: &Pools, entries: &[(u64, u64)]) {
    assert_eq!(rt; pools.len(), 24);
    for (number, (class, key)) in entries.iter().enumerate() {
        assert_eq!(rt; pools.entry(*class, *key), Some(number % 12 + 12));
    }
    assert_eq!(rt; pools.entry(UNROWED + 1, 0), None);
    assert_eq!(rt; pools.entry(LARGE, 1), None);
}

fn see_homes(rt: &impl Abort, alloc: Global, entries: &[(u64, u64)]) -> Result<(), Fail> {
    let pools = pools_of_checkpoint(alloc, &[UNROWED, UNROWED + 1, LARGE], entries)?;
    see_second(rt, &pools, entries);
    Ok(())
}

#[test]
fn keys_of_one_home_are_distinct(rt: HostRuntime) -> Result<(), Fail> {
    let entries = twelve_twice(rt.alloc())?;
    see_homes(&rt, rt.alloc(), &entries)
}

/// Entries: their classes and keys. The keys of class 8 lie too far apart for a row, and class 4096 is too large
/// for one.
static OF_SMALL: [(u64, u64); 8] = [
    (7, 5000),
    (7, 5002),
    (7, 5000),
    (8, 1),
    (8, 70_000),
    (9, 0),
    (10, u64::MAX),
    (4096, 1),
];

/// A class and a key, and the number of the entry in force.
static IN_FORCE: [(u64, u64, Option<usize>); 16] = [
    (6, 0, None),
    (6, 1, None),
    (7, 0, None),
    (7, 4999, None),
    (7, 5000, Some(2)),
    (7, 5001, None),
    (7, 5002, Some(1)),
    (7, 5003, None),
    (8, 0, None),
    (8, 1, Some(3)),
    (8, 70_000, Some(4)),
    (9, 0, Some(5)),
    (9, 1, None),
    (10, 0, None),
    (10, u64::MAX, Some(6)),
    (4096, 1, Some(7)),
];

fn see_in_force(rt: &impl Abort, pools: &Pools) {
    for (class, key, expected) in IN_FORCE.iter() {
        assert_eq!(rt; pools.entry(*class, *key), *expected, "{class} {key}");
    }
}

#[test]
fn keys_of_small_classes_have_a_place(rt: HostRuntime) -> Result<(), Fail> {
    let pools = pools_of_checkpoint(rt.alloc(), &[7, 8, 9, 10, 4096], &OF_SMALL)?;
    see_in_force(&rt, &pools);
    Ok(())
}
