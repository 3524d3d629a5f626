//! The body of a checkpoint: its pools and their entries.
ghost use Rattle.std.specs.Prelude.{◌≡◌, ◌≤◌, is_some, length, map, IfOk, IsSome};
ghost use Rattle.jfr_base.specs.Formats.{run, times};
ghost use Rattle.jfr_frame.specs.Records.{IsRecord, record_end};
ghost use Rattle.jfr_layout.specs.Classes.{IsFieldLayout, Sound, find_class};
ghost use Rattle.jfr_pool.specs.Entries.{checkpoint_format, constant_format, entries_from, inline, pool_format};
ghost use Rattle.jfr_pool.specs.Listing.{Adds, count_format, only_entry, entry_in, integer_by, listed, pool_entries, single};

use crate::EntryAt;
use jfr_base::{Flaw, ReadFault, Reason, Var, read_within};
use jfr_frame::Framed;
use jfr_layout::{Classes, FieldLayout, Shape};
use jfr_value::{end_by_layout, layout_of};

/// What stays the same while a checkpoint's body is read: the chunk, its classes, and the offset at which the
/// checkpoint's record ends.
#[derive(Clone, Copy)]
struct Body<'a> {
    chunk: &'a [u8],
    classes: &'a Classes,
    limit: usize,
    ghost within: { limit ≤ length chunk.now },
}

/// A pool: its class, the number of its checkpoint in the chain, in the order of the file, and its own number
/// in the checkpoint, both from 0.
#[derive(Clone, Copy)]
pub(crate) struct PoolId {
    pub class: u64,
    pub checkpoint: usize,
    pub number: usize,
}

/// Adds the entries of the checkpoint with this number to `entries`, and returns where its body ends.
pub(crate) fn read_checkpoint(
    chunk: &[u8],
    classes: &Classes,
    number: usize,
    frame: Framed,
    entries: &mut Vec<EntryAt>,
) -> Result<usize, ReadFault>
    requires { IsRecord chunk.now frame }
    ensures exact { Adds (listed (entries_from number 0) (run (checkpoint_format classes.now) chunk.now (record_end frame) frame.body)) entries.old.items entries.new.items result }
{
    let limit = frame.end();
    let count = pool_count(chunk, frame.body, limit)?;
    let body = Body {
        chunk,
        classes,
        limit,
    };
    let to = read_pools(body, number, count, entries)?;
    if to < limit {
        return Err(ReadFault::Flawed(Flaw {
            offset: to as u64,
            reason: Reason::Trailing,
        }));
    }
    Ok(to)
}

/// The number of pools of a checkpoint, and the offset of the first. Start, duration, delta and a type byte
/// come before the number.
#[tactic(auto, unfolding(jfr_base::specs::Formats::run))]
fn pool_count(chunk: &[u8], at: usize, limit: usize) -> Result<Var, Flaw>
    requires order { at ≤ limit }
    requires within { limit ≤ length chunk.now }
    ensures exact { result ≡ integer_by (run count_format chunk.now limit at) }
    ensures range { IfOk result (λ v. v.end ≤ limit) }
{
    let start = read_within(chunk, at, limit)?;
    let duration = read_within(chunk, start.end, limit)?;
    let delta = read_within(chunk, duration.end, limit)?;
    if delta.end == limit {
        return Err(Flaw::short(delta.end));
    }
    let count = read_within(chunk, delta.end + 1, limit)?;
    Ok(count)
}

/// Adds the entries of a checkpoint's pools, which come after their count, and returns where they end.
fn read_pools(
    body: Body<'_>,
    checkpoint: usize,
    count: Var,
    entries: &mut Vec<EntryAt>,
) -> Result<usize, ReadFault>
    requires order { count.end ≤ body.limit }
    ensures exact { Adds (listed (entries_from checkpoint 0) (run (times count.value (pool_format body.entry.classes.now)) body.entry.chunk.now body.entry.limit count.end)) entries.old.items entries.new.items result }
    ensures range { IfOk result (λ to. to ≤ body.entry.limit) }
{
    let mut to = count.end;
    for number in 0..count.value {
        to = read_pool(body, checkpoint, number as usize, to, entries)?;
    }
    Ok(to)
}

/// Adds the entries of the pool with this number, and returns where it ends. The pool is refused if its class
/// isn't known.
fn read_pool(
    body: Body<'_>,
    checkpoint: usize,
    number: usize,
    at: usize,
    entries: &mut Vec<EntryAt>,
) -> Result<usize, ReadFault>
    requires order { at ≤ body.limit }
    ensures exact { Adds (listed (pool_entries checkpoint number) (run (pool_format body.entry.classes.now) body.entry.chunk.now body.entry.limit at)) entries.old.items entries.new.items result }
    ensures range { IfOk result (λ to. to ≤ body.entry.limit) }
{
    let class = read_within(body.chunk, at, body.limit)?;
    if !is_known(body.classes, class.value) {
        return Err(ReadFault::Flawed(Flaw {
            offset: at as u64,
            reason: Reason::PoolType,
        }));
    }
    let count = read_within(body.chunk, class.end, body.limit)?;
    let pool = PoolId {
        class: class.value,
        checkpoint,
        number,
    };
    let layout = layout_of(body.classes, Shape::inline(class.value));
    read_entries(body, pool, &layout, count, entries)
}

/// Whether there is a class with this id.
fn is_known(classes: &Classes, class: u64) -> bool
    ensures { result ≡ is_some (find_class classes.now class) }
{
    classes.find(class).is_some()
}

/// Adds the entries of a pool, which come after their count, and returns where they end. Their values have
/// this layout.
fn read_entries(
    body: Body<'_>,
    pool: PoolId,
    layout: &FieldLayout,
    count: Var,
    entries: &mut Vec<EntryAt>,
) -> Result<usize, ReadFault>
    requires sound { Sound body.classes.now }
    requires layout { IsFieldLayout body.classes.now layout.now }
    requires shape { layout.now.shape ≡ inline pool.class }
    requires order { count.end ≤ body.limit }
    ensures exact { Adds (listed (map (entry_in pool)) (run (times count.value (constant_format body.entry.classes.now pool.class)) body.entry.chunk.now body.entry.limit count.end)) entries.old.items entries.new.items result }
    ensures range { IfOk result (λ to. to ≤ body.entry.limit) }
{
    let mut to = count.end;
    for _ in 0..count.value {
        let entry = read_entry(body, pool, layout, to)?;
        entries.push(entry)?;
        to = entry.end;
    }
    Ok(to)
}

/// The entry that starts at the offset `at`: its key, and its value, which has this layout.
fn read_entry(
    body: Body<'_>,
    pool: PoolId,
    layout: &FieldLayout,
    at: usize,
) -> Result<EntryAt, Flaw>
    requires sound { Sound body.classes.now }
    requires layout { IsFieldLayout body.classes.now layout.now }
    requires shape { layout.now.shape ≡ inline pool.class }
    requires order { at ≤ body.limit }
    ensures exact { listed (only_entry pool) (run (constant_format body.entry.classes.now pool.class) body.entry.chunk.now body.entry.limit at) ≡ single result }
    ensures range { IfOk result (λ e. e.end ≤ body.entry.limit) }
{
    let key = read_within(body.chunk, at, body.limit)?;
    let end = end_by_layout(body.classes, layout, body.chunk, key.end, body.limit)?;
    Ok(EntryAt {
        class: pool.class,
        key: key.value,
        key_at: at,
        value_at: key.end,
        end,
        checkpoint: pool.checkpoint,
        pool: pool.number,
    })
}
