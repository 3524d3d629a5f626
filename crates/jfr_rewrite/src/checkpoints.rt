//! Rewritten checkpoints.
ghost use Rattle.std.specs.Prelude.{◌≡◌, ◌<◌, ◌++◌, length, slice_range, OnOk};
ghost use Rattle.std.specs.List.{AllByRecursion, flat_map};
ghost use Rattle.jfr_chunk.specs.Written.{by_pool};
ghost use Rattle.jfr_laws.specs.InChunk.{IsEntryIn, IsLinkIn};
ghost use Rattle.jfr_rewrite.specs.Rewrite.{checkpoint_tail, entry_bytes, group_bytes, resized};
ghost use Rattle.jfr_rewrite.specs.Rewritten.{CarriesTail};
ghost use Rattle.jfr_rewrite.specs.Writing.{Wrote};

use crate::copying::{Changing, put_changed};
use crate::fault::WriteFault;
use crate::rewriter::Rewriter;
use crate::size::put_size;
use jfr_base::{NoMemory, push_var};
use jfr_chunk::Chunk;
use jfr_layout::Shape;
use jfr_output::pool_len;
use jfr_pool::{EntryAt, Link};
use jfr_value::Node;

/// A chained checkpoint of the output: the checkpoint that it comes from, its delta in the output, and those of
/// its entries that are in the output.
#[derive(Clone, Copy, Debug)]
pub(crate) struct OutputCheckpoint<'e> {
    pub link: Link,
    pub delta: u64,
    pub entries: &'e [EntryAt],
}

/// Appends an entry: its new key, and its changed value.
fn put_entry<R: Rewriter>(
    out: &mut Vec<u8>,
    chunk: &Chunk<'_>,
    entry: &EntryAt,
    rewriting: &R,
) -> Result<(), NoMemory>
    requires suits { R.suits rewriting.now chunk.now }
    requires holds { IsEntryIn chunk.now.bytes chunk.now.classes entry.now }
    ensures ok { OnOk result (out.new.items ≡ out.old.items ++ entry_bytes (R.rewrite rewriting.now) chunk.now entry.now) }
{
    let node = Node {
        shape: Shape::inline(entry.class),
        bytes: chunk.bytes(),
        at: entry.value_at,
        end: entry.end,
    };
    push_var(out, rewriting.entry_key(entry.class, entry.key))?;
    let changing = Changing { chunk, rewriting };
    put_changed(out, &changing, node, node.at, node.end)
}

/// Appends the entries of a pool.
fn put_entries<R: Rewriter>(
    out: &mut Vec<u8>,
    chunk: &Chunk<'_>,
    entries: &[EntryAt],
    rewriting: &R,
) -> Result<(), NoMemory>
    requires suits { R.suits rewriting.now chunk.now }
    requires valid { AllByRecursion (IsEntryIn chunk.now.bytes chunk.now.classes) entries.now }
    ensures ok { OnOk result (out.new.items ≡ out.old.items ++ flat_map (entry_bytes (R.rewrite rewriting.now) chunk.now) entries.now) }
{
    for entry in entries {
        put_entry(out, chunk, entry, rewriting)?;
    }
    Ok(())
}

/// Appends the pools of a checkpoint that have one of these entries.
fn put_pools<R: Rewriter>(
    out: &mut Vec<u8>,
    chunk: &Chunk<'_>,
    entries: &[EntryAt],
    rewriting: &R,
) -> Result<(), NoMemory>
    requires suits { R.suits rewriting.now chunk.now }
    requires valid { AllByRecursion (IsEntryIn chunk.now.bytes chunk.now.classes) entries.now }
    ensures ok { OnOk result (out.new.items ≡ out.old.items ++ flat_map (group_bytes (R.rewrite rewriting.now) chunk.now) (by_pool entries.now)) }
{
    let mut rest = entries;
    'pools: while let Some(first) = rest.first() {
        let (pool, others) = rest.split_at(pool_len(first, rest));
        push_var(out, first.class)?;
        push_var(out, pool.len() as u64)?;
        put_entries(out, chunk, pool, rewriting)?;
        rest = others;
    }
    Ok(())
}

/// Appends a checkpoint up to its delta, its delta, and its entries, after its old size.
fn put_body<R: Rewriter>(
    out: &mut Vec<u8>,
    chunk: &Chunk<'_>,
    checkpoint: OutputCheckpoint<'_>,
    rewriting: &R,
) -> Result<(), NoMemory>
    requires suits { R.suits rewriting.now chunk.now }
    requires link { IsLinkIn chunk.now.bytes checkpoint.link }
    requires valid { AllByRecursion (IsEntryIn chunk.now.bytes chunk.now.classes) checkpoint.entries.now }
    ensures ok { OnOk result (out.new.items ≡ out.old.items ++ (slice_range chunk.now.bytes checkpoint.entry.link.frame.at checkpoint.entry.link.frame.type_at ++ checkpoint_tail (R.rewrite rewriting.now) chunk.now checkpoint.entry.link checkpoint.entry.delta (by_pool checkpoint.entry.entries.now))) }
{
    let bytes = chunk.bytes();
    let link = checkpoint.link;
    out.extend_from_slice(&bytes[link.frame.at..link.delta_at])?;
    push_var(out, checkpoint.delta)?;
    out.extend_from_slice(&bytes[link.delta_end..link.delta_end + 1])?;
    push_var(out, pool_count(checkpoint.entries) as u64)?;
    put_pools(out, chunk, checkpoint.entries, rewriting)
}

/// Appends a checkpoint with its delta and its entries, rewritten.
pub(crate) fn put_checkpoint<R: Rewriter>(
    out: &mut Vec<u8>,
    scratch: &mut Vec<u8>,
    chunk: &Chunk<'_>,
    checkpoint: OutputCheckpoint<'_>,
    rewriting: &R,
) -> Result<(), WriteFault>
    requires suits { R.suits rewriting.now chunk.now }
    requires link { IsLinkIn chunk.now.bytes checkpoint.link }
    requires valid { AllByRecursion (IsEntryIn chunk.now.bytes chunk.now.classes) checkpoint.entries.now }
    ensures { Wrote result (λ done. (out.new.items ≡ out.old.items ++ resized (R.rewrite rewriting.now) checkpoint.entry.link.frame (checkpoint_tail (R.rewrite rewriting.now) chunk.now checkpoint.entry.link checkpoint.entry.delta (by_pool checkpoint.entry.entries.now))) × (length out.old.items < length out.new.items)) (CarriesTail (R.rewrite rewriting.now) checkpoint.entry.link.frame (checkpoint_tail (R.rewrite rewriting.now) chunk.now checkpoint.entry.link checkpoint.entry.delta (by_pool checkpoint.entry.entries.now))) }
{
    let start = out.len();
    put_body(out, chunk, checkpoint, rewriting)?;
    put_size(out, scratch, start, checkpoint.link.frame, rewriting)
}

/// The number of pools that a checkpoint's entries are in.
fn pool_count(entries: &[EntryAt]) -> usize
    ensures { result ≡ length (by_pool entries.now) }
{
    let mut count = 0;
    let mut rest = entries;
    'pools: while let Some(first) = rest.first() {
        let (_, others) = rest.split_at(pool_len(first, rest));
        count += 1;
        rest = others;
    }
    count
}
