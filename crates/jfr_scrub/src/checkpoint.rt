//! Laying out a chained checkpoint.
ghost use Rattle.std.specs.Prelude.{◌≡◌, ◌+◌, ◌-◌, ◌^◌, ◌<◌, ◌≤◌, ◌++◌, [], length, IfOk, OnOk};
ghost use Rattle.std.specs.List.{AllByRecursion, flat_map};
ghost use Rattle.jfr_chunk.specs.Written.{by_pool, checkpoint_bytes, entry_bytes, group_bytes};
ghost use Rattle.jfr_scrub.specs.Bodies.{checkpoint_parts, pool_parts};
ghost use Rattle.jfr_scrub.specs.Fits.{LinkFits};
ghost use Rattle.jfr_scrub.specs.Pieces.{EntryIsCopied, Grows, output_so_far, more};
ghost use Rattle.jfr_scrub.specs.Sizes.{HasRange};

use crate::measure::measured;
use crate::piece::MadePart;
use crate::piece_builder::PieceBuilder;
use jfr_base::var_len;
use jfr_output::pool_len;
use jfr_outside::NoMemory;
use jfr_pool::{EntryAt, Link};

/// Lays out a checkpoint with these entries: its new size in the same number of bytes as before, the new
/// delta, and the pools that have an entry left. Returns the number of bytes.
pub(crate) fn lay_checkpoint(
    output: &mut PieceBuilder,
    link: &Link,
    delta: u64,
    entries: &[EntryAt],
) -> Result<usize, NoMemory>
    requires fits { LinkFits output.old.chunk link.now delta (by_pool entries.now) }
    requires ranges { AllByRecursion (HasRange (length output.old.chunk)) entries.now }
    requires small { length output.old.chunk < 2 ^ 64 }
    ensures ok { OnOk result (output_so_far output.new ≡ more (output_so_far output.old) (checkpoint_bytes output.old.chunk link.now delta (by_pool entries.now))) }
    ensures copied { OnOk result (AllByRecursion (EntryIsCopied output.new.pieces) entries.now) }
    ensures grows { OnOk result (Grows output.old.pieces output.new.pieces (checkpoint_parts (by_pool entries.now))) }
    ensures size { IfOk result (λ size. size ≡ length (checkpoint_bytes output.old.chunk link.now delta (by_pool entries.now))) }
{
    let frame = link.frame;
    let width = frame.type_at - frame.at;
    let pools = measured(entries);
    let head = width + (link.delta_at - frame.type_at) + var_len(delta) + 1;
    let size = (head + var_len(pools.count as u64)) as u64 + pools.bytes;
    output.put_size(size, width)?;
    output.copy(frame.type_at, link.delta_at)?;
    output.put_integer(MadePart::CheckpointDelta, delta)?;
    output.copy(link.delta_end, link.delta_end + 1)?;
    output.put_integer(MadePart::PoolCount, pools.count as u64)?;
    lay_pools(output, entries)?;
    Ok(size as usize)
}

/// Lays out the pools of a checkpoint's entries.
fn lay_pools(output: &mut PieceBuilder, entries: &[EntryAt]) -> Result<(), NoMemory>
    requires { AllByRecursion (HasRange (length output.old.chunk)) entries.now }
    ensures ok { OnOk result (output_so_far output.new ≡ more (output_so_far output.old) (flat_map (group_bytes output.old.chunk) (by_pool entries.now))) }
    ensures copied { OnOk result (AllByRecursion (EntryIsCopied output.new.pieces) entries.now) }
    ensures grows { OnOk result (Grows output.old.pieces output.new.pieces (flat_map pool_parts (by_pool entries.now))) }
{
    let mut rest = entries;
    'pools: while let Some(first) = rest.first() {
        let (pool, others) = rest.split_at(pool_len(first, rest));
        output.put_integer(MadePart::PoolClass, first.class)?;
        output.put_integer(MadePart::EntryCount, pool.len() as u64)?;
        lay_entries(output, pool)?;
        rest = others;
    }
    Ok(())
}

/// Lays out the entries of a pool.
fn lay_entries(output: &mut PieceBuilder, entries: &[EntryAt]) -> Result<(), NoMemory>
    requires { AllByRecursion (HasRange (length output.old.chunk)) entries.now }
    ensures ok { OnOk result (output_so_far output.new ≡ more (output_so_far output.old) (flat_map (entry_bytes output.old.chunk) entries.now)) }
    ensures copied { OnOk result (AllByRecursion (EntryIsCopied output.new.pieces) entries.now) }
    ensures grows { OnOk result (Grows output.old.pieces output.new.pieces []) }
{
    for entry in entries {
        output.copy(entry.key_at, entry.end)?;
    }
    Ok(())
}
