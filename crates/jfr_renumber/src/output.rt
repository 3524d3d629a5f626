//! The output chunk with new keys.
ghost use Rattle.std.specs.Prelude.{◌≡◌, ℕ, option_map, IfOk};
ghost use Rattle.jfr_chunk.specs.Reach.{kept_by};
ghost use Rattle.jfr_output.specs.RemainingRecords.{IsNewMetadata};
ghost use Rattle.jfr_renumber.specs.Numbers.{number_of};
ghost use Rattle.jfr_renumber.specs.Renumber.{firsts, new_key_of, renumber_with};

use crate::entry_keys::EntryKeys;
use jfr_base::NoMemory;
use jfr_rewrite::{RewriteSource, WriteFault, write_chunk};
use std::alloc::Global;

/// Writes the output chunk in the memory of a vector, whose items are dropped. The new keys aren't larger than the
/// old ones, so that each size keeps its width.
pub(crate) fn put_chunk(
    alloc: Global,
    memory: Vec<u8>,
    source: RewriteSource<'_, EntryKeys<'_>>,
) -> Result<Vec<u8>, NoMemory>
    requires metadata { IsNewMetadata source.chunk.now (kept_by source.chunk.now source.kept.now) (option_map (λ s. s.now) source.metadata) }
    requires entries { source.entries.now ≡ firsts source.chunk.now (kept_by source.chunk.now source.kept.now) }
    requires chunk { source.rewriting.now.entries ≡ source.chunk.now.entries }
    requires keys { (t : ℕ × ℕ) → number_of source.rewriting.now.keys t ≡ new_key_of source.chunk.now (kept_by source.chunk.now source.kept.now) t }
    ensures { IfOk result (λ out. out.items ≡ renumber_with (option_map (λ s. s.now) source.entry.metadata) source.entry.chunk.now (kept_by source.entry.chunk.now source.entry.kept.now)) }
{
    source.chunk.parts_are_valid();
    match write_chunk(alloc, memory, source) {
        Ok(out) => Ok(out),
        Err(WriteFault::Memory) => Err(NoMemory),
        Err(WriteFault::TooLong) => unreachable!(),
    }
}
