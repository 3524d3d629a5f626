//! The values of used keys.
ghost use Rattle.std.specs.Prelude.{◌≡◌, ℕ, map, take, option_map, IfOk};
ghost use Rattle.std.specs.List.{AllByRecursion};
ghost use Rattle.jfr_renumber.specs.Numbering.{HasValue, pair_at, value_in_force};

use crate::numbering::UsedKey;
use jfr_base::NoMemory;
use jfr_chunk::Chunk;
use std::alloc::Global;

/// These classes and keys, each with the bytes of the value of its entry in force, if there is one.
pub(crate) fn with_values<'a>(
    alloc: Global,
    chunk: &Chunk<'a>,
    pairs: &[(u64, u64)],
) -> Result<Vec<UsedKey<'a>>, NoMemory>
    ensures pairs { IfOk result (λ keys. map pair_at keys.items ≡ pairs.now) }
    ensures values { IfOk result (λ keys. AllByRecursion (HasValue chunk.now) keys.items) }
{
    let mut keys = Vec::with_capacity(alloc, pairs.len())?;
    for pair in pairs {
        let (class, key) = *pair;
        let value = value_bytes(chunk, class, key);
        keys.push(UsedKey { class, key, value })?;
    }
    Ok(keys)
}

/// The bytes of the value of the entry in force for a class and a key, if there is one.
fn value_bytes<'a>(chunk: &Chunk<'a>, class: u64, key: u64) -> Option<&'a [u8]>
    ensures { option_map (λ v. v.now) result ≡ value_in_force chunk.now (class, key) }
{
    let number = chunk.pools().entry(class, key)?;
    let node = chunk.entry_node(number)?;
    Some(&node.bytes[node.at..node.end])
}
