//! The number of bytes of the pools of a checkpoint.
ghost use Rattle.std.specs.Prelude.{◌≡◌, ℕ, length};
ghost use Rattle.std.specs.List.{AllByRecursion};
ghost use Rattle.jfr_meta.specs.Written.{capped};
ghost use Rattle.jfr_chunk.specs.Written.{by_pool};
ghost use Rattle.jfr_scrub.specs.Sizes.{HasRange, entries_size, groups_size, pool_size};

use jfr_base::var_len;
use jfr_output::pool_len;
use jfr_pool::EntryAt;

/// The number of bytes of a pool's entries.
fn entries_len(entries: &[EntryAt]) -> u64
    requires { (n : ℕ) × AllByRecursion (HasRange n) entries.now }
    ensures { result ≡ capped (entries_size entries.now) }
{
    let mut len: u64 = 0;
    for entry in entries {
        len = len.saturating_add((entry.end - entry.key_at) as u64);
    }
    len
}

/// The number of bytes of a pool.
fn pool_size(class: u64, entries: &[EntryAt]) -> u64
    requires { (n : ℕ) × AllByRecursion (HasRange n) entries.now }
    ensures { result ≡ capped (pool_size class entries.now) }
{
    let head = var_len(class) + var_len(entries.len() as u64);
    entries_len(entries).saturating_add(head as u64)
}

/// The number of pools that some entries are in, and the number of bytes of these pools.
#[derive(Clone, Copy, Debug)]
pub(crate) struct Measure {
    pub(crate) count: usize,
    pub(crate) bytes: u64,
}

/// The measure of the pools of a checkpoint's entries.
pub(crate) fn measured(entries: &[EntryAt]) -> Measure
    requires { (n : ℕ) × AllByRecursion (HasRange n) entries.now }
    ensures count { result.count ≡ length (by_pool entries.now) }
    ensures bytes { result.bytes ≡ capped (groups_size (by_pool entries.now)) }
{
    let mut count = 0;
    let mut bytes: u64 = 0;
    let mut rest = entries;
    'pools: while let Some(first) = rest.first() {
        let (pool, others) = rest.split_at(pool_len(first, rest));
        count += 1;
        bytes = bytes.saturating_add(pool_size(first.class, pool));
        rest = others;
    }
    Measure { count, bytes }
}
