//! The pools of a checkpoint's entries.
ghost use Rattle.std.specs.Prelude.{◌≡◌, ◌≤◌, length};
ghost use Rattle.jfr_output.specs.Pools.{leading, same_pool};

use jfr_pool::EntryAt;

/// Whether two entries of a checkpoint are in the same pool.
fn same_pool(one: &EntryAt, other: &EntryAt) -> bool
    ensures { result ≡ same_pool one.now other.now }
{
    if one.pool != other.pool {
        return false;
    }
    one.class == other.class
}

/// The number of entries at the start of `entries` that are in the pool of `first`.
pub fn pool_len(first: &EntryAt, entries: &[EntryAt]) -> usize
    ensures exact { result ≡ leading first.now entries.now }
    ensures within { result ≤ length entries.now }
{
    for (number, entry) in entries.iter().enumerate() {
        if !same_pool(first, entry) {
            return number;
        }
    }
    entries.len()
}
