//! The checkpoint, with an entry for each key.
ghost use Rattle.std.specs.Prelude.{◌≡◌, ◌≤◌, ◌<◌, ◌*◌, ◌^◌, ◌++◌, length, IfOk, OnOk};
ghost use Rattle.jfr_sample.specs.Sample.{checkpoint, entries_to, entry, next_of};

use crate::spelled::{push_size, push_string};
use itoa::Buffer;
use jfr_base::{push_var, var_len};
use jfr_outside::NoMemory;
use std::alloc::Global;

/// The body of the checkpoint up to the pool's count: type 1, start 0, duration 0, delta 0, the type byte 0,
/// and one pool, of class 7.
const FIRST_BYTES: [u8; 7] = [1, 0, 0, 0, 0, 1, 7];

/// The length of the longest entry: two integers below 2^21, and a string of at most seven digits.
const ENTRY_LEN: usize = 15;

/// Adds the checkpoint that has these entries.
#[tactic(auto, unfolding(crate::specs::Sample::checkpoint))]
pub fn push_checkpoint(into: &mut Vec<u8>, events: u32, entries: &[u8]) -> Result<(), NoMemory>
    requires these { entries.now ≡ entries_to events }
    requires room { length entries.now < 2 ^ 27 }
    ensures { OnOk result (into.new.items ≡ into.old.items ++ checkpoint events) }
{
    let count = u64::from(events);
    push_size(into, FIRST_BYTES.len() + var_len(count) + entries.len())?;
    into.extend_from_slice(&FIRST_BYTES)?;
    push_var(into, count)?;
    into.extend_from_slice(entries)?;
    Ok(())
}

/// The entries with the keys from 1 to `last`.
pub fn entries_of(alloc: Global, last: u32) -> Result<Vec<u8>, NoMemory>
    requires { last ≤ 1000000 }
    ensures exact { IfOk result (λ entries. entries.items ≡ entries_to last) }
    ensures short { IfOk result (λ entries. length entries.items ≤ 15 * last) }
{
    let mut entries = Vec::with_capacity(alloc, ENTRY_LEN * last as usize)?;
    let mut digits = Buffer::new();
    for count in 0..last {
        push_entry(&mut entries, &mut digits, u64::from(count) + 1)?;
    }
    Ok(entries)
}

/// Adds the entry with this key.
#[tactic(auto, unfolding(crate::specs::Sample::entry))]
fn push_entry(into: &mut Vec<u8>, digits: &mut Buffer, key: u64) -> Result<(), NoMemory>
    requires { (1 ≤ key) × (key < 2 ^ 63) }
    ensures { OnOk result (into.new.items ≡ into.old.items ++ entry key) }
{
    push_var(into, key)?;
    push_var(into, next_of(key))?;
    push_string(into, digits.format(key))
}

/// The key of the node that the entry's field `next` refers to: `key - 2` if the key is a multiple of 3, else
/// `key + 1`.
fn next_of(key: u64) -> u64
    requires { (1 ≤ key) × (key < 2 ^ 63) }
    ensures { result ≡ next_of key }
{
    if key % 3 == 0 { key - 2 } else { key + 1 }
}
