//! The walk to a value's end over integers, whose values don't matter, only their ends.
ghost use Rattle.std.specs.Prelude.{◌≡◌, ℕ, ◌+◌, ◌≤◌, ◌<◌, length, IfOk, IfSome, Ok};
ghost use Rattle.std.specs.Int.{bit_at};
ghost use Rattle.jfr_base.specs.Formats.{integer, run, end_or_flaw, times};
ghost use Rattle.jfr_value.specs.Groups.{AreLastGroups};

use jfr_base::{Flaw, SHORT_GROUPS};
use std::simd::prelude::*;

/// The bit of the ninth group, which is always the last one.
const NINTH_GROUP: u64 = 1 << SHORT_GROUPS;

/// The number of bytes that are tested at once.
const VECTOR: usize = 16;

/// The offset after the integer at the offset `at`.
#[inline(always)]
pub(crate) fn integer_end(bytes: &[u8], at: usize, end: usize) -> Result<usize, Flaw>
    requires order { at ≤ end }
    requires within { end ≤ length bytes.now }
    ensures exact { result ≡ end_or_flaw (run integer bytes.now end at) }
    ensures range { IfOk result (λ to. (at ≤ to) × (to ≤ end)) }
{
    if at >= bytes.len().saturating_sub(VECTOR - 1) {
        return near_end(bytes, at, end);
    }
    let to = groups_end(bytes, at);
    if to > end {
        return Err(Flaw::short(at));
    }
    Ok(to)
}

/// The offset after an integer that starts at least 16 bytes before the end of the bytes, so that all its
/// groups are there.
#[inline(always)]
fn groups_end(bytes: &[u8], at: usize) -> usize
    requires room { at + 16 ≤ length bytes.now }
    ensures exact { Ok result ≡ end_or_flaw (run integer bytes.now (length bytes.now) at) }
    ensures range { at ≤ result }
{
    at + groups_with_more(last_groups(bytes, at), 0) + 1
}

/// The offset after `count` integers, one after another.
#[inline(always)]
pub(crate) fn integers_end(bytes: &[u8], at: usize, end: usize, count: usize) -> Result<usize, Flaw>
    requires order { at ≤ end }
    requires within { end ≤ length bytes.now }
    requires few { count ≤ 4 }
    ensures exact { result ≡ end_or_flaw (run (times count integer) bytes.now end at) }
    ensures range { IfOk result (λ to. (at ≤ to) × (to ≤ end)) }
{
    match integers_at_once(bytes, at, end, count) {
        Some(to) => Ok(to),
        None => far_integers_end(bytes, at, end, count),
    }
}

/// The offset after `count` integers, if all of them end within the next 16 bytes, which are tested at once.
/// Whether they do is checked only after the last integer; until then the end computed for one may lie past
/// the 16 bytes.
#[inline(always)]
fn integers_at_once(bytes: &[u8], at: usize, end: usize, count: usize) -> Option<usize>
    requires order { at ≤ end }
    requires within { end ≤ length bytes.now }
    requires few { count ≤ 4 }
    ensures exact { IfSome result (λ to. Ok to ≡ end_or_flaw (run (times count integer) bytes.now end at)) }
    ensures range { IfSome result (λ to. (at ≤ to) × (to ≤ end)) }
{
    if at >= bytes.len().saturating_sub(VECTOR - 1) {
        return None;
    }
    let lasts = last_groups(bytes, at);
    let mut passed = 0;
    for _ in 0..count {
        passed += groups_with_more(lasts, passed) + 1;
    }
    let to = at + passed;
    if passed > VECTOR || to > end {
        return None;
    }
    Some(to)
}

/// The offset after integers, walked one by one. The result is unpacked here, so that the fast path of
/// `integers_end` keeps its own in registers.
#[inline(always)]
fn far_integers_end(bytes: &[u8], at: usize, end: usize, count: usize) -> Result<usize, Flaw>
    requires order { at ≤ end }
    requires within { end ≤ length bytes.now }
    ensures exact { result ≡ end_or_flaw (run (times count integer) bytes.now end at) }
    ensures range { IfOk result (λ to. (at ≤ to) × (to ≤ end)) }
{
    let to = each_integer_end(bytes, at, end, count)?;
    Ok(to)
}

/// The offset after integers, walked one by one, out of line.
#[inline(never)]
fn each_integer_end(bytes: &[u8], at: usize, end: usize, count: usize) -> Result<usize, Flaw>
    requires order { at ≤ end }
    requires within { end ≤ length bytes.now }
    ensures exact { result ≡ end_or_flaw (run (times count integer) bytes.now end at) }
    ensures range { IfOk result (λ to. (at ≤ to) × (to ≤ end)) }
{
    let mut to = at;
    for _ in 0..count {
        to = integer_end(bytes, to, end)?;
    }
    Ok(to)
}

/// A bit for each of the 16 bytes from an offset on. The bit is set if the byte's top bit is 0, so that the
/// byte can be an integer's last group.
#[inline(always)]
fn last_groups(bytes: &[u8], at: usize) -> u64
    requires room { at + 16 ≤ length bytes.now }
    ensures { AreLastGroups bytes.now at result }
{
    let sixteen = u8x16::from_slice(&bytes[at..]);
    sixteen.simd_lt(u8x16::splat(128)).to_bitmask()
}

/// The number of groups of an integer that are followed by another one, by the bits of `last_groups` and the
/// number of the integer's first byte. There are at most eight, the groups of seven bits.
#[inline(always)]
fn groups_with_more(lasts: u64, from: usize) -> usize
    requires from { from < 64 }
    ensures range { result ≤ 8 }
    ensures more { (k : ℕ) → k < result → bit_at lasts (from + k) ≡ 0 }
    ensures last { result < 8 → bit_at lasts (from + result) ≡ 1 }
{
    ((lasts >> from) | NINTH_GROUP).trailing_zeros() as usize
}

/// The offset after an integer that starts near the end of the bytes. The result is unpacked here, so that
/// the fast path of `integer_end` keeps its own in registers.
#[inline(always)]
fn near_end(bytes: &[u8], at: usize, end: usize) -> Result<usize, Flaw>
    requires order { at ≤ end }
    requires within { end ≤ length bytes.now }
    ensures exact { result ≡ end_or_flaw (run integer bytes.now end at) }
    ensures range { IfOk result (λ to. (at ≤ to) × (to ≤ end)) }
{
    let to = last_integer_end(bytes, at, end)?;
    Ok(to)
}

/// The offset after an integer, group by group.
#[cold]
#[inline(never)]
fn last_integer_end(bytes: &[u8], at: usize, end: usize) -> Result<usize, Flaw>
    requires order { at ≤ end }
    requires within { end ≤ length bytes.now }
    ensures exact { result ≡ end_or_flaw (run integer bytes.now end at) }
    ensures range { IfOk result (λ to. (at ≤ to) × (to ≤ end)) }
{
    let groups = (end - at).min(SHORT_GROUPS);
    for passed in 0..groups {
        if bytes[at + passed] < 128 {
            return Ok(at + passed + 1);
        }
    }
    if end - at > SHORT_GROUPS {
        return Ok(at + SHORT_GROUPS + 1);
    }
    Err(Flaw::short(at))
}
