//! Compressed integers.
ghost use Rattle.std.specs.Prelude.{◌≡◌, ℕ, ◌+◌, ◌<◌, ◌≤◌, IfOk, IfSome, IsSome, length, MatchResult, None, OnErr, Some, take};
ghost use Rattle.std.specs.Int.{cast_signed, w64};
ghost use Rattle.jfr_base.specs.Formats.{int_at};
ghost use Rattle.jfr_base.specs.Integer.{FitsIn, IntAt, spell, spell_in, Spells};
ghost use Rattle.jfr_base.specs.Laws.{AreBytes};

use crate::{Flaw, Reason};

/// A compressed integer that was read.
#[derive(Clone, Copy, Debug, PartialEq, Eq)]
pub struct Var {
    /// Its value as an unsigned number; `signed` gives it as a signed one.
    pub value: u64,
    /// The offset after its last byte.
    pub end: usize,
}

/// The bytes end before the integer does.
#[derive(Clone, Copy, Debug, PartialEq, Eq)]
pub struct Short;

/// The number of groups with seven bits. One more group, the ninth, has eight. Public for jfr_value,
/// whose walks skip integers.
#[doc(hidden)]
pub const SHORT_GROUPS: usize = 8;

/// The position of the ninth byte's eight bits in the value.
const NINTH_SHIFT: u32 = 56;

/// Reads the compressed integer that starts at the offset `at` (docs/FORMAT.md, Integers). It has one to nine
/// bytes, and may be padded. Fails with `Short` exactly if the bytes end before the integer does.
pub fn read_var(bytes: &[u8], at: usize) -> Result<Var, Short>
    requires { at ≤ length bytes.now }
    ensures ok { IfOk result (λ v. IntAt bytes.now at v.end v.value) }
    ensures refused { OnErr result ((q v : ℕ) → IntAt bytes.now at q v → ⊥) }
    ensures exact { MatchResult result (λ v. int_at bytes.now at (length bytes.now) ≡ Some v) (λ _. int_at bytes.now at (length bytes.now) ≡ None) }
{
    read_within(bytes, at, bytes.len()).map_err(|_| Short)
}

/// Reads the compressed integer that starts at the offset `at` and ends by `end`. If there is none, the flaw
/// is `Short` at `at`.
#[inline(always)]
pub fn read_within(bytes: &[u8], at: usize, end: usize) -> Result<Var, Flaw>
    requires order { at ≤ end }
    requires within { end ≤ length bytes.now }
    ensures ok { IfOk result (λ v. IntAt bytes.now at v.end v.value) }
    ensures refused { OnErr result ((q v : ℕ) → IntAt bytes.now at q v → q ≤ end → ⊥) }
    ensures range { IfOk result (λ v. (at < v.end) × (v.end ≤ end)) }
    ensures exact { MatchResult result (λ v. int_at bytes.now at end ≡ Some v) (λ e. (int_at bytes.now at end ≡ None) × (e ≡ record { offset = at; reason = Reason.Short })) }
{
    var_within(bytes, at, end)
}

/// The compressed integer that starts at the offset `at` and ends by `end`, where there is known to be one.
#[inline(always)]
pub fn known_integer(bytes: &[u8], at: usize, end: usize) -> Var
    requires order { at ≤ end }
    requires within { end ≤ length bytes.now }
    requires known { IsSome (int_at bytes.now at end) }
    ensures range { (at < result.end) × (result.end ≤ end) }
    ensures exact { int_at bytes.now at end ≡ Some result }
{
    let Ok(integer) = read_within(bytes, at, end) else {
        unreachable!()
    };
    integer
}

/// The body of `read_within`. Its clauses are in terms of `int_at` only; `read_within` derives those about
/// spellings from them.
#[inline(always)]
fn var_within(bytes: &[u8], at: usize, end: usize) -> Result<Var, Flaw>
    requires order { at ≤ end }
    requires within { end ≤ length bytes.now }
    ensures range { IfOk result (λ v. (at < v.end) × (v.end ≤ end)) }
    ensures exact { MatchResult result (λ v. int_at bytes.now at end ≡ Some v) (λ e. (int_at bytes.now at end ≡ None) × (e ≡ record { offset = at; reason = Reason.Short })) }
{
    if let Some(var) = read_short(bytes, at, end) {
        return Ok(var);
    }
    if at >= bytes.len().saturating_sub(SHORT_GROUPS) {
        // Not `return read_last(..)`: this way the compiler keeps the two results apart, and that of the fast
        // path below in registers.
        return Ok(read_last(bytes, at, end)?);
    }
    let var = read_groups(bytes, at);
    if var.end > end {
        return Err(Flaw::short(at));
    }
    Ok(var)
}

/// The compressed integer that starts at the offset `at` and ends by `end`, if it has one byte or two, as
/// most have. `None` if it is longer or there is none.
#[inline(always)]
pub fn read_short(bytes: &[u8], at: usize, end: usize) -> Option<Var>
    requires order { at ≤ end }
    requires within { end ≤ length bytes.now }
    ensures range { IfSome result (λ v. (at < v.end) × (v.end ≤ end)) }
    ensures ok { IfSome result (λ v. IntAt bytes.now at v.end v.value) }
    ensures exact { IfSome result (λ v. int_at bytes.now at end ≡ Some v) }
    ensures longer { result ≡ None → IfSome (int_at bytes.now at end) (λ v. at + 2 < v.end) }
{
    if at >= end {
        return None;
    }
    let first = u64::from(bytes[at]);
    if first < 128 {
        return Some(Var {
            value: first,
            end: at + 1,
        });
    }
    if at + 1 >= end {
        return None;
    }
    let second = u64::from(bytes[at + 1]);
    if second < 128 {
        return Some(Var {
            value: first - 128 + 128 * second,
            end: at + 2,
        });
    }
    None
}

/// Reads an integer by a loop of fixed length. At least nine bytes are left at `at`.
#[inline(always)]
fn read_groups(bytes: &[u8], at: usize) -> Var
    requires room { at + 8 < length bytes.now }
    ensures further { at < result.end }
    ensures exact { int_at bytes.now at (length bytes.now) ≡ Some result }
{
    let mut value: u64 = 0;
    for group in 0..SHORT_GROUPS {
        let byte = bytes[at + group];
        let shift = 7 * group as u32;
        if byte < 128 {
            return Var {
                value: value + (u64::from(byte) << shift),
                end: at + group + 1,
            };
        }
        value += u64::from(byte % 128) << shift;
    }
    Var {
        value: value + (u64::from(bytes[at + SHORT_GROUPS]) << NINTH_SHIFT),
        end: at + SHORT_GROUPS + 1,
    }
}

/// Reads an integer that starts among the last eight bytes, so it has no ninth group.
#[cold]
fn read_last(bytes: &[u8], at: usize, end: usize) -> Result<Var, Flaw>
    requires order { at ≤ end }
    requires within { end ≤ length bytes.now }
    requires last { length bytes.now ≤ at + 8 }
    ensures range { IfOk result (λ v. (at < v.end) × (v.end ≤ end)) }
    ensures exact { MatchResult result (λ v. int_at bytes.now at end ≡ Some v) (λ e. (int_at bytes.now at end ≡ None) × (e ≡ record { offset = at; reason = Reason.Short })) }
{
    let mut value: u64 = 0;
    let mut shift: u32 = 0;
    for place in at..end {
        let byte = bytes[place];
        if byte < 128 {
            return Ok(Var {
                value: value + (u64::from(byte) << shift),
                end: place + 1,
            });
        }
        value += u64::from(byte % 128) << shift;
        shift += 7;
    }
    Err(Flaw::short(at))
}

/// Writes the shortest spelling of a value to the front of `into`, and returns its length. The bytes after it
/// are unspecified.
pub fn write_var(value: u64, into: &mut [u8; 9]) -> usize
    ensures exact { take result into.new ≡ spell value }
    ensures length { result ≡ length (spell value) }
    ensures range { (1 ≤ result) × (result ≤ 9) }

    ensures spells { Spells (take result into.new) value }
    ensures bytes { AreBytes (take result into.new) }
{
    let mut rest = value;
    for i in 0..8 {
        if rest < 128 {
            into[i] = rest as u8;
            return i + 1;
        }
        into[i] = (rest % 128 + 128) as u8;
        rest /= 128;
    }
    into[8] = rest as u8;
    9
}

/// Writes the spelling of a value in `count` bytes to the front of `into`. The bytes after it are
/// unspecified.
pub fn write_in(value: u64, count: usize, into: &mut [u8; 9])
    requires count { (1 ≤ count) × (count ≤ 9) }
    requires fits { FitsIn value count }
    ensures exact { take count into.new ≡ spell_in count value }

    ensures spells { Spells (take count into.new) value }
    ensures bytes { AreBytes (take count into.new) }
{
    let mut rest = value;
    for i in 0..count - 1 {
        into[i] = (rest % 128 + 128) as u8;
        rest /= 128;
    }
    into[count - 1] = rest as u8;
}

/// The length of the shortest spelling of a value.
pub fn var_len(value: u64) -> usize
    ensures exact { result ≡ length (spell value) }
    ensures range { (1 ≤ result) × (result ≤ 9) }
{
    let mut rest = value;
    for len in 1..9 {
        if rest < 128 {
            return len;
        }
        rest /= 128;
    }
    9
}

/// The signed number whose two's complement in 64 bits is the value.
pub fn signed(value: u64) -> i64
    ensures { result ≡ cast_signed w64 value }
{
    value.cast_signed()
}
