//! The numbers of groups, class by class.
ghost use Rattle.std.specs.Prelude.{◌≡◌, ◌<◌, ◌≤◌, length, slice_get, ℕ, Bool, List, Some, None, if◌then◌else◌, option_and_then, option_map, IfOk, IfSome, OnOk};
ghost use Rattle.std.specs.Str.{bytes_eq};
ghost use Rattle.jfr_renumber.specs.declared.numbering.UsedKey.{UsedKey};
ghost use Rattle.jfr_renumber.specs.Keys.{Together};
ghost use Rattle.jfr_renumber.specs.Numbering.{AreKeysOf, ArePairsOf, group_numbers, number_under, pair_numbers};

use jfr_base::NoMemory;
use std::alloc::Global;
use std::collections::BTreeMap;

/// A class and a key that are used, and the bytes of the value of the entry in force for them, if there is one.
#[derive(Clone, Copy)]
pub(crate) struct UsedKey<'a> {
    pub class: u64,
    pub key: u64,
    pub value: Option<&'a [u8]>,
}

/// A number for each key. A key whose value came earlier gets that value's number; any other key gets the next
/// number, from 0. If these are all keys of a class in a list, rising, and two are together exactly if they are
/// equal or have the same value, the numbers are those of their groups.
pub(crate) fn number_class<'a>(alloc: Global, keys: &[UsedKey<'a>]) -> Result<Vec<u64>, NoMemory>
    ensures ok { IfOk result (λ numbers. (together : ℕ × ℕ → ℕ × ℕ → Bool) (us : List (ℕ × ℕ)) (class : ℕ) → Together together → AreKeysOf together us class keys.now → numbers.items ≡ group_numbers together us class keys.now) }
{
    let mut firsts = BTreeMap::new(alloc);
    let mut numbers = Vec::with_capacity(alloc, keys.len())?;
    let mut next: u64 = 0;
    for used in keys {
        let value = used.value;
        if let Some(number) = known(&firsts, value) {
            numbers.push(number)?;
            continue;
        }
        remember(&mut firsts, value, next)?;
        numbers.push(next)?;
        next += 1;
    }
    Ok(numbers)
}

/// The number of a value, if there is a value and it has one.
fn known<'a>(firsts: &BTreeMap<&'a [u8], u64>, value: Option<&'a [u8]>) -> Option<u64>
    ensures { result ≡ option_and_then (λ v. number_under firsts.now v.now) value.entry }
{
    firsts.get(&value?).copied()
}

/// Gives a number to a value, if there is one.
fn remember<'a>(
    firsts: &mut BTreeMap<&'a [u8], u64>,
    value: Option<&'a [u8]>,
    number: u64,
) -> Result<(), NoMemory>
    ensures some { OnOk result (IfSome value.entry (λ v. (q : List ℕ) → number_under firsts.new q ≡ (if bytes_eq v.now q then Some number else number_under firsts.old q))) }
    ensures none { value.entry ≡ None → firsts.new ≡ firsts.old }
{
    if let Some(value) = value {
        firsts.insert(value, number)?;
    }
    Ok(())
}

/// A number for each class and key, class by class. If these are all classes and keys in a list, rising, and two
/// are together exactly if the classes are equal and the keys are equal or have the same value, the numbers are
/// those of their groups.
pub(crate) fn number_all<'a>(alloc: Global, keys: &[UsedKey<'a>]) -> Result<Vec<u64>, NoMemory>
    ensures ok { IfOk result (λ numbers. (together : ℕ × ℕ → ℕ × ℕ → Bool) (us : List (ℕ × ℕ)) → Together together → ArePairsOf together us keys.now → numbers.items ≡ pair_numbers together us keys.now) }
{
    let mut numbers = Vec::with_capacity(alloc, keys.len())?;
    let mut from = 0;
    while from < keys.len() {
        let to = class_end(keys, from);
        let these = number_class(alloc, &keys[from..to])?;
        numbers.extend_from_slice(&these)?;
        from = to;
    }
    Ok(numbers)
}

/// The end of the keys of a class, given its first key.
fn class_end(keys: &[UsedKey<'_>], from: usize) -> usize
    requires { from < length keys.now }
    ensures range { (from < result) × (result ≤ length keys.now) }
    ensures same { (f k : UsedKey) (i : ℕ) → slice_get keys.now from ≡ Some f → from ≤ i → i < result → slice_get keys.now i ≡ Some k → k.class ≡ f.class }
    ensures next { (f k : UsedKey) → slice_get keys.now from ≡ Some f → slice_get keys.now result ≡ Some k → k.class ≡ f.class → ⊥ }
{
    let class = keys[from].class;
    let mut to = from + 1;
    while to < keys.len() && keys[to].class == class {
        to += 1;
    }
    to
}
