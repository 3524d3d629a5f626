//! The values of annotations.
ghost use Rattle.std.specs.Prelude.{◌≡◌, ℕ, List, length, map, option_and_then, option_map, IfOk};
ghost use Rattle.std.specs.Option.{option_to_list};
ghost use Rattle.jfr_meta.specs.Attributes.{attribute, first_value, not_empty, text_at, value_key, values_from, values_of};
ghost use Rattle.jfr_meta.specs.Trees.{pairs_of};
ghost use Rattle.jfr_meta.specs.Values.{HasFirst};

use crate::Element;
use crate::attributes::{attribute_index, full_index, text_at};
use jfr_base::{NoMemory, Text, Words};
use std::alloc::Global;
use std::collections::BTreeMap;

/// The length of the longest key that is looked up: `value-` and the digits of the largest number.
const KEY_LEN: usize = 26;

/// A map from the keys of the attributes to their values, in which the first attribute with a key counts.
/// Keys longer than `KEY_LEN` are skipped, so that many long keys in a recording are never compared.
fn first_values<'a>(
    alloc: Global,
    strings: &'a Words,
    pairs: &[(u64, u64)],
) -> Result<BTreeMap<&'a str, u64>, NoMemory>
    ensures ok { IfOk result (HasFirst strings.now pairs.now) }
{
    let mut values = BTreeMap::new(alloc);
    for at in (0..pairs.len()).rev() {
        let (index, value) = pairs[at];
        let key = text_at(strings, index);
        if key.len() > KEY_LEN {
            continue;
        }
        values.insert(key, value)?;
    }
    Ok(values)
}

/// The index of the value with this number, if there is one and it isn't empty.
fn value_at(
    alloc: Global,
    strings: &Words,
    values: &BTreeMap<&str, u64>,
    number: usize,
) -> Result<Option<u64>, NoMemory>
    ensures ok { IfOk result (λ found. (ps : List (ℕ × ℕ)) → HasFirst strings.now ps values.now → option_map (text_at strings.now) found ≡ option_and_then not_empty (first_value strings.now (value_key number) ps)) }
{
    let key = format!(in alloc; "value-{number}")?;
    match values.get(key.as_str()) {
        Some(value) => Ok(full_index(strings, *value)),
        None => Ok(None),
    }
}

/// The indices of the values numbered from 0, up to the first that is absent.
fn numbered(alloc: Global, strings: &Words, annotation: &Element) -> Result<Vec<u64>, NoMemory>
    ensures ok { IfOk result (λ indices. map (text_at strings.now) indices.items ≡ values_from (λ i. attribute strings.now annotation.now (value_key i)) 0 (length (pairs_of annotation.now))) }
{
    let pairs = annotation.attributes().as_slice();
    let values = first_values(alloc, strings, pairs)?;
    let mut indices = Vec::new(alloc);
    for number in 0..pairs.len() {
        match value_at(alloc, strings, &values, number)? {
            Some(index) => indices.push(index)?,
            None => return Ok(indices),
        }
    }
    Ok(indices)
}

/// A list with the index, if there is one, else an empty list.
fn single(alloc: Global, index: Option<u64>) -> Result<Vec<u64>, NoMemory>
    ensures ok { IfOk result (λ indices. indices.items ≡ option_to_list index) }
{
    let mut indices = Vec::new(alloc);
    if let Some(index) = index {
        indices.push(index)?;
    }
    Ok(indices)
}

/// The indices of the values of an annotation, in order: those of `value-0`, `value-1` and so on up to the
/// first that is absent. If there are none, the index of `value`.
pub(crate) fn value_indices(
    alloc: Global,
    strings: &Words,
    annotation: &Element,
) -> Result<Vec<u64>, NoMemory>
    ensures ok { IfOk result (λ indices. map (text_at strings.now) indices.items ≡ values_of strings.now annotation.now) }
{
    let indices = numbered(alloc, strings, annotation)?;
    if indices.len() > 0 {
        return Ok(indices);
    }
    single(alloc, attribute_index(strings, annotation, "value"))
}

/// The text of the string with this index, shared; empty if the table has no such string.
pub(crate) fn shared_text(alloc: Global, strings: &Words, index: u64) -> Result<Text, NoMemory>
    ensures ok { IfOk result (λ text. text ≡ text_at strings.now index) }
{
    match strings.text(index as usize) {
        Some(text) => text.share(),
        None => Text::make(alloc, ""),
    }
}

/// The texts of the strings with these indices, in order. They are shared, not copied.
pub(crate) fn texts_at(alloc: Global, strings: &Words, indices: &[u64]) -> Result<Words, NoMemory>
    ensures ok { IfOk result (λ words. words ≡ map (text_at strings.now) indices.now) }
{
    let mut words = Words::with_capacity(alloc, indices.len())?;
    for index in indices {
        let text = shared_text(alloc, strings, *index)?;
        words.push_text(text)?;
    }
    Ok(words)
}
