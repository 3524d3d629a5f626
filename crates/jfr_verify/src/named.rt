//! Comparing two classes of different chunks: their ids, the shapes of their fields, and the texts that name
//! them.
ghost use Rattle.std.specs.Prelude.{◌≡◌, map, option_map};
ghost use Rattle.jfr_meta.specs.Attributes.{text_at};
ghost use Rattle.jfr_meta.specs.Described.{IsNamedBy};
ghost use Rattle.jfr_verify.specs.Decided.{Decided};

use crate::strings::Numbers;
use jfr_layout::{ClassInfo, Fields, Shape};
use jfr_meta::ClassNames;

/// A class, and the indices of the strings that name it, its fields and its categories.
#[derive(Clone, Copy)]
pub(crate) struct NamedClass<'c> {
    pub class: &'c ClassInfo,
    pub names: &'c ClassNames,
}

/// Whether two classes are the same. The strings of `one` are in the first table, those of `other` in the
/// second.
pub(crate) fn same_class(numbers: &Numbers<'_>, one: NamedClass<'_>, other: NamedClass<'_>) -> bool
    requires one { IsNamedBy numbers.now.one.now one.class.now one.names.now }
    requires other { IsNamedBy numbers.now.other.now other.class.now other.names.now }
    ensures { Decided (one.entry.class.now ≡ other.entry.class.now) result }
{
    // One test after another: a conjunction of calls with contracts is hard to prove.
    if one.class.id != other.class.id {
        return false;
    }
    if !same_shapes(&one.class.fields, &other.class.fields) {
        return false;
    }
    if !numbers.same_text(one.names.name, other.names.name) {
        return false;
    }
    if !same_optional(numbers, one.names.super_name, other.names.super_name) {
        return false;
    }
    if !same_texts(numbers, &one.names.fields, &other.names.fields) {
        return false;
    }
    same_texts(numbers, &one.names.categories, &other.names.categories)
}

/// Whether both strings exist and have the same text, or neither exists. Here and below, the
/// first string is in the first table, and the second string in the second.
fn same_optional(numbers: &Numbers<'_>, one: Option<u64>, other: Option<u64>) -> bool
    ensures { Decided (option_map (text_at numbers.now.one.now) one ≡ option_map (text_at numbers.now.other.now) other) result }
{
    match one {
        None => other.is_none(),
        Some(one) => match other {
            None => false,
            Some(other) => numbers.same_text(one, other),
        },
    }
}

/// Whether two lists of strings have the same texts.
fn same_texts(numbers: &Numbers<'_>, ones: &[u64], others: &[u64]) -> bool
    ensures { Decided (map (text_at numbers.now.one.now) ones.now ≡ map (text_at numbers.now.other.now) others.now) result }
{
    if ones.len() != others.len() {
        return false;
    }
    for (at, one) in ones.iter().enumerate() {
        if !numbers.same_text(*one, others[at]) {
            return false;
        }
    }
    true
}

/// Whether two lists of fields have the same shapes.
fn same_shapes(one: &Fields, other: &Fields) -> bool
    ensures { Decided (map (λ f. f.shape) one.now ≡ map (λ f. f.shape) other.now) result }
{
    if one.len() != other.len() {
        return false;
    }
    for (number, field) in one.as_slice().iter().enumerate() {
        if !same_shape(field.shape, other.at(number).shape) {
            return false;
        }
    }
    true
}

/// Whether two shapes are the same.
fn same_shape(one: Shape, other: Shape) -> bool
    ensures { Decided (one ≡ other) result }
{
    one.class == other.class && one.constant == other.constant && one.array == other.array
}
