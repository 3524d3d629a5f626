//! Numbers for the strings of two tables.
//!
//! The number of a text is the index of the first string of the first table that has this text. A string of
//! either table gets the number of its text; a string of the second table gets none if the first table
//! doesn't have its text. So a string of the first table and one of the second have the same text exactly if
//! both have the same number.
//!
//! Many classes may share a long name. The numbers keep the checker fast: the text of a string is looked up
//! once, and from then on numbers are compared.
ghost use Rattle.std.specs.Prelude.{◌≡◌, ℕ, List, [], get_or, map, IfOk, OnOk};
ghost use Rattle.std.specs.Str.{chars};
ghost use Rattle.jfr_layout.specs.Names.{value_under};
ghost use Rattle.jfr_meta.specs.Attributes.{text_at};
ghost use Rattle.jfr_verify.specs.Decided.{Decided};
ghost use Rattle.jfr_verify.specs.Strings.{AddsText, AreFirsts, AreNumbers, same_number};

use jfr_base::{NoMemory, Words};
use std::alloc::Global;
use std::collections::BTreeMap;

/// The numbers of the strings of two tables.
#[derive(Drop)]
pub(crate) struct Numbers<'t> {
    /// The first table.
    pub one: &'t Words,
    /// The second table.
    pub other: &'t Words,
    /// The number of each string of the first table.
    of_one: Vec<Option<u64>>,
    /// The number of each string of the second table, or none.
    of_other: Vec<Option<u64>>,
    /// The number of the empty text. An index past the end of a table counts as an empty string.
    of_empty: Option<u64>,
    ghost numbers: { AreNumbers one.now other.now of_one.items of_other.items of_empty },
}

impl<'t> Numbers<'t> {
    /// The numbers for two tables.
    pub fn new(alloc: Global, one: &'t Words, other: &'t Words) -> Result<Numbers<'t>, NoMemory>
        ensures one { IfOk result (λ numbers. numbers.one.now ≡ one.now) }
        ensures other { IfOk result (λ numbers. numbers.other.now ≡ other.now) }
    {
        let firsts = first_indices(alloc, one)?;
        let of_one = numbers_of(alloc, &firsts, one)?;
        let of_other = numbers_of(alloc, &firsts, other)?;
        let of_empty = number_of(&firsts, "");
        Ok(Numbers {
            one,
            other,
            of_one,
            of_other,
            of_empty,
        })
    }

    /// Whether string `one` of the first table and string `other` of the second have the same text. A string
    /// past the end of a table counts as empty.
    pub fn same_text(&self, one: u64, other: u64) -> bool
        ensures { Decided (text_at self.now.one.now one ≡ text_at self.now.other.now other) result }
    {
        same_number(
            number_at(&self.of_one, self.of_empty, one),
            number_at(&self.of_other, self.of_empty, other),
        )
    }
}

/// Whether both numbers exist and are equal.
fn same_number(one: Option<u64>, other: Option<u64>) -> bool
    ensures { result ≡ same_number one other }
{
    match (one, other) {
        (Some(one), Some(other)) => one == other,
        _ => false,
    }
}

/// The number of the string with this index, or that of the empty text past the end.
fn number_at(numbers: &[Option<u64>], of_empty: Option<u64>, index: u64) -> Option<u64>
    ensures { result ≡ get_or numbers.now index of_empty }
{
    match numbers.get(index as usize) {
        Some(number) => *number,
        None => of_empty,
    }
}

/// The number of a text; `None` if the first table doesn't have it.
fn number_of(firsts: &BTreeMap<&str, u64>, text: &str) -> Option<u64>
    ensures { result ≡ value_under firsts.now (chars text.now) }
{
    firsts.get(text).copied()
}

/// The text of the string with this index; empty if the table has no such string.
fn text_at<'t>(strings: &'t Words, index: u64) -> &'t str
    ensures { chars result.now ≡ text_at strings.now index }
{
    strings.get(index as usize).unwrap_or("")
}

/// For each string of a table, the number of its text, or none.
fn numbers_of(
    alloc: Global,
    firsts: &BTreeMap<&str, u64>,
    strings: &Words,
) -> Result<Vec<Option<u64>>, NoMemory>
    ensures { IfOk result (λ numbers. numbers.items ≡ map (value_under firsts.now) strings.now) }
{
    let mut numbers = Vec::with_capacity(alloc, strings.len())?;
    for text in strings.as_slice() {
        numbers.push(number_of(firsts, text.as_str()))?;
    }
    Ok(numbers)
}

/// For each text of a table, the index of the first string with it. If no string is empty, the empty text has
/// the index past the end.
fn first_indices<'t>(alloc: Global, strings: &'t Words) -> Result<BTreeMap<&'t str, u64>, NoMemory>
    ensures { IfOk result (AreFirsts strings.now) }
{
    let mut firsts = BTreeMap::new(alloc);
    for index in 0..strings.len() {
        add_text(&mut firsts, strings, index as u64)?;
    }
    add_text(&mut firsts, strings, strings.len() as u64)?;
    Ok(firsts)
}

/// Adds the index for the text of its string, unless an earlier string has the same text.
fn add_text<'t>(
    firsts: &mut BTreeMap<&'t str, u64>,
    strings: &'t Words,
    index: u64,
) -> Result<(), NoMemory>
    ensures ok { OnOk result (AddsText strings.now index firsts.old firsts.new) }
{
    let text = text_at(strings, index);
    if number_of(firsts, text).is_some() {
        return Ok(());
    }
    firsts.insert(text, index)?;
    Ok(())
}
