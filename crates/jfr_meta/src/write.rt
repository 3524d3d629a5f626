//! Writing a metadata record.
ghost use Rattle.std.specs.Prelude.{◌≡◌, ◌+◌, ◌-◌, ◌^◌, ◌<◌, ◌≤◌, ◌++◌, length, IfOk, OnOk};
ghost use Rattle.std.specs.List.{flat_map, AllByRecursion};
ghost use Rattle.std.specs.Str.{chars};
ghost use Rattle.jfr_base.specs.Integer.{spell, spell_in, FitsIn};
ghost use Rattle.jfr_meta.specs.Written.{IsText, text_bytes, pair_bytes, tree_bytes, table_bytes, opening_bytes, record_bytes, capped, depth, HasIndices, ReadsBack};

use crate::{Element, Elements, Pairs};
use jfr_base::{NoMemory, Words, push_in, push_var, var_len};
use jfr_frame::METADATA_TYPE;
use jfr_text::{EMPTY_BYTE, UTF8_BYTE};
use std::alloc::{AllocError, Global};

/// The number of bytes that the size of a record takes.
const SIZE_LEN: usize = 5;

/// The number of bytes that the size and the type of a record take.
pub(crate) const FRAME_LEN: usize = SIZE_LEN + 1;

/// The integers of a body before its strings, except for their number.
#[derive(Clone, Copy)]
pub(crate) struct Stamp {
    pub start: u64,
    pub duration: u64,
    pub id: u64,
}

fn push_size(out: &mut Vec<u8>, size: u64) -> Result<(), AllocError>
    requires { FitsIn size 5 }
    ensures ok { OnOk result (out.new.items ≡ out.old.items ++ spell_in 5 size) }
{
    push_in(out, size, SIZE_LEN)
}

fn push_text(out: &mut Vec<u8>, text: &str) -> Result<(), AllocError>
    ensures ok { OnOk result (out.new.items ≡ out.old.items ++ text_bytes (chars text.now)) }
{
    if text.is_empty() {
        out.push(EMPTY_BYTE)?;
        return Ok(());
    }
    out.push(UTF8_BYTE)?;
    push_var(out, text.len() as u64)?;
    out.extend_from_slice(text.as_bytes())?;
    Ok(())
}

fn push_texts(out: &mut Vec<u8>, strings: &Words) -> Result<(), AllocError>
    ensures texts { OnOk result (AllByRecursion IsText strings.now) }
    ensures ok { OnOk result (out.new.items ≡ out.old.items ++ flat_map text_bytes strings.now) }
{
    for text in strings.as_slice() {
        push_text(out, text.as_str())?;
    }
    Ok(())
}

fn push_pairs(out: &mut Vec<u8>, pairs: &Pairs) -> Result<(), AllocError>
    ensures ok { OnOk result (out.new.items ≡ out.old.items ++ flat_map pair_bytes pairs.now) }
{
    for (key, value) in pairs.as_slice() {
        push_var(out, *key)?;
        push_var(out, *value)?;
    }
    Ok(())
}

#[cycle(writing)]
fn push_element(out: &mut Vec<u8>, element: &Element) -> Result<(), AllocError>
    ensures ok { OnOk result (out.new.items ≡ out.old.items ++ tree_bytes element.now) }
{
    push_var(out, element.name())?;
    push_var(out, element.attributes().len() as u64)?;
    push_pairs(out, element.attributes())?;
    push_var(out, element.children().len() as u64)?;
    push_elements(out, element.children())
}

#[cycle(writing)]
fn push_elements(out: &mut Vec<u8>, elements: &Elements) -> Result<(), AllocError>
    ensures ok { OnOk result (out.new.items ≡ out.old.items ++ flat_map tree_bytes elements.now) }
{
    for element in elements.as_slice() {
        push_element(out, element)?;
    }
    Ok(())
}

fn text_len(text: &str) -> u64
    ensures { result ≡ capped (length (text_bytes (chars text.now))) }
{
    if text.is_empty() {
        return 1;
    }
    let len = text.len() as u64;
    len.saturating_add(var_len(len) as u64 + 1)
}

pub(crate) fn texts_len(strings: &Words) -> u64
    ensures { result ≡ capped (length (flat_map text_bytes strings.now)) }
{
    let mut len: u64 = 0;
    for text in strings.as_slice() {
        len = len.saturating_add(text_len(text.as_str()));
    }
    len
}

fn pairs_len(pairs: &Pairs) -> u64
    ensures { result ≡ capped (length (flat_map pair_bytes pairs.now)) }
{
    let mut len: u64 = 0;
    for (key, value) in pairs.as_slice() {
        len = len.saturating_add((var_len(*key) + var_len(*value)) as u64);
    }
    len
}

#[cycle(measuring)]
fn element_len(element: &Element) -> u64
    ensures { result ≡ capped (length (tree_bytes element.now)) }
{
    let attributes = element.attributes();
    let children = element.children();
    let integers = var_len(element.name())
        + var_len(attributes.len() as u64)
        + var_len(children.len() as u64);
    pairs_len(attributes)
        .saturating_add(integers as u64)
        .saturating_add(elements_len(children))
}

#[cycle(measuring)]
fn elements_len(elements: &Elements) -> u64
    ensures { result ≡ capped (length (flat_map tree_bytes elements.now)) }
{
    let mut len: u64 = 0;
    for element in elements.as_slice() {
        len = len.saturating_add(element_len(element));
    }
    len
}

/// The length of the strings and the tree as `write_metadata` writes them, without the number of strings
/// before them. `u64::MAX` if it is greater than that.
pub fn metadata_len(strings: &Words, root: &Element) -> u64
    requires { depth root.now ≤ 16 }
    ensures { result ≡ capped (length (table_bytes strings.now root.now)) }
{
    texts_len(strings).saturating_add(element_len(root))
}

/// Writes all of a record of `size` bytes before its tree.
pub(crate) fn push_opening(
    out: &mut Vec<u8>,
    size: u64,
    stamp: Stamp,
    strings: &Words,
) -> Result<(), AllocError>
    requires { FitsIn size 5 }
    ensures texts { OnOk result (AllByRecursion IsText strings.now) }
    ensures ok { OnOk result (out.new.items ≡ out.old.items ++ opening_bytes size stamp.start stamp.duration stamp.id strings.now) }
{
    push_size(out, size)?;
    // The type is below 128, so its spelling is this one byte.
    out.push(METADATA_TYPE as u8)?;
    push_var(out, stamp.start)?;
    push_var(out, stamp.duration)?;
    push_var(out, stamp.id)?;
    push_var(out, strings.len() as u64)?;
    push_texts(out, strings)
}

/// The metadata record with these strings and this tree. Its size takes five bytes; every other integer has
/// its shortest encoding; each string is UTF-8, and an empty one only a kind byte. Reading the record gives
/// the same strings and tree, except for the offsets of the elements.
pub fn write_metadata(
    alloc: Global,
    start: u64,
    duration: u64,
    id: u64,
    strings: &Words,
    root: &Element,
) -> Result<Vec<u8>, NoMemory>
    requires size { length (table_bytes strings.now root.now) < 2 ^ 29 }
    requires depth { depth root.now ≤ 16 }
    requires indices { HasIndices (length strings.now) root.now }
    ensures texts { IfOk result (λ bytes. AllByRecursion IsText strings.now) }
    ensures exact { IfOk result (λ bytes. bytes.items ≡ record_bytes start duration id strings.now root.now) }
    ensures read_back { IfOk result (λ bytes. ReadsBack bytes.items start duration id strings.now root.now) }
{
    let count = strings.len() as u64;
    let head = var_len(start) + var_len(duration) + var_len(id) + var_len(count);
    let size = metadata_len(strings, root) + (FRAME_LEN + head) as u64;
    let stamp = Stamp {
        start,
        duration,
        id,
    };
    let mut out = Vec::with_capacity(alloc, size as usize)?;
    push_opening(&mut out, size, stamp, strings)?;
    push_element(&mut out, root)?;
    Ok(out)
}
