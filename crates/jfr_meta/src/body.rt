//! Reading the body of a metadata record, from left to right.
ghost use Rattle.std.specs.Prelude.{◌≡◌, ◌<◌, ◌≤◌, length, Ok, IfOk, MatchResult};
ghost use Rattle.jfr_base.specs.Formats.{run, times};
ghost use Rattle.jfr_meta.specs.Answers.{var_answer, Returns, IsFault};
ghost use Rattle.jfr_meta.specs.Body.{index, pair, element_format, meta_format};
ghost use Rattle.jfr_meta.specs.Heads.{head_format, head_answer, body_value};

use crate::strings::read_strings;
use crate::{Element, Elements, Pairs};
use jfr_base::{Flaw, ReadFault, Reason, Var, Words, read_within};
use std::alloc::Global;

/// The contents of a body: three integers, the table of strings, and the tree of elements.
#[derive(Drop)]
pub(crate) struct Body {
    pub start: u64,
    pub duration: u64,
    pub id: u64,
    pub strings: Words,
    pub root: Element,
}

/// The most levels of elements that a tree may have.
const LEVELS: u32 = 16;

/// The fewest bytes that an attribute can have.
const PAIR_LEN: usize = 2;

/// The fewest bytes that an element can have.
const ELEMENT_LEN: usize = 3;

/// What reading the tree of a body needs: the bytes of the body, which ends at `end`, and the number of its
/// strings.
#[derive(Clone, Copy)]
struct Reader<'a> {
    alloc: Global,
    bytes: &'a [u8],
    end: usize,
    strings: u64,
}

/// The integers before the strings, and the offset after them.
#[derive(Clone, Copy)]
struct Head {
    start: u64,
    duration: u64,
    id: u64,
    count: u64,
    end: usize,
}

/// Reads the integers before the strings.
fn read_head(bytes: &[u8], at: usize, end: usize) -> Result<Head, Flaw>
    requires order { at ≤ end }
    requires within { end ≤ length bytes.now }
    ensures exact { head_answer result ≡ run head_format bytes.now end at }
    ensures range { IfOk result (λ h. (at < h.end) × (h.end ≤ end)) }
{
    let start = read_within(bytes, at, end)?;
    let duration = read_within(bytes, start.end, end)?;
    let id = read_within(bytes, duration.end, end)?;
    let count = read_within(bytes, id.end, end)?;
    Ok(Head {
        start: start.value,
        duration: duration.value,
        id: id.value,
        count: count.value,
        end: count.end,
    })
}

/// Reads the whole body, which ends where the record ends.
pub(crate) fn read_body(
    alloc: Global,
    bytes: &[u8],
    at: usize,
    end: usize,
) -> Result<Body, ReadFault>
    requires order { at ≤ end }
    requires within { end ≤ length bytes.now }
    ensures exact { MatchResult result (λ b. run meta_format bytes.now end at ≡ Ok (record { value = body_value b; place = end })) (IsFault (run meta_format bytes.now end at)) }
{
    let head = read_head(bytes, at, end)?;
    let (strings, place) = read_strings(alloc, bytes, head.end, end, head.count)?;
    let reader = Reader {
        alloc,
        bytes,
        end,
        strings: head.count,
    };
    let (root, place) = read_element(reader, place, LEVELS)?;
    if place < end {
        return Err(ReadFault::Flawed(Flaw {
            offset: place as u64,
            reason: Reason::Trailing,
        }));
    }
    Ok(Body {
        start: head.start,
        duration: head.duration,
        id: head.id,
        strings,
        root,
    })
}

/// Reads an index into the table of strings.
fn read_index(reader: Reader<'_>, at: usize) -> Result<Var, Flaw>
    requires order { at ≤ reader.end }
    requires within { reader.end ≤ length reader.bytes.now }
    ensures exact { var_answer result ≡ run (index reader.entry.strings) reader.entry.bytes.now reader.entry.end at }
    ensures range { IfOk result (λ v. (at < v.end) × (v.end ≤ reader.entry.end)) }
{
    let index = read_within(reader.bytes, at, reader.end)?;
    if index.value < reader.strings {
        Ok(index)
    } else {
        Err(Flaw {
            offset: at as u64,
            reason: Reason::StringIndex,
        })
    }
}

/// Reads `count` attributes. Allocates at once for the most attributes that the bytes left can hold, so that
/// the list never grows.
fn read_pairs(reader: Reader<'_>, at: usize, count: u64) -> Result<(Pairs, usize), ReadFault>
    requires order { at ≤ reader.end }
    requires within { reader.end ≤ length reader.bytes.now }
    ensures exact { Returns (run (times count (pair reader.entry.strings)) reader.entry.bytes.now reader.entry.end at) result }
    ensures range { IfOk result (λ r. (at ≤ r.1) × (r.1 ≤ reader.entry.end)) }
{
    let room = count.min(((reader.end - at) / PAIR_LEN) as u64) as usize;
    let mut pairs = Pairs::with_capacity(reader.alloc, room)?;
    let mut place = at;
    for _ in 0..count {
        let key = read_index(reader, place)?;
        let value = read_index(reader, key.end)?;
        pairs.push(key.value, value.value)?;
        place = value.end;
    }
    Ok((pairs, place))
}

/// Reads the element that starts at `at` and has at most `levels` levels.
#[cycle(elements)]
fn read_element(reader: Reader<'_>, at: usize, levels: u32) -> Result<(Element, usize), ReadFault>
    requires order { at ≤ reader.end }
    requires within { reader.end ≤ length reader.bytes.now }
    ensures exact { Returns (run (element_format levels reader.entry.strings) reader.entry.bytes.now reader.entry.end at) result }
    ensures range { IfOk result (λ r. (at ≤ r.1) × (r.1 ≤ reader.entry.end)) }
{
    if levels == 0 {
        return Err(ReadFault::Flawed(Flaw {
            offset: at as u64,
            reason: Reason::TreeDeep,
        }));
    }
    let name = read_index(reader, at)?;
    let attributes = read_within(reader.bytes, name.end, reader.end)?;
    let (pairs, place) = read_pairs(reader, attributes.end, attributes.value)?;
    let count = read_within(reader.bytes, place, reader.end)?;
    let (children, place) = read_elements(reader, count.end, count.value, levels - 1)?;
    Ok((Element::new(at, name.value, pairs, children), place))
}

/// Reads `count` elements, each with at most `levels` levels. Allocates at once for the most elements that
/// the bytes left can hold, so that the list never grows.
#[cycle(elements)]
fn read_elements(
    reader: Reader<'_>,
    at: usize,
    count: u64,
    levels: u32,
) -> Result<(Elements, usize), ReadFault>
    requires order { at ≤ reader.end }
    requires within { reader.end ≤ length reader.bytes.now }
    ensures exact { Returns (run (times count (element_format levels reader.entry.strings)) reader.entry.bytes.now reader.entry.end at) result }
    ensures range { IfOk result (λ r. (at ≤ r.1) × (r.1 ≤ reader.entry.end)) }
{
    let room = count.min(((reader.end - at) / ELEMENT_LEN) as u64) as usize;
    let mut elements = Elements::with_capacity(reader.alloc, room)?;
    let mut place = at;
    for _ in 0..count {
        let (element, next) = read_element(reader, place, levels)?;
        elements.push(element)?;
        place = next;
    }
    Ok((elements, place))
}
