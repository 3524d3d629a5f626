//! Where paths and names lead.
use crate::reading::{read, with_chunk};
use jfr_chunk::Chunk;
use jfr_fixtures::{KEYS, RINGS, STRINGS, with_classes};
use jfr_outside::{NoMemory, Text, Words};
use jfr_path::{Path, fields_of, leads, named};
use jfr_value::Step;
use std::alloc::Global;
use std::process::Abort;
use std::test::Fail;

/// Adds steps to a path.
fn push_steps(path: &mut Path, steps: &[Step]) -> Result<(), NoMemory> {
    for step in steps {
        path.push(*step)?;
    }
    Ok(())
}

/// The path of these steps.
fn path_of(alloc: Global, steps: &[Step]) -> Result<Path, NoMemory> {
    let mut path = Path::new(alloc);
    push_steps(&mut path, steps)?;
    Ok(path)
}

/// Where a path leads from the fields of the first event.
fn place_at(
    alloc: Global,
    chunk: &Chunk<'_>,
    steps: &[Step],
) -> Result<Option<(usize, usize)>, Fail> {
    let event = chunk.event(0).ok_or("no event")?;
    let path = path_of(alloc, steps)?;
    let start = fields_of(chunk, &event);
    match leads(chunk, &start, &path) {
        Some(node) => Ok(Some((node.at, node.end))),
        None => Ok(None),
    }
}

/// A reference of the first event, and from node to node of its ring.
const NODE: Step = Step::Field(1);

const NEXT: Step = Step::Field(0);

const TEXT: Step = Step::Field(1);

const FOLLOW: Step = Step::Follow;

/// Around a ring of two nodes.
const SECOND: &[Step] = &[NODE, FOLLOW, NEXT, FOLLOW];

const BACK_TO_THE_FIRST: &[Step] = &[NODE, FOLLOW, NEXT, FOLLOW, NEXT, FOLLOW];

/// Through a string that is a key, and around a ring of them.
const KEY: &[Step] = &[NODE, FOLLOW, TEXT, FOLLOW];

const KEY_OF_A_KEY: &[Step] = &[NODE, FOLLOW, TEXT, FOLLOW, FOLLOW, FOLLOW];

/// Steps, and where they lead.
type Led = (&'static [Step], Option<(usize, usize)>);

/// Compares where a path leads.
fn compare_path(
    rt: &impl Abort,
    alloc: Global,
    chunk: &Chunk<'_>,
    (steps, expected): Led,
) -> Result<(), Fail> {
    assert_eq!(rt; place_at(alloc, chunk, steps)?, expected);
    Ok(())
}

/// Compares where paths lead in a chunk.
fn compare_paths_in(
    rt: &impl Abort,
    alloc: Global,
    chunk: &Chunk<'_>,
    paths: &[Led],
) -> Result<(), Fail> {
    for path in paths {
        compare_path(rt, alloc, chunk, *path)?;
    }
    Ok(())
}

/// Compares where paths lead in the chunk of these records.
fn compare_paths(
    rt: &impl Abort,
    alloc: Global,
    records: &[u8],
    last: u64,
    paths: &[Led],
) -> Result<(), Fail> {
    let bytes = with_classes(alloc, records, last)?;
    with_chunk(alloc, &bytes, |chunk| {
        compare_paths_in(rt, alloc, chunk, paths)
    })
}

/// Through fields and constants, around a ring and back to where it began.
const AROUND_A_RING: [Led; 5] = [
    (&[], Some((327, 330))),
    (&[NODE], Some((329, 330))),
    (&[NODE, FOLLOW], Some((343, 347))),
    (SECOND, Some((348, 352))),
    (BACK_TO_THE_FIRST, Some((343, 347))),
];

/// Where there is no such field, item or constant.
const NOWHERE: [Led; 5] = [
    (&[FOLLOW], None),
    (&[Step::Field(2)], None),
    (&[Step::Item(0)], None),
    (&[NODE, NEXT], None),
    (&[NODE, FOLLOW, TEXT, FOLLOW], None),
];

/// In the chunk of rings, paths lead around a ring, or nowhere.
#[test]
fn paths_lead_around_a_ring(rt: HostRuntime) -> Result<(), Fail> {
    compare_paths(&rt, rt.alloc(), RINGS, 333, &AROUND_A_RING)?;
    compare_paths(&rt, rt.alloc(), RINGS, 333, &NOWHERE)
}

/// Through strings that are keys, also of themselves.
const THROUGH_STRINGS: [Led; 4] = [
    (&[NODE, FOLLOW, TEXT], Some((341, 343))),
    (KEY, Some((346, 348))),
    (KEY_OF_A_KEY, Some((349, 351))),
    (&[NODE, FOLLOW, NEXT, FOLLOW], None),
];

/// In the chunk of strings, paths lead through strings.
#[test]
fn paths_lead_through_strings(rt: HostRuntime) -> Result<(), Fail> {
    compare_paths(&rt, rt.alloc(), STRINGS, 330, &THROUGH_STRINGS)
}

/// Adds names to words.
fn push_names(words: &mut Words, names: &[&str]) -> Result<(), NoMemory> {
    for name in names {
        words.push(name)?;
    }
    Ok(())
}

/// The words of these names.
pub(crate) fn words_of(alloc: Global, names: &[&str]) -> Result<Words, NoMemory> {
    let mut words = Words::new(alloc);
    push_names(&mut words, names)?;
    Ok(words)
}

/// The text to which names lead from an event.
fn text_of(
    alloc: Global,
    chunk: &Chunk<'_>,
    number: usize,
    names: &[&str],
) -> Result<Option<Text>, Fail> {
    let event = chunk.event(number).ok_or("no event")?;
    let words = words_of(alloc, names)?;
    Ok(named(alloc, chunk, &event, &words)?)
}

/// The number of an event, names, and the text to which they lead from it.
type Named = (usize, &'static [&'static str], Option<&'static str>);

/// Compares a text to which names lead.
fn compare_text(
    rt: &impl Abort,
    alloc: Global,
    chunk: &Chunk<'_>,
    (number, names, expected): Named,
) -> Result<(), Fail> {
    let text = text_of(alloc, chunk, number, names)?;
    assert_eq!(rt; text.as_ref().map(Text::as_str), expected);
    Ok(())
}

/// Compares the texts to which names lead in a chunk.
fn compare_texts_in(
    rt: &impl Abort,
    alloc: Global,
    chunk: &Chunk<'_>,
    texts: &[Named],
) -> Result<(), Fail> {
    for text in texts {
        compare_text(rt, alloc, chunk, *text)?;
    }
    Ok(())
}

/// Compares the texts to which names lead in the chunk of these records.
fn compare_texts(
    rt: &impl Abort,
    alloc: Global,
    records: &[u8],
    last: u64,
    texts: &[Named],
) -> Result<(), Fail> {
    let bytes = with_classes(alloc, records, last)?;
    let chunk = read(alloc, &bytes)?;
    compare_texts_in(rt, alloc, &chunk, texts)
}

/// Names lead through references to texts, and through strings that are keys. A string that is no text
/// in the end, and a field that isn't there, have none.
const OF_RINGS: &[Named] = &[
    (0, &["node", "text"], Some("p")),
    (0, &["node", "next", "text"], Some("q")),
    (0, &["node", "next", "next", "text"], Some("p")),
    (1, &["node", "text"], Some("r")),
    (0, &["n"], None),
    (0, &["node"], None),
    (0, &["text"], None),
];

const OF_KEYS: &[Named] = &[
    (0, &["node", "text"], None),
    (1, &["node", "text"], Some("x")),
];

const OF_STRINGS: &[Named] = &[(0, &["node", "text"], None)];

#[test]
fn names_lead_to_texts(rt: HostRuntime) -> Result<(), Fail> {
    compare_texts(&rt, rt.alloc(), RINGS, 333, OF_RINGS)?;
    compare_texts(&rt, rt.alloc(), KEYS, 333, OF_KEYS)?;
    compare_texts(&rt, rt.alloc(), STRINGS, 330, OF_STRINGS)
}
