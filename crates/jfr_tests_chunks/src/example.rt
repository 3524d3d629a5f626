//! A whole program over a recording, and the examples of `jfr_example`.
ghost use Rattle.jfr_header.specs.Fronts.{Whole};

use crate::paths::words_of;
use crate::reading::with_chunk;
use jfr_base::{NoMemory, ReadFault, Words};
use jfr_chunk::Chunk;
use jfr_example::{constant_field, texts_of};
use jfr_fixtures::{KEYS, RINGS, jdk_like, with_classes};
use jfr_header::{ChunkCutter, Cut, Ending};
use jfr_outside::{MemoryPlace, Place};
use jfr_path::named;
use std::alloc::{AllocError, Global};
use std::process::Abort;
use std::test::Fail;

// The program, from a recording to the names of its threads. It can be copied as a start: `thread_names` reads the
// recording from any place, here from one in memory (jfr_system has one over files), and each function
// calls the ones after it.

/// The Java names of the threads of a recording's events, in order. The recording is the place's open input.
fn thread_names<P: Place>(alloc: Global, place: &mut P) -> Result<Words, Ending> {
    let names = field_names(alloc)?;
    let mut texts = Words::new(alloc);
    read_chunks(alloc, place, &names, &mut texts)?;
    Ok(texts)
}

/// Reads each chunk of a recording, and adds the texts to which the names lead from its events.
fn read_chunks<P: Place>(
    alloc: Global,
    place: &mut P,
    names: &Words,
    texts: &mut Words,
) -> Result<(), Ending> {
    let mut cutter = ChunkCutter::new(alloc, 0, 1);
    'chunks: loop {
        match cutter.next(place) {
            Cut::Chunk => {}
            Cut::End => return Ok(()),
            Cut::Refused(refusal) => return Err(Ending::Refused(refusal)),
            Cut::Failed => return Err(Ending::ReadFault),
            Cut::Memory => return Err(Ending::Memory),
        }
        match read_chunk(alloc, cutter.bytes(), names, texts) {
            Ok(()) => {}
            Err(fault) => return Err(Ending::of_chunk(cutter.number(), fault)),
        }
    }
}

/// The names of the fields that lead from an event to the Java name of its thread.
fn field_names(alloc: Global) -> Result<Words, NoMemory> {
    let mut names = Words::new(alloc);
    names.push("eventThread")?;
    names.push("javaName")?;
    Ok(names)
}

/// Reads a chunk, and adds the texts of its events.
fn read_chunk(
    alloc: Global,
    bytes: &[u8],
    names: &Words,
    texts: &mut Words,
) -> Result<(), ReadFault>
    requires { Whole bytes.now }
{
    let chunk = Chunk::read(alloc, bytes)?;
    add_texts(alloc, &chunk, names, texts)
}

/// Adds the text to which the names lead from each event that has one.
fn add_texts(
    alloc: Global,
    chunk: &Chunk<'_>,
    names: &Words,
    texts: &mut Words,
) -> Result<(), ReadFault> {
    for number in 0..chunk.event_count() {
        add_text(alloc, chunk, number, names, texts)?;
    }
    Ok(())
}

/// Adds the text of an event, if it has one.
fn add_text(
    alloc: Global,
    chunk: &Chunk<'_>,
    number: usize,
    names: &Words,
    texts: &mut Words,
) -> Result<(), NoMemory> {
    if let Some(event) = chunk.event(number) {
        if let Some(text) = named(alloc, chunk, &event, names)? {
            return texts.push_text(text);
        }
    }
    Ok(())
}

/// Adds a chunk twice.
fn push_twice(bytes: &mut Vec<u8>, chunk: &[u8]) -> Result<(), AllocError> {
    bytes.extend_from_slice(chunk)?;
    bytes.extend_from_slice(chunk)
}

/// A recording of two chunks, the same chunk twice.
fn two_chunks(alloc: Global) -> Result<Vec<u8>, AllocError> {
    let mut bytes = Vec::new(alloc);
    push_twice(&mut bytes, &jdk_like(alloc)?)?;
    Ok(bytes)
}

/// The names of the threads of the two chunks. The last of a chunk's three events has no thread.
const THREADS: &[&str] = &["main", "worker-renamed", "main", "worker-renamed"];

/// Puts a recording into a place, and opens it.
fn open_recording(place: &mut MemoryPlace, recording: &[u8]) -> Result<(), Fail> {
    place.put("a.jfr", recording)?;
    place.open_input("a.jfr")?;
    Ok(())
}

/// Compares the names of threads of the recording that is open.
fn compare_thread_names(
    rt: &impl Abort,
    alloc: Global,
    place: &mut MemoryPlace,
) -> Result<(), Fail> {
    let texts = thread_names(alloc, place)?;
    compare_words(rt, &texts, THREADS);
    Ok(())
}

#[test]
fn a_program_reads_names_of_threads(rt: HostRuntime) -> Result<(), Fail> {
    let mut place = MemoryPlace::new(rt.alloc());
    open_recording(&mut place, &two_chunks(rt.alloc())?)?;
    compare_thread_names(&rt, rt.alloc(), &mut place)
}

/// Compares words with these.
fn compare_words(rt: &impl Abort, words: &Words, expected: &[&str]) {
    assert_eq!(rt; words.len(), expected.len());
    for (number, word) in expected.iter().enumerate() {
        assert!(rt; words.get(number) == Some(*word), "{word}");
    }
}

// Fields of constants, from events.

/// An event, its field, a field of the constant to which that refers, and the bytes that are found.
type Row = (usize, usize, usize, Option<&'static [u8]>);

#[rattlefmt::skip]
static ROWS: [Row; 6] = [
    (0, 1, 1, Some(&[3, 1, 0x70])),
    (0, 1, 0, Some(&[2])),
    (1, 0, 1, Some(&[3, 1, 0x72])),
    (0, 0, 1, None),
    (0, 1, 2, None),
    (2, 0, 0, None),
];

/// Compares what is found for a row.
fn compare(rt: &impl Abort, chunk: &Chunk<'_>, row: &Row) {
    let (event, field, part, expected) = *row;
    match constant_field(chunk, event, field, part) {
        Some(node) => assert!(rt; node.bytes.get(node.at..node.end) == expected),
        None => assert!(rt; expected.is_none()),
    }
}

/// Compares what is found for each row.
fn compare_all(rt: &impl Abort, chunk: &Chunk<'_>) -> Result<(), Fail> {
    for row in ROWS.iter() {
        compare(rt, chunk, row);
    }
    Ok(())
}

#[test]
fn fields_of_constants_are_found(rt: HostRuntime) -> Result<(), Fail> {
    let bytes = with_classes(rt.alloc(), RINGS, 333)?;
    with_chunk(rt.alloc(), &bytes, |chunk| compare_all(&rt, chunk))
}

// Texts of all events.

/// Compares the texts to which names lead from the events of a chunk.
fn compare_texts_in(
    rt: &impl Abort,
    alloc: Global,
    chunk: &Chunk<'_>,
    names: &[&str],
    expected: &[&str],
) -> Result<(), Fail> {
    let words = words_of(alloc, names)?;
    let texts = texts_of(alloc, chunk, &words)?;
    compare_words(rt, &texts, expected);
    Ok(())
}

/// Records, names, and the texts to which they lead from the events.
type Texts = (
    &'static [u8],
    &'static [&'static str],
    &'static [&'static str],
);

/// Events from which names lead to no text have none: a field that isn't there, and a string that is no text in
/// the end.
const TEXTS: [Texts; 4] = [
    (RINGS, &["node", "text"], &["p", "r"]),
    (RINGS, &["node", "next", "text"], &["q", "s"]),
    (RINGS, &["n"], &[]),
    (KEYS, &["node", "text"], &["x"]),
];

/// Compares them in the chunk of the records.
fn compare_texts(
    rt: &impl Abort,
    alloc: Global,
    (records, names, expected): Texts,
) -> Result<(), Fail> {
    let bytes = with_classes(alloc, records, 333)?;
    with_chunk(alloc, &bytes, |chunk| {
        compare_texts_in(rt, alloc, chunk, names, expected)
    })
}

#[test]
fn texts_of_all_events_are_found(rt: HostRuntime) -> Result<(), Fail> {
    for texts in TEXTS.iter() {
        compare_texts(&rt, rt.alloc(), *texts)?;
    }
    Ok(())
}
