//! The text of the totals, and their JSON.
use crate::kinds::oddly_named;
use crate::shown::with_chunk;
use jfr_chunk::Chunk;
use jfr_fixtures::{CLASSES, RINGS, Times, chunk_at, inert, inert_at, with_classes, with_metadata};
use jfr_show::{Summary, summary_json, summary_text};
use std::alloc::{AllocError, Global};
use std::process::Abort;
use std::test::Fail;

/// The most chunks that may be added.
const MOST: u64 = 17_000_000_000;

/// Adds the totals of a chunk.
fn add(summary: &mut Summary, chunk: &Chunk<'_>) -> Result<(), Fail> {
    if summary.chunks() >= MOST {
        Err("too many chunks")?;
    }
    summary.add(chunk)?;
    Ok(())
}

/// Adds each chunk.
fn add_all(alloc: Global, summary: &mut Summary, chunks: &[&[u8]]) -> Result<(), Fail> {
    for bytes in chunks {
        with_chunk(alloc, bytes, |chunk| add(summary, chunk))?;
    }
    Ok(())
}

/// Compares the text of the totals, and their JSON.
fn compare_texts(
    rt: &impl Abort,
    alloc: Global,
    summary: &Summary,
    (text, json): (&str, &str),
) -> Result<(), Fail> {
    let shown = summary_text(alloc, summary)?;
    assert_eq!(rt; shown.as_str(), text);
    let line = summary_json(alloc, summary)?;
    assert_eq!(rt; line.as_str(), json);
    Ok(())
}

/// Adds each chunk, and compares the texts.
fn compare_sum(
    rt: &impl Abort,
    alloc: Global,
    summary: &mut Summary,
    chunks: &[&[u8]],
    texts: (&str, &str),
) -> Result<(), Fail> {
    add_all(alloc, summary, chunks)?;
    compare_texts(rt, alloc, summary, texts)
}

/// Compares the totals of a recording of these chunks.
fn compare(
    rt: &impl Abort,
    alloc: Global,
    chunks: &[&[u8]],
    texts: (&str, &str),
) -> Result<(), Fail> {
    let mut summary = Summary::new(alloc);
    compare_sum(rt, alloc, &mut summary, chunks, texts)
}

#[test]
fn no_chunks_have_no_totals(rt: HostRuntime) -> Result<(), Fail> {
    compare(&rt, rt.alloc(), &[], ("", ""))
}

const OF_RINGS: &str = "version 2.1
chunks 1
bytes 362
start 1000
duration 5
events 2
checkpoints 1
constants 4
inert 0
t.A 1 5
t.B 1 3
";

const RINGS_JSON: &str =
    r#"{"version":"2.1","chunks":1,"bytes":362,"start":1000,"duration":5,"events":2,"checkpoints":1,"constants":4,"inert":0,"types":[{"name":"t.A","events":1,"bytes":5},{"name":"t.B","events":1,"bytes":3}]}
"#;

#[test]
fn one_chunk_is_counted(rt: HostRuntime) -> Result<(), Fail> {
    let rings = with_classes(rt.alloc(), RINGS, 333)?;
    compare(&rt, rt.alloc(), &[&rings], (OF_RINGS, RINGS_JSON))
}

const OF_INERT: &str = "version 2.1
chunks 1
bytes 141
start 1000
duration 5
events 0
checkpoints 1
constants 0
inert 3
";

const INERT_JSON: &str =
    r#"{"version":"2.1","chunks":1,"bytes":141,"start":1000,"duration":5,"events":0,"checkpoints":1,"constants":0,"inert":3,"types":[]}
"#;

#[test]
fn inert_records_are_counted(rt: HostRuntime) -> Result<(), Fail> {
    let inert = inert(rt.alloc())?;
    compare(&rt, rt.alloc(), &[&inert], (OF_INERT, INERT_JSON))
}

const OF_RINGS_AND_INERT: &str = "version 2.1
chunks 2
bytes 503
start 1000
duration 10
events 2
checkpoints 2
constants 4
inert 3
t.A 1 5
t.B 1 3
";

const RINGS_AND_INERT_JSON: &str =
    r#"{"version":"2.1","chunks":2,"bytes":503,"start":1000,"duration":10,"events":2,"checkpoints":2,"constants":4,"inert":3,"types":[{"name":"t.A","events":1,"bytes":5},{"name":"t.B","events":1,"bytes":3}]}
"#;

#[test]
fn chunks_add_up(rt: HostRuntime) -> Result<(), Fail> {
    let rings = with_classes(rt.alloc(), RINGS, 333)?;
    let inert = inert(rt.alloc())?;
    compare(
        &rt,
        rt.alloc(),
        &[&rings, &inert],
        (OF_RINGS_AND_INERT, RINGS_AND_INERT_JSON),
    )
}

const FIRST: Times = Times {
    start: 7,
    duration: u64::MAX,
    minor: 0,
};

const SECOND: Times = Times {
    start: 8,
    duration: u64::MAX,
    minor: 1,
};

const OF_THREE_CHUNKS: &str = "version 2.0
chunks 3
bytes 865
start 7
duration 55340232221128654845
events 4
checkpoints 3
constants 8
inert 3
t.A 2 10
t.B 2 6
";

const THREE_CHUNKS_JSON: &str =
    r#"{"version":"2.0","chunks":3,"bytes":865,"start":7,"duration":55340232221128654845,"events":4,"checkpoints":3,"constants":8,"inert":3,"types":[{"name":"t.A","events":2,"bytes":10},{"name":"t.B","events":2,"bytes":6}]}
"#;

#[test]
fn first_chunk_gives_the_version_and_the_start(rt: HostRuntime) -> Result<(), Fail> {
    let inert = inert_at(rt.alloc(), FIRST)?;
    let rings = chunk_at(rt.alloc(), SECOND, &[CLASSES, RINGS], 333, 68)?;
    compare(
        &rt,
        rt.alloc(),
        &[&inert, &rings, &rings],
        (OF_THREE_CHUNKS, THREE_CHUNKS_JSON),
    )
}

/// Where the index of the name of the last class lies in the metadata record, and that of `t.A`.
const LAST_NAME: usize = 242;

const NAME_A: u8 = 12;

/// The chunk of rings, where both event classes have the name `t.A`.
fn rings_of_one_name(alloc: Global) -> Result<Vec<u8>, AllocError> {
    let mut classes = Vec::from_slice(alloc, CLASSES)?;
    if let Some(name) = classes.get_mut(LAST_NAME) {
        *name = NAME_A;
    }
    with_metadata(alloc, &classes, RINGS, 333)
}

const OF_ONE_NAME: &str = "version 2.1
chunks 1
bytes 362
start 1000
duration 5
events 2
checkpoints 1
constants 4
inert 0
t.A 2 8
";

const ONE_NAME_JSON: &str =
    r#"{"version":"2.1","chunks":1,"bytes":362,"start":1000,"duration":5,"events":2,"checkpoints":1,"constants":4,"inert":0,"types":[{"name":"t.A","events":2,"bytes":8}]}
"#;

#[test]
fn classes_of_one_name_are_counted_together(rt: HostRuntime) -> Result<(), Fail> {
    let rings = rings_of_one_name(rt.alloc())?;
    compare(&rt, rt.alloc(), &[&rings], (OF_ONE_NAME, ONE_NAME_JSON))
}

/// The odd name comes first, since its bytes are smaller.
const OF_ODD_NAME: &str = "version 2.1
chunks 1
bytes 362
start 1000
duration 5
events 2
checkpoints 1
constants 4
inert 0
\"\u{1}
 1 5
t.B 1 3
";

const ODD_NAME_JSON: &str =
    r#"{"version":"2.1","chunks":1,"bytes":362,"start":1000,"duration":5,"events":2,"checkpoints":1,"constants":4,"inert":0,"types":[{"name":"\"\u0001\n","events":1,"bytes":5},{"name":"t.B","events":1,"bytes":3}]}
"#;

#[test]
fn names_are_escaped_in_json(rt: HostRuntime) -> Result<(), Fail> {
    let rings = oddly_named(rt.alloc())?;
    compare(&rt, rt.alloc(), &[&rings], (OF_ODD_NAME, ODD_NAME_JSON))
}
