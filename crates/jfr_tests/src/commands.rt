//! The commands that write text, and the sample.
ghost use Rattle.std.specs.Prelude.{◌≤◌};

use crate::contents::FilePart::Chunk;
use crate::contents::{Content, INERT, OF_RINGS};
use crate::places::{place_of, place_with};
use crate::plays::{Play, see_play};
use crate::runs::{SCRUB, failing_sink, says, says_three_bytes, see_run, status_of, words};
use jfr_fixtures::{CLASSES, STRINGS};
use jfr_outside::{MemoryPlace, MemorySink, Words};
use jfr_sample::sample;
use std::alloc::Global;
use std::process::Abort;
use std::test::Fail;

/// Chunks of rings, of strings that are keys, and with inert records.
#[rattlefmt::skip]
const SMALL_CHUNKS: &[(&str, Content)] = &[
    ("rings.jfr", (&[OF_RINGS], &[])),
    ("strings.jfr", (&[Chunk(&[CLASSES, STRINGS], 330, 68)], &[])),
    ("inert.jfr", (&[INERT], &[])),
];

const SHALLOW: &str = "t.A {\n  n = 300\n  node = t.Node#1\n}\nt.B {\n  node = t.Node#3\n}\n";

const DEEP_A: &str = "t.A {
  n = 300
  node = t.Node {
    next = t.Node {
      next = t.Node#1
      text = \"q\"
    }
    text = \"p\"
  }
}
";

const DEEP: &str = "t.A {
  n = 300
  node = t.Node {
    next = t.Node {
      next = t.Node#1
      text = \"q\"
    }
    text = \"p\"
  }
}
t.B {
  node = t.Node {
    next = t.Node {
      next = t.Node#3
      text = \"s\"
    }
    text = \"r\"
  }
}
";

const KEYS_OF_STRINGS: &str = "t.A {
  n = 300
  node = t.Node {
    next = t.Node#0 (missing)
    text = java.lang.String#2
  }
}
";

const JSON: &str =
    r#"{"type":"t.A","values":{"n":300,"node":{"next":{"class":"t.Node","key":2},"text":"p"}}}
{"type":"t.B","values":{"node":{"next":{"class":"t.Node","key":4},"text":"r"}}}
"#;

const TOTALS: &str = "version 2.1
chunks 1
bytes 362
start 1000
duration 5
events 2
checkpoints 1
constants 4
inert 0
t.A 1 5
t.B 1 3
";

const TOTALS_JSON: &str =
    r#"{"version":"2.1","chunks":1,"bytes":362,"start":1000,"duration":5,"events":2,"checkpoints":1,"constants":4,"inert":0,"types":[{"name":"t.A","events":1,"bytes":5},{"name":"t.B","events":1,"bytes":3}]}
"#;

const TOTALS_OF_INERT: &str = "version 2.1
chunks 1
bytes 141
start 1000
duration 5
events 0
checkpoints 1
constants 0
inert 3
";

const CLASSES_OF_RINGS: &str = "chunk 1
long id 5
java.lang.String id 6
t.Node id 7
  next: t.Node constant
  text: java.lang.String
t.A id 8 super jdk.jfr.Event
  n: long
  node: t.Node constant
t.B id 9 super jdk.jfr.Event
  node: t.Node constant
";

const CLASSES_JSON: &str =
    r#"{"chunk":1,"name":"long","id":5,"super":null,"categories":[],"fields":[]}
{"chunk":1,"name":"java.lang.String","id":6,"super":null,"categories":[],"fields":[]}
{"chunk":1,"name":"t.Node","id":7,"super":null,"categories":[],"fields":[{"name":"next","class":"t.Node","class_id":7,"constant":true,"array":false},{"name":"text","class":"java.lang.String","class_id":6,"constant":false,"array":false}]}
{"chunk":1,"name":"t.A","id":8,"super":"jdk.jfr.Event","categories":[],"fields":[{"name":"n","class":"long","class_id":5,"constant":false,"array":false},{"name":"node","class":"t.Node","class_id":7,"constant":true,"array":false}]}
{"chunk":1,"name":"t.B","id":9,"super":"jdk.jfr.Event","categories":[],"fields":[{"name":"node","class":"t.Node","class_id":7,"constant":true,"array":false}]}
"#;

/// What the commands that write text write of small chunks.
#[rattlefmt::skip]
static TEXTS: Play = Play {
    files: SMALL_CHUNKS,
    faults: &[],
    commands: &[
        (&["print", "--depth", "0", "rings.jfr"], 0, SHALLOW, ""),
        (&["print", "--depth", "2", "rings.jfr"], 0, DEEP, ""),
        (&["print", "--events", "A", "rings.jfr"], 0, DEEP_A, ""),
        (&["print", "strings.jfr"], 0, KEYS_OF_STRINGS, ""),
        (&["print", "--json", "--depth", "1", "rings.jfr"], 0, JSON, ""),
        (&["print", "--categories", "none", "rings.jfr"], 0, "", ""),
        (&["summary", "rings.jfr"], 0, TOTALS, ""),
        (&["summary", "inert.jfr"], 0, TOTALS_OF_INERT, ""),
        (&["summary", "--json", "rings.jfr"], 0, TOTALS_JSON, ""),
        (&["metadata", "rings.jfr"], 0, CLASSES_OF_RINGS, ""),
        (&["metadata", "--json", "rings.jfr"], 0, CLASSES_JSON, ""),
        (&["metadata", "--json", "inert.jfr"], 0, "", ""),
    ],
    left: &[],
};

#[test]
fn texts_are_written(rt: HostRuntime) -> Result<(), Fail> {
    see_play(&rt, rt.alloc(), &TEXTS)
}

const SAMPLE: &str = "events 7
kept events 4
constants 7
kept constants 4
bytes 418
kept bytes 362
";

static SAMPLED: Play = Play {
    files: &[],
    faults: &[],
    commands: &[(&["sample", "0", "7"], 0, SAMPLE, "")],
    left: &[],
};

#[test]
fn the_sample_is_counted(rt: HostRuntime) -> Result<(), Fail> {
    see_play(&rt, rt.alloc(), &SAMPLED)
}

/// A place with the recording of a sample.
fn sample_place(alloc: Global, seed: u32, events: u32) -> Result<MemoryPlace, Fail>
    requires some { 1 ≤ events }
    requires most { events ≤ 1000000 }
{
    let recording = sample(alloc, seed, events)?;
    Ok(place_with(alloc, "a.jfr", &recording)?)
}

const SCRUB_OF_FIRST: &[&str] = &["scrub", "--include-events", "t.A", "a.jfr", "b.jfr"];

/// Scrubs it, and counts the bytes of what is left.
fn scrubbed_size(rt: &impl Abort, alloc: Global, place: &mut MemoryPlace) -> Result<usize, Fail> {
    says(rt, alloc, place, (SCRUB_OF_FIRST, 0, "", ""))?;
    Ok(place.file("b.jfr").ok_or("no output")?.len())
}

/// Runs a command that needs no file, and compares the end of what it writes.
fn see_end(rt: &impl Abort, alloc: Global, words: &Words, end: &[u8]) {
    let mut place = MemoryPlace::new(alloc);
    let mut out = MemorySink::new(alloc);
    let mut err = MemorySink::new(alloc);
    let status = status_of(alloc, words, &mut place, &mut out, &mut err);
    assert!(rt; status == 0 && out.bytes().ends_with(end));
}

/// The last line of the command `sample` reports this number of bytes.
fn see_last_line(rt: &impl Abort, alloc: Global, line: &[&str], size: usize) -> Result<(), Fail> {
    let words = words(alloc, line)?;
    let expected = format!(in alloc; "kept bytes {size}\n")?;
    see_end(rt, alloc, &words, expected.as_bytes());
    Ok(())
}

/// What is left of a sample has the number of bytes that the command reports.
fn see_sample(
    rt: &impl Abort,
    alloc: Global,
    seed: u32,
    events: u32,
    line: &[&str],
) -> Result<(), Fail>
    requires some { 1 ≤ events }
    requires most { events ≤ 1000000 }
{
    let mut place = sample_place(alloc, seed, events)?;
    let size = scrubbed_size(rt, alloc, &mut place)?;
    see_last_line(rt, alloc, line, size)
}

#[test]
fn the_sample_is_scrubbed_as_a_file(rt: HostRuntime) -> Result<(), Fail> {
    see_sample(&rt, rt.alloc(), 0, 7, &["sample", "0", "7"])?;
    see_sample(&rt, rt.alloc(), 1, 2000, &["sample", "1", "2000"])?;
    see_sample(&rt, rt.alloc(), 1, 1_000_000, &["sample", "1", "1000000"])
}

/// A stream that fails keeps the text that it took.
#[test]
fn faults_of_streams_are_reported(rt: HostRuntime) -> Result<(), Fail> {
    let mut place = place_of(rt.alloc(), TEXTS.files)?;
    let print = &["print", "rings.jfr"];
    says_three_bytes(&rt, rt.alloc(), &mut place, print, "t.A")
}

/// A line that can't be written changes no status.
fn see_cut_line(rt: &impl Abort, alloc: Global, place: &mut MemoryPlace) -> Result<(), Fail> {
    let mut err = failing_sink(alloc, 5)?;
    let mut out = MemorySink::new(alloc);
    see_run(
        rt,
        alloc,
        place,
        &mut out,
        &mut err,
        (SCRUB, 2, "", "chunk"),
    )
}

#[test]
fn lines_that_fail_change_no_status(rt: HostRuntime) -> Result<(), Fail> {
    let mut place = place_with(rt.alloc(), "a.jfr", b"")?;
    see_cut_line(&rt, rt.alloc(), &mut place)
}
