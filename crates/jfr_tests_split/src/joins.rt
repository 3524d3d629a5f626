//! Files of a folder joined, over places in memory.
use crate::places::{Script, cut_into_d, finish, follow, join};
use crate::recordings::{chunk, recording};
use jfr_base::{Reason, Refusal};
use jfr_header::Ending;
use jfr_outside::{Call, MemoryPlace, NoMemory, SteadyPlace};
use std::alloc::Global;
use std::process::Abort;
use std::test::Fail;

/// A recording of which chunks are cut into parts, by how many chunks a part may have.
struct Round {
    chunks: u8,
    max_chunks: u64,
}

#[rattlefmt::skip]
static ROUNDS: [Round; 4] = [
    Round { chunks: 3, max_chunks: 2 },
    Round { chunks: 1, max_chunks: 1 },
    Round { chunks: 12, max_chunks: 1 },
    Round { chunks: 4, max_chunks: 9 },
];

/// Cuts a recording into parts, joins them, and compares what comes of that.
fn see_joined(
    rt: &impl Abort,
    alloc: Global,
    place: &mut SteadyPlace,
    bytes: &[u8],
    max_chunks: u64,
) -> Result<(), Fail> {
    place.put("r.jfr", bytes)?;
    let ending = cut_into_d(alloc, place, "r.jfr", (max_chunks, 1 << 40, 999_999))?;
    assert_eq!(rt; ending, Ending::Done);
    assert_eq!(rt; join(alloc, place), Ending::Done);
    assert!(rt; place.file("out") == Some(bytes));
    Ok(())
}

/// Does so with the recording of a row.
fn see_round(rt: &impl Abort, alloc: Global, round: &Round) -> Result<(), Fail> {
    let bytes = recording(alloc, round.chunks, 0)?;
    let mut place = SteadyPlace::new(alloc);
    see_joined(rt, alloc, &mut place, &bytes, round.max_chunks)
}

#[test]
fn a_recording_comes_back_from_its_parts(rt: HostRuntime) -> Result<(), Fail> {
    for round in ROUNDS.iter() {
        see_round(&rt, rt.alloc(), round)?;
    }
    Ok(())
}

/// The name of a file, and what the start of its chunk ends with, if it has one.
type File = (&'static str, Option<u8>);

const A: File = ("d/a.jfr", Some(0));

const B: File = ("d/b.jfr", Some(1));

/// Which files are there, a script, the answer, how many bytes of a.jfr and b.jfr the output has, and
/// whether it is left open.
struct Row {
    files: &'static [File],
    script: Script,
    answer: Ending,
    joined: Option<usize>,
    open: bool,
}

const NO_CHUNK: Ending = Ending::Refused(Refusal {
    chunk: 1,
    offset: 0,
    reason: Reason::NoChunk,
});

const NO_THIRD_CHUNK: Ending = Ending::Refused(Refusal {
    chunk: 3,
    offset: 0,
    reason: Reason::NoChunk,
});

#[rattlefmt::skip]
static ROWS: [Row; 14] = [
    Row { files: &[B, A, ("d/c.txt", None)], script: None, answer: Ending::Done, joined: Some(206), open: false },
    Row { files: &[("d/c.txt", None), A, B], script: None, answer: Ending::Done, joined: Some(206), open: false },
    Row { files: &[A, B, ("d/e/0.jfr", None), ("0.jfr", None), ("dd/0.jfr", None), ("d/0.jfr.old", None)], script: None, answer: Ending::Done, joined: Some(206), open: false },
    Row { files: &[A], script: None, answer: Ending::Done, joined: Some(103), open: false },
    Row { files: &[B, A, ("d/c.txt", None), ("d/c.jfr", None)], script: None, answer: NO_THIRD_CHUNK, joined: Some(206), open: true },
    Row { files: &[("d/c.txt", None)], script: None, answer: NO_CHUNK, joined: Some(0), open: true },
    Row { files: &[], script: None, answer: NO_CHUNK, joined: Some(0), open: true },
    Row { files: &[A, B], script: Some((Call::List, 1, 0)), answer: Ending::ReadFault, joined: None, open: false },
    Row { files: &[A, B], script: Some((Call::Create, 1, 0)), answer: Ending::WriteFault, joined: None, open: false },
    Row { files: &[A, B], script: Some((Call::Open, 2, 0)), answer: Ending::ReadFault, joined: Some(103), open: true },
    Row { files: &[A, B], script: Some((Call::Read, 5, 0)), answer: Ending::ReadFault, joined: Some(103), open: true },
    Row { files: &[A, B], script: Some((Call::Append, 2, 10)), answer: Ending::WriteFault, joined: Some(113), open: true },
    Row { files: &[A, B], script: Some((Call::Finish, 1, 0)), answer: Ending::WriteFault, joined: Some(206), open: false },
    Row { files: &[A, B, ("out", None)], script: None, answer: Ending::WriteFault, joined: Some(0), open: false },
];

/// Puts a file.
fn put_file(place: &mut MemoryPlace, (name, start): File) -> Result<(), NoMemory> {
    match start {
        Some(start) => place.put(name, &chunk(start)),
        None => place.put(name, &[]),
    }
}

/// Puts files.
fn put_files(place: &mut MemoryPlace, files: &[File]) -> Result<(), NoMemory> {
    for file in files {
        put_file(place, *file)?;
    }
    Ok(())
}

/// The first bytes of a recording, if the output has any.
fn first_bytes<'b>(rt: &impl Abort, bytes: &'b [u8], count: Option<usize>) -> Option<&'b [u8]> {
    let count = count?;
    assert!(rt; count <= bytes.len());
    Some(&bytes[..count])
}

/// Joins the files of a row, and compares how that ends and the output.
fn see_output(
    rt: &impl Abort,
    alloc: Global,
    place: &mut MemoryPlace,
    row: &Row,
    two: &[u8],
) -> Result<(), Fail> {
    put_files(place, row.files)?;
    follow(place, row.script)?;
    assert_eq!(rt; join(alloc, place), row.answer);
    assert!(rt; place.file("out") == first_bytes(rt, two, row.joined));
    assert_eq!(rt; finish(place), row.open);
    Ok(())
}

/// Does so over a new place.
fn see_row(rt: &impl Abort, alloc: Global, row: &Row, two: &[u8]) -> Result<(), Fail> {
    let mut place = MemoryPlace::new(alloc);
    see_output(rt, alloc, &mut place, row, two)
}

#[test]
fn files_are_joined_by_their_rows(rt: HostRuntime) -> Result<(), Fail> {
    let two = recording(rt.alloc(), 2, 0)?;
    for row in ROWS.iter() {
        see_row(&rt, rt.alloc(), row, &two)?;
    }
    Ok(())
}
