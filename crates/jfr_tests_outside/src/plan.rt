//! Streams over places in memory, with a command that copies each chunk.
use crate::places::{Script, create, place_of, steady_place_of};
use jfr_base::{Flaw, ReadFault, Reason, Refusal};
use jfr_fixtures::PLAIN;
use jfr_header::Ending;
use jfr_outside::{Call, MemoryPlace, NoMemory, Place, SteadyPlace};
use jfr_plan::{Make, make_stream};
use std::alloc::{AllocError, Global};
use std::process::Abort;
use std::test::Fail;

/// Makes of each chunk the chunk itself, in two pieces, and refuses every chunk where it is strict.
#[derive(Drop)]
struct Copying {
    strict: bool,
}

impl Make for Copying {
    ghost use Rattle.std.specs.Prelude.{Some, None, if◌then◌else◌};
    ghost use Rattle.jfr_base.specs.declared.reason.Reason.TheVariants.{ChainDelta};

    ghost refusal = { λ m c. if m.strict then Some (record { offset = 100; reason = ChainDelta }) else None };

    ghost becomes = { λ m c. c };

    ghost holds = { λ m c. Unit {0} };

    ghost last = { λ m c. c };

    fn make(&mut self, _alloc: Global, _chunk: &[u8]) -> Result<(), ReadFault> {
        if self.strict {
            return Err(ReadFault::Flawed(Flaw {
                offset: 100,
                reason: Reason::ChainDelta,
            }));
        }
        Ok(())
    }

    fn pieces<'c>(&'c self, alloc: Global, chunk: &'c [u8]) -> Result<Vec<&'c [u8]>, NoMemory> {
        let mut pieces = Vec::new(alloc);
        let (front, back) = chunk.split_at(chunk.len() / 2);
        pieces.push(front)?;
        pieces.push(back)?;
        Ok(pieces)
    }
}

/// Copies the file a to a new file b.
fn copy<P: Place>(alloc: Global, place: &mut P, strict: bool) -> Ending {
    make_stream(alloc, place, Copying { strict }, "a", "b")
}

/// Adds this number of plain chunks, and the first `more` bytes of another one.
fn push_chunks(bytes: &mut Vec<u8>, chunks: usize, more: usize) -> Result<(), AllocError> {
    for _ in 0..chunks {
        bytes.extend_from_slice(&PLAIN)?;
    }
    bytes.extend_from_slice(&PLAIN[..more.min(103)])
}

/// A recording of them.
fn recording(alloc: Global, chunks: usize, more: usize) -> Result<Vec<u8>, AllocError> {
    let mut bytes = Vec::new(alloc);
    push_chunks(&mut bytes, chunks, more)?;
    Ok(bytes)
}

/// What is copied, the size of the reads, a script, the answer, and how many bytes the copy has.
struct Row {
    chunks: usize,
    more: usize,
    size: usize,
    script: Option<Script>,
    answer: Ending,
    copied: Option<usize>,
}

#[rattlefmt::skip]
static ROWS: [Row; 13] = [
    Row { chunks: 0, more: 0, size: 999, script: None, answer: Ending::Refused(Refusal { chunk: 1, offset: 0, reason: Reason::NoChunk }), copied: Some(0) },
    Row { chunks: 0, more: 67, size: 999, script: None, answer: Ending::Refused(Refusal { chunk: 1, offset: 67, reason: Reason::ShortHeader }), copied: Some(0) },
    Row { chunks: 1, more: 0, size: 999, script: None, answer: Ending::Done, copied: Some(103) },
    Row { chunks: 2, more: 0, size: 1, script: None, answer: Ending::Done, copied: Some(206) },
    Row { chunks: 2, more: 0, size: 68, script: None, answer: Ending::Done, copied: Some(206) },
    Row { chunks: 2, more: 0, size: 103, script: None, answer: Ending::Done, copied: Some(206) },
    Row { chunks: 1, more: 100, size: 999, script: None, answer: Ending::Refused(Refusal { chunk: 2, offset: 100, reason: Reason::ShortChunk }), copied: Some(103) },
    Row { chunks: 1, more: 0, size: 40, script: Some((Call::Read, 2, 0)), answer: Ending::ReadFault, copied: Some(0) },
    Row { chunks: 2, more: 0, size: 40, script: Some((Call::Read, 6, 0)), answer: Ending::ReadFault, copied: Some(103) },
    Row { chunks: 2, more: 0, size: 999, script: Some((Call::Open, 1, 0)), answer: Ending::ReadFault, copied: None },
    Row { chunks: 2, more: 0, size: 999, script: Some((Call::Create, 1, 0)), answer: Ending::WriteFault, copied: None },
    Row { chunks: 2, more: 0, size: 999, script: Some((Call::Append, 2, 10)), answer: Ending::WriteFault, copied: Some(113) },
    Row { chunks: 2, more: 0, size: 999, script: Some((Call::Finish, 1, 0)), answer: Ending::WriteFault, copied: Some(206) },
];

/// The file b has the first `copied` of these bytes, or doesn't exist.
fn see_output(rt: &impl Abort, place: &MemoryPlace, bytes: &[u8], copied: Option<usize>) {
    match copied {
        Some(count) => {
            assert!(rt; count <= bytes.len());
            assert_eq!(rt; place.file("b"), Some(&bytes[..count]));
        }
        None => assert_eq!(rt; place.file("b"), None),
    }
}

/// Copies these bytes as a row says, and compares the answer and what b has then.
fn see_bytes(rt: &impl Abort, alloc: Global, bytes: &[u8], row: &Row) -> Result<(), Fail> {
    let mut place = place_of(alloc, bytes, row.size, row.script)?;
    let answer = copy(alloc, &mut place, false);
    assert_eq!(rt; answer, row.answer);
    see_output(rt, &place, bytes, row.copied);
    Ok(())
}

/// Compares the copy of a row.
fn see_row(rt: &impl Abort, alloc: Global, row: &Row) -> Result<(), Fail> {
    let bytes = recording(alloc, row.chunks, row.more)?;
    see_bytes(rt, alloc, &bytes, row)
}

#[test]
fn copies_by_its_rows(rt: HostRuntime) -> Result<(), Fail> {
    for row in ROWS.iter() {
        see_row(&rt, rt.alloc(), row)?;
    }
    Ok(())
}

/// Copies, and compares the answer and what b has then.
fn see_copy(
    rt: &impl Abort,
    alloc: Global,
    place: &mut SteadyPlace,
    strict: bool,
    answer: Ending,
    copied: Option<&[u8]>,
) {
    assert_eq!(rt; copy(alloc, place, strict), answer);
    assert_eq!(rt; place.file("b"), copied);
}

/// Copies while the input is missing, another output is open, nothing is amiss, and the file b exists.
fn see_copies(rt: &impl Abort, alloc: Global, place: &mut SteadyPlace) -> Result<(), Fail> {
    see_copy(rt, alloc, place, false, Ending::ReadFault, None);
    place.put("a", &PLAIN)?;
    create(place, "c")?;
    see_copy(rt, alloc, place, false, Ending::WriteFault, None);
    see_copy(
        rt,
        alloc,
        place,
        false,
        Ending::Done,
        Some(PLAIN.as_slice()),
    );
    see_copy(
        rt,
        alloc,
        place,
        false,
        Ending::WriteFault,
        Some(PLAIN.as_slice()),
    );
    Ok(())
}

#[test]
fn copies_over_a_steady_place(rt: HostRuntime) -> Result<(), Fail> {
    let mut place = SteadyPlace::new(rt.alloc());
    see_copies(&rt, rt.alloc(), &mut place)
}

/// The answer to a chunk that a strict copy refuses.
const REFUSED: Ending = Ending::Refused(Refusal {
    chunk: 1,
    offset: 100,
    reason: Reason::ChainDelta,
});

#[test]
fn a_refused_chunk_is_not_copied(rt: HostRuntime) -> Result<(), Fail> {
    let mut place = steady_place_of(rt.alloc(), &PLAIN)?;
    see_copy(
        &rt,
        rt.alloc(),
        &mut place,
        true,
        REFUSED,
        Some(&PLAIN[..0]),
    );
    Ok(())
}
