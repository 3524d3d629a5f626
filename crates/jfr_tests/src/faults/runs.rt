//! Runs of a command over a place in memory, and what they leave there.
use crate::runs::{status_of, words};
use jfr_fixtures::{RINGS, STRINGS, with_classes};
use jfr_outside::{Call, MemoryPlace, MemorySink, NoMemory, Place, Words};
use std::alloc::{AllocError, Global};
use std::test::Fail;

/// The names of all outputs that the commands of these tests make.
pub(crate) const OUTPUTS: [&str; 4] = ["b.jfr", "p/a_000001.jfr", "p/a_000002.jfr", "o.jfr"];

/// How many bytes the first chunk has.
pub(crate) const FIRST: usize = 362;

/// How many bytes both chunks have.
pub(crate) const BOTH: usize = 717;

/// Where a run is to fail: at the nth call of a kind of the place, or at the nth write of the output stream.
#[derive(Clone, Copy)]
pub(crate) enum Fault {
    Never,
    Of(Call, u64),
    Write(u64),
}

/// What a run leaves.
#[derive(Drop)]
pub(crate) struct Run {
    pub status: u8,
    pub place: MemoryPlace,
    pub out: MemorySink,
    pub err: MemorySink,
}

impl Run {
    /// An output file, where it is there.
    pub(crate) fn file(&self, name: &str) -> Option<&[u8]> {
        self.place.file(name)
    }

    /// Whether an output file is there.
    pub(crate) fn has_file(&self) -> bool {
        for name in OUTPUTS.iter() {
            if self.file(name).is_some() {
                return true;
            }
        }
        false
    }

    /// How many bytes of the open input were not taken; none where no input is open. They are taken then.
    pub(crate) fn bytes_left(&mut self) -> Option<usize> {
        let mut rest = [0; BOTH];
        self.place.cut(BOTH);
        self.place.read(&mut rest).ok()
    }

    /// Whether an output is open. It is finished then.
    pub(crate) fn has_open_output(&mut self) -> bool {
        self.place.finish_output().is_ok()
    }

    // Makes a call fail and keep at most this many bytes.
    fn set_fault(&mut self, fault: Fault, keep: usize) -> Result<(), NoMemory> {
        match fault {
            Fault::Never => Ok(()),
            Fault::Of(call, nth) => self.place.fail(call, nth, keep),
            Fault::Write(nth) => self.out.fail(nth, keep),
        }
    }

    // Runs a command.
    fn start(&mut self, alloc: Global, words: &Words) {
        self.status = status_of(alloc, words, &mut self.place, &mut self.out, &mut self.err);
    }
}

// The receipt of the first chunk, of four entries: the two events refer to the entries 0 and 2, and these to 1 and 3.
const RECEIPT: &[u8] = &[4, 0, 0, 0, 2, 0, 1, 1, 1, 0, 3, 1, 2];

// The first `chunks` of two chunks.
fn recording_of(alloc: Global, chunks: usize) -> Result<Vec<u8>, AllocError> {
    let mut bytes = Vec::new(alloc);
    if chunks > 0 {
        bytes.extend_from_slice(&with_classes(alloc, RINGS, 333)?)?;
    }
    if chunks > 1 {
        bytes.extend_from_slice(&with_classes(alloc, STRINGS, 330)?)?;
    }
    Ok(bytes)
}

// Puts the first `chunks` of them in a.jfr, and one in each file of the folder d. A receipt is in c.
fn put_chunks(place: &mut MemoryPlace, alloc: Global, chunks: usize) -> Result<(), Fail> {
    place.put("a.jfr", &recording_of(alloc, chunks)?)?;
    place.put("c", RECEIPT)?;
    if chunks > 0 {
        place.put("d/1.jfr", &with_classes(alloc, RINGS, 333)?)?;
    }
    if chunks > 1 {
        place.put("d/2.jfr", &with_classes(alloc, STRINGS, 330)?)?;
    }
    Ok(())
}

// A place with these files, whose reads give at most 50 bytes.
fn place_with(alloc: Global, chunks: usize) -> Result<MemoryPlace, Fail> {
    let mut place = MemoryPlace::new(alloc);
    put_chunks(&mut place, alloc, chunks)?;
    place.cut(50);
    Ok(place)
}

// What a run over the first chunks finds, in which a call fails and keeps at most this many bytes.
fn ready(alloc: Global, chunks: usize, fault: Fault, keep: usize) -> Result<Run, Fail> {
    let mut run = Run {
        status: 0,
        place: place_with(alloc, chunks)?,
        out: MemorySink::new(alloc),
        err: MemorySink::new(alloc),
    };
    run.set_fault(fault, keep)?;
    Ok(run)
}

/// Runs a command over the first chunks, with reads of at most 50 bytes, and a call that fails and keeps at
/// most this many bytes.
pub(crate) fn run_once(
    alloc: Global,
    command: &[&str],
    chunks: usize,
    fault: Fault,
    keep: usize,
) -> Result<Run, Fail> {
    let words = words(alloc, command)?;
    let mut run = ready(alloc, chunks, fault, keep)?;
    run.start(alloc, &words);
    Ok(run)
}
