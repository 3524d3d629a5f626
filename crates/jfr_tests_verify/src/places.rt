//! Places with the files that are verified.
use crate::outputs::Records;
use jfr_fixtures::with_metadata;
use jfr_outside::{Fault, MemoryPlace, NoMemory, Place, Words};
use std::alloc::{AllocError, Global};

/// Adds chunks to a file.
fn add_chunks(file: &mut Vec<u8>, alloc: Global, chunks: &[Records]) -> Result<(), AllocError> {
    for (metadata, records, last) in chunks {
        file.extend_from_slice(&with_metadata(alloc, metadata, records, *last)?)?;
    }
    Ok(())
}

/// A file of these chunks, one after another.
fn file_of(alloc: Global, chunks: &[Records]) -> Result<Vec<u8>, AllocError> {
    let mut file = Vec::new(alloc);
    add_chunks(&mut file, alloc, chunks)?;
    Ok(file)
}

/// Puts a file of these chunks.
fn put_chunks(
    place: &mut MemoryPlace,
    alloc: Global,
    name: &str,
    chunks: &[Records],
) -> Result<(), NoMemory> {
    let file = file_of(alloc, chunks)?;
    place.put(name, &file)
}

/// The chunks of an input and of an output, and the bytes of receipts.
pub(crate) type Files = (&'static [Records], &'static [Records], &'static [u8]);

/// Puts these files.
fn put_files(
    place: &mut MemoryPlace,
    alloc: Global,
    (input, output, receipts): Files,
) -> Result<(), NoMemory> {
    put_chunks(place, alloc, "in", input)?;
    put_chunks(place, alloc, "out", output)?;
    place.put("receipt", receipts)
}

/// A place with these files.
pub(crate) fn place_of(alloc: Global, files: Files) -> Result<MemoryPlace, NoMemory> {
    let mut place = MemoryPlace::new(alloc);
    put_files(&mut place, alloc, files)?;
    Ok(place)
}

/// A place whose read runs out of memory after this many reads, as does each call that a check doesn't need.
#[derive(Drop)]
pub(crate) struct Starved {
    pub(crate) place: MemoryPlace,
    pub(crate) reads: u64,
}

impl Place for Starved {
    ghost use Rattle.jfr_outside.specs.MemoryPlace.{state_of};

    ghost state = { λ p. state_of p.place };

    fn open_input(&mut self, name: &str) -> Result<(), Fault> {
        self.place.open_input(name)
    }

    fn read(&mut self, into: &mut [u8]) -> Result<usize, Fault> {
        if self.reads == 0 {
            return Err(Fault::Memory);
        }
        self.reads -= 1;
        self.place.read(into)
    }

    fn shut_input(&mut self) {
        self.place.shut_input();
    }

    fn create_output(&mut self, _name: &str) -> Result<(), Fault> {
        Err(Fault::Memory)
    }

    fn append(&mut self, _bytes: &[u8]) -> Result<(), Fault> {
        Err(Fault::Memory)
    }

    fn append_pieces(&mut self, _pieces: &[&[u8]]) -> Result<(), Fault> {
        Err(Fault::Memory)
    }

    fn finish_output(&mut self) -> Result<(), Fault> {
        Err(Fault::Memory)
    }

    fn list(&mut self, _alloc: Global, _folder: &str) -> Result<Words, Fault> {
        Err(Fault::Memory)
    }
}
