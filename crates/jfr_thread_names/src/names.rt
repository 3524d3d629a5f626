//! The names of the threads of a recording's events.
ghost use Rattle.jfr_header.specs.Fronts.{Whole};

use jfr_base::{NoMemory, Words};
use jfr_chunk::Chunk;
use jfr_example::texts_of;
use jfr_header::{ChunkCutter, Cut, Ending};
use jfr_outside::{Place, Sink};
use std::alloc::Global;

/// Writes the names of the threads of a recording's events, a line each.
pub fn print_names<P: Place, S: Sink>(
    alloc: Global,
    recording: &str,
    place: &mut P,
    out: &mut S,
) -> Result<(), Ending> {
    let names = field_names(alloc)?;
    if let Err(fault) = place.open_input(recording) {
        return Err(Ending::of_read(fault));
    }
    print_chunks(alloc, &names, place, out)
}

/// The names of the fields that lead from an event to the Java name of its thread.
fn field_names(alloc: Global) -> Result<Words, NoMemory> {
    let mut names = Words::new(alloc);
    names.push("eventThread")?;
    names.push("javaName")?;
    Ok(names)
}

/// Reads each chunk of the open input, and writes the texts to which the names lead from its events.
fn print_chunks<P: Place, S: Sink>(
    alloc: Global,
    names: &Words,
    place: &mut P,
    out: &mut S,
) -> Result<(), Ending> {
    let mut cutter = ChunkCutter::new(alloc, 0, 1);
    'chunks: loop {
        match cutter.next(place) {
            Cut::Chunk => {}
            Cut::End => return Ok(()),
            Cut::Refused(refusal) => return Err(Ending::Refused(refusal)),
            Cut::Failed => return Err(Ending::ReadFault),
            Cut::Memory => return Err(Ending::Memory),
        }
        print_chunk(alloc, cutter.bytes(), cutter.number(), names, out)?;
    }
}

/// Reads the chunk with this number, and writes the texts of its events.
fn print_chunk<S: Sink>(
    alloc: Global,
    bytes: &[u8],
    number: u64,
    names: &Words,
    out: &mut S,
) -> Result<(), Ending>
    requires { Whole bytes.now }
{
    match Chunk::read(alloc, bytes) {
        Ok(chunk) => print_texts(&texts_of(alloc, &chunk, names)?, out),
        Err(fault) => Err(Ending::of_chunk(number, fault)),
    }
}

/// Writes the texts, a line each.
fn print_texts<S: Sink>(texts: &Words, out: &mut S) -> Result<(), Ending> {
    for text in texts.as_slice() {
        print_line(text.as_str(), out)?;
    }
    Ok(())
}

/// Writes a text and a newline.
fn print_line<S: Sink>(text: &str, out: &mut S) -> Result<(), Ending> {
    if let Err(fault) = out.write(text.as_bytes()) {
        return Err(Ending::of_write(fault));
    }
    if let Err(fault) = out.write(b"\n") {
        return Err(Ending::of_write(fault));
    }
    Ok(())
}
