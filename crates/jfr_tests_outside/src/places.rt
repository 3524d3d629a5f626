//! Places with a file, and calls of places. No function has a clause, so those that call them are proved
//! without the clauses of places.
use jfr_outside::{Call, Fault, MemoryPlace, NoMemory, Place, SteadyPlace};
use std::alloc::Global;

/// A call that fails: its kind, which call of its kind, and how many of its bytes are kept.
pub(crate) type Script = (Call, u64, usize);

/// A place with the file a of these bytes, of which each read takes at most `size`.
pub(crate) fn place_of(
    alloc: Global,
    bytes: &[u8],
    size: usize,
    script: Option<Script>,
) -> Result<MemoryPlace, NoMemory> {
    let mut place = MemoryPlace::new(alloc);
    prepare(&mut place, bytes, size, script)?;
    Ok(place)
}

/// Puts the file, limits the reads, and makes the script's call fail.
fn prepare(
    place: &mut MemoryPlace,
    bytes: &[u8],
    size: usize,
    script: Option<Script>,
) -> Result<(), NoMemory> {
    place.put("a", bytes)?;
    if size > 0 {
        place.cut(size);
    }
    match script {
        Some((call, nth, keep)) => place.fail(call, nth, keep),
        None => Ok(()),
    }
}

/// A steady place with the file a of these bytes.
pub(crate) fn steady_place_of(alloc: Global, bytes: &[u8]) -> Result<SteadyPlace, NoMemory> {
    let mut place = SteadyPlace::new(alloc);
    place.put("a", bytes)?;
    Ok(place)
}

/// Opens a file as the input.
pub(crate) fn open<P: Place>(place: &mut P, name: &str) -> Result<(), Fault> {
    place.open_input(name)
}

/// Reads at most 206 bytes of the input, and returns how many.
pub(crate) fn read<P: Place>(place: &mut P) -> Result<usize, Fault> {
    place.read(&mut [0; 206])
}

/// Creates a file as the output.
pub(crate) fn create<P: Place>(place: &mut P, name: &str) -> Result<(), Fault> {
    place.create_output(name)
}

/// Appends bytes to the output.
pub(crate) fn append<P: Place>(place: &mut P, bytes: &[u8]) -> Result<(), Fault> {
    place.append(bytes)
}

/// Appends them as one piece.
pub(crate) fn append_piece<P: Place>(place: &mut P, bytes: &[u8]) -> Result<(), Fault> {
    place.append_pieces(&[bytes])
}

/// Finishes the output.
pub(crate) fn finish<P: Place>(place: &mut P) -> Result<(), Fault> {
    place.finish_output()
}
