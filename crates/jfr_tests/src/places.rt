//! Places with files.
use crate::contents::{Content, bytes_of};
use jfr_outside::{MemoryPlace, NoMemory, SteadyPlace};
use std::alloc::Global;

/// A place in memory with one file.
pub(crate) fn place_with(alloc: Global, name: &str, bytes: &[u8]) -> Result<MemoryPlace, NoMemory> {
    let mut place = MemoryPlace::new(alloc);
    place.put(name, bytes)?;
    Ok(place)
}

/// A steady place with a recording as a.jfr.
pub(crate) fn steady_place(alloc: Global, recording: &[u8]) -> Result<SteadyPlace, NoMemory> {
    let mut place = SteadyPlace::new(alloc);
    place.put("a.jfr", recording)?;
    Ok(place)
}

/// Puts a file.
fn put_file(
    place: &mut MemoryPlace,
    alloc: Global,
    name: &str,
    content: Content,
) -> Result<(), NoMemory> {
    let bytes = bytes_of(alloc, content)?;
    place.put(name, &bytes)
}

/// Puts files.
fn put_files(
    place: &mut MemoryPlace,
    alloc: Global,
    files: &[(&str, Content)],
) -> Result<(), NoMemory> {
    for (name, content) in files {
        put_file(place, alloc, name, *content)?;
    }
    Ok(())
}

/// A place with these files.
pub(crate) fn place_of(alloc: Global, files: &[(&str, Content)]) -> Result<MemoryPlace, NoMemory> {
    let mut place = MemoryPlace::new(alloc);
    put_files(&mut place, alloc, files)?;
    Ok(place)
}
