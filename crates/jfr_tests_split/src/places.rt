//! What is done over places. These functions have no clauses, so those that call them are proved without the
//! clauses of what they call.
use jfr_header::Ending;
use jfr_outside::{Call, MemoryPlace, NoMemory, Place, Text};
use jfr_split::{SplitRule, assemble, disassemble};
use std::alloc::Global;

/// Which call fails, counted from 1, and how many bytes are kept if it is an append.
pub(crate) type Script = Option<(Call, u64, usize)>;

/// Makes the call of a script fail.
pub(crate) fn follow(place: &mut MemoryPlace, script: Script) -> Result<(), NoMemory> {
    match script {
        Some((call, nth, keep)) => place.fail(call, nth, keep),
        None => Ok(()),
    }
}

/// The most chunks and bytes of a part, and the most parts.
pub(crate) type Bounds = (u64, u64, u64);

/// Cuts a recording into parts.
pub(crate) fn cut<P: Place>(
    alloc: Global,
    place: &mut P,
    file: &str,
    folder: Option<Text>,
    (chunks, size, parts): Bounds,
) -> Ending {
    let rule = SplitRule {
        folder,
        max_chunks: chunks.max(1),
        max_size: size.max(1),
        max_parts: parts.clamp(1, 999_999),
    };
    disassemble(alloc, place, file, &rule)
}

/// Cuts a recording into parts in the folder d.
pub(crate) fn cut_into_d<P: Place>(
    alloc: Global,
    place: &mut P,
    file: &str,
    bounds: Bounds,
) -> Result<Ending, NoMemory> {
    let folder = Text::make(alloc, "d")?;
    Ok(cut(alloc, place, file, Some(folder), bounds))
}

/// Joins the files of the folder d.
pub(crate) fn join<P: Place>(alloc: Global, place: &mut P) -> Ending {
    assemble(alloc, place, "d", "out")
}

/// Finishes the output, and says whether one was open.
pub(crate) fn finish(place: &mut MemoryPlace) -> bool {
    place.finish_output().is_ok()
}
