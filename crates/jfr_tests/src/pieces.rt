//! Names for the records and events of which tables make chunks. A table with all their sources would exceed the limit
//! of the prover.
use crate::classes::{ANNOTATED, LONG, LONG_AND_A, NAMED_BY_A, NAMED_BY_C};
use crate::jdk::{
    ALL_LATER, ENTER, ENTER_AND_LOAD_CLASSES, ENTER_CLASSES, LOAD, LOAD_CLASSES,
    NO_JDK_EVENT_CLASSES, NOTHING, NOTHING_LATER, ONE_TRACE, PARK, PARK_AND_ENTER_CLASSES,
    PARK_CLASSES, RENAMED, SYMBOLS, THREAD_AND_SYMBOLS, UNNAMED,
};
use jfr_fixtures::Source;
use std::alloc::{AllocError, Global};

/// A record or an event of a chunk. Each but the first is the static with its name in `jdk` or `classes`.
#[derive(Clone, Copy)]
pub(crate) enum Piece {
    /// These bytes.
    Bytes(&'static [u8]),
    /// Events of `jdk`.
    Park,
    Enter,
    Load,
    /// Its metadata records.
    ParkClasses,
    EnterClasses,
    LoadClasses,
    ParkAndEnterClasses,
    EnterAndLoadClasses,
    NoJdkEventClasses,
    /// Its first checkpoints.
    ThreadAndSymbols,
    Symbols,
    Nothing,
    /// Its last checkpoints.
    OneTrace,
    Renamed,
    Unnamed,
    AllLater,
    NothingLater,
    /// The metadata records of `classes`.
    Annotated,
    NamedByA,
    NamedByC,
    LongAndA,
    Long,
}

/// The source of a piece.
pub(crate) fn source_of(piece: Piece) -> Source {
    match piece {
        Piece::Bytes(bytes) => Source::Bytes(bytes),
        Piece::Park => PARK,
        Piece::Enter => ENTER,
        Piece::Load => LOAD,
        Piece::ParkClasses => PARK_CLASSES,
        Piece::EnterClasses => ENTER_CLASSES,
        Piece::LoadClasses => LOAD_CLASSES,
        Piece::ParkAndEnterClasses => PARK_AND_ENTER_CLASSES,
        Piece::EnterAndLoadClasses => ENTER_AND_LOAD_CLASSES,
        Piece::NoJdkEventClasses => NO_JDK_EVENT_CLASSES,
        Piece::ThreadAndSymbols => THREAD_AND_SYMBOLS,
        Piece::Symbols => SYMBOLS,
        Piece::Nothing => NOTHING,
        Piece::OneTrace => ONE_TRACE,
        Piece::Renamed => RENAMED,
        Piece::Unnamed => UNNAMED,
        Piece::AllLater => ALL_LATER,
        Piece::NothingLater => NOTHING_LATER,
        Piece::Annotated => ANNOTATED,
        Piece::NamedByA => NAMED_BY_A,
        Piece::NamedByC => NAMED_BY_C,
        Piece::LongAndA => LONG_AND_A,
        Piece::Long => LONG,
    }
}

/// The sources of pieces.
pub(crate) fn sources_of(alloc: Global, pieces: &[Piece]) -> Result<Vec<Source>, AllocError> {
    let mut sources = Vec::new(alloc);
    for piece in pieces {
        sources.push(source_of(*piece))?;
    }
    Ok(sources)
}
