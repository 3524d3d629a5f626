//! The scrubber: the output of each chunk of a recording, and the stream that scrubs a recording.
//!
//! `scrub_stream` scrubs a recording, `Scrubber` one chunk. Both lay out the output of a chunk by `LaidOut`.
//!
//! How an event gets from a chunk to the output:
//!
//! 1. `make_stream` (jfr_plan) gives each chunk to `Scrub::make` (`scrub.rt`), which reads it and calls
//!    `LaidOut::make` (`laid.rt`). This chooses the events, marks the entries that they reach, and lays out the output.
//! 2. `lay_body` (`body.rt`) goes through the records that remain. A run of kept events (`run.rt`) is copied as one
//!    range. Any other `RemainingRecord` becomes an `OutputRecord`: an event is copied too, the metadata record is
//!    copied or rebuilt, and a chained checkpoint is made anew (`checkpoint.rt`).
//! 3. `PieceBuilder` collects ranges of the chunk and of made bytes. It joins adjacent ranges of the chunk, and
//!    `finish` puts the header before them. The result is `Pieces`, or `Ranges` without the borrowed chunk.
//! 4. `Scrub` keeps the `Ranges` until `make_stream` asks for their bytes (`Scrub::pieces`) and appends these by one
//!    call.
//!
//! Read `specs/Scrubs.antt`, `specs/Headline.antt` and `specs/Pieces.antt` first. `jfr_chunk: Scrub.scrub_of` is the
//! output chunk, `specs/Bodies.antt` what of it is laid out so far, and `specs/IsLaidOut.antt` what `LaidOut` is.
#![tactic(auto)]

mod body;
mod checkpoint;
mod galloping;
mod laid;
mod laws;
mod measure;
mod piece;
mod piece_builder;
mod pieces;
mod ranges;
mod run;
mod scrub;
mod scrubber;

pub use laws::{
    only_what_remains_matters, output_is_a_recording, parts_are_scrubbed_one_by_one,
    scrubbed_again_stays_the_same, scrubbing_ends_well,
};
pub use piece::{MadePart, Piece};
pub use scrub::scrub_stream;
pub use scrubber::Scrubber;
