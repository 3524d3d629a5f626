//! A builder of recordings: a text with a line for each class, field, constant and event becomes a chunk.
//!
//! `build` makes a chunk from a text, and `build_stream` does so with files. Read `specs/Builds.antt` first: what is
//! built from a text, and why a text is refused; then `specs/Accepted.antt`: what a reader finds in it, and
//! `specs/Streams.antt`: what is done with the files. What the lines mean is in `specs/Pieces.antt`,
//! `specs/Lines.antt`, `specs/ClassLines.antt` and `specs/Regions.antt`; the words of leaves in `specs/LeafWords.antt`; the values of
//! words and lines in `specs/Taking.antt` and `specs/LineValues.antt`; and the bytes of the chunk in
//! `specs/Described.antt` and `specs/Built.antt`. The laws are about quoted texts, the values that words spell,
//! and the chunk.
#![tactic(auto)]

mod building;
mod class_lines;
mod described;
mod ending;
mod laws;
mod leaf;
mod line;
mod line_values;
mod lines;
mod pieces;
mod pools;
mod quoted;
mod reason;
mod records;
mod region;
mod stream;
mod value;
mod value_bytes;

pub use building::build;
pub use ending::BuildEnding;
pub use laws::{built_is_accepted, taken_values_are_read, texts_are_unquoted, words_are_taken};
pub use reason::{BuildFault, BuildReason};
pub use stream::build_stream;
