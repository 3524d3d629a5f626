//! The files and streams of the system, as a `Place` and as `Sink`s.
//!
//! A proof can know nothing of what they hold. So the contracts of `Place` and `Sink` say little here, and additional
//! clauses say what a call does to the open file or stream: read `specs/Edges.antt` first.
#![tactic(auto)]

mod counts;
mod file_place;
mod stream_sink;

pub use file_place::FilePlace;
pub use stream_sink::StreamSink;
