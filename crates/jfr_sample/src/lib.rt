//! The sample: a recording of one chunk, made from a seed, to try the program on.
//!
//! `sample` is the only call. Read `specs/Sample.antt`, which defines the recording byte for byte.
#![tactic(auto)]

mod checkpoint;
mod events;
mod metadata;
mod recording;
mod spelled;

pub use recording::sample;
