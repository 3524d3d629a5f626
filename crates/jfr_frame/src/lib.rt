//! The records of a chunk: how they are framed, and that they cover it.
//!
//! `next_record` reads one record, `Frames::read` all of a chunk. Read `specs/Records.antt` first.
#![tactic(auto)]

mod buffers;
mod framed;
mod frames;
pub mod laws;
mod start;

pub use buffers::FrameBuffers;
pub use framed::{CHECKPOINT_TYPE, Framed, METADATA_TYPE, next_record};
pub use frames::Frames;
