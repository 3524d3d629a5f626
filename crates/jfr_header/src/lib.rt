//! The header of a chunk, and how a recording is cut into chunks, one at a time.
//!
//! `read_header` and `write_header` are the layout of a header. `ChunkCutter` reads a recording from
//! a place, chunk by chunk, into a `Buffer`. Read `specs/Fronts.antt` first, then `specs/Cuts.antt` and
//! `specs/Nexts.antt`.
#![tactic(auto)]

mod buffer;
mod cutter;
mod ending;
mod header;
mod judge;
pub mod laws;

pub use buffer::Buffer;
pub use cutter::{ChunkCutter, Cut};
pub use ending::Ending;
pub use header::{Header, is_cut, read_header, write_header};
pub use jfr_base::HEADER_LEN;
