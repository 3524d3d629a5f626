//! Laws of whole chunks: what scrubbing keeps, that a filter keeps all events of its own output, and what an
//! output tells.
//!
//! Read `specs/Laws.antt` first.
#![tactic(auto)]

mod laws;

pub use laws::{
    chunk_agrees_with_itself, filter_keeps_its_output, only_what_remains_matters,
    output_is_what_it_tells, scrubbed_is_kept,
};
