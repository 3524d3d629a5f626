//! The commands that write text: the events of a recording, its totals, its classes, and the call stacks of
//! its events; and the counts of the sample, a generated recording.
//!
//! `print_stream`, `summary_stream`, `metadata_stream` and `stacks_stream` each read one recording to its
//! end, chunk by chunk, and write to a sink. Each calls `report_stream` with a `Report`, which writes the texts of
//! a chunk and the texts at the end. Read `specs/Reports.antt` first.
//!
//! `sample_text` reads and scrubs a sample as any other recording, which rests on the law `sample_is_accepted`.
//! Read `specs/Demo.antt`, and for the sample itself `specs/Sample.antt` of `jfr_sample`.
#![tactic(auto)]

mod demo;
mod laws;
mod metadata;
mod pages;
mod print;
mod report;
mod stacks;
mod summary;

pub use demo::sample_text;
pub use laws::{reports_end_well, sample_is_accepted};
pub use metadata::metadata_stream;
pub use print::print_stream;
pub use stacks::stacks_stream;
pub use summary::summary_stream;
