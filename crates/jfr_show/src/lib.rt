//! The texts of events, totals and classes.
//!
//! A `TextWriter` adds the texts of many events of one chunk to a `TextBuilder`, and a `JsonWriter` adds
//! their lines of JSON. `show_event` and `show_json` add one event, and `show_metadata` and
//! `show_metadata_json` add the classes of a chunk. `event_text`, `event_json`, `metadata_text` and
//! `metadata_json` return the same texts. A `Summary` adds up chunks, `summary_text` is its text, and
//! `summary_json` its line of JSON. Read `specs/Shown.antt` first, then `specs/Leaves.antt`,
//! `specs/Texts.antt`, `specs/Json.antt`, `specs/Metadata.antt` and `specs/Totals.antt`.
#![tactic(auto)]

mod beginning;
mod builder;
mod cache;
mod counting;
mod depth;
mod event;
mod json;
mod leaders;
mod leaf;
mod metadata;
mod quoted;
mod reading;
mod reference;
mod summary;
mod tally;
mod value;
mod writer;

pub use builder::TextBuilder;
pub use event::{event_text, show_event};
pub use json::{JsonWriter, event_json, show_json};
pub use metadata::{metadata_json, metadata_text, show_metadata, show_metadata_json};
pub use quoted::push_quoted;
pub use summary::{Summary, summary_json, summary_text};
pub use writer::TextWriter;
