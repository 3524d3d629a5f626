//! Paths through a chunk's fields, items and constants: the values and texts that they lead to, and the
//! events that a filter keeps.
//!
//! `leads` follows the steps of a `Path`, and `named` follows the names of fields to a text; `node_at` and
//! `text_at` are its two parts. `choose` finds the events that a filter keeps, by the names of their classes, the
//! texts of their threads and their times. Read `specs/Paths.antt`, `specs/Chosen.antt` and `specs/Windows.antt`
//! of `jfr_chunk` first.
#![tactic(auto)]

mod allowed;
mod chosen;
mod following;
mod names;
mod path;
mod steps;
mod strings;
mod texts;
mod threads;
mod times;
mod untimed;
mod verdict;
mod window;

pub use chosen::choose;
pub use following::{MOST_FOLLOWED, follow_references, is_reference, named_field};
pub use names::{named, node_at, text_at};
pub use path::Path;
pub use steps::{fields_of, leads};
