//! Examples of walks by public calls only: from an event to a field of a constant, and from all events to the
//! texts of a field.
//!
//! `constant_field` makes six calls of `jfr_chunk`, `jfr_value` and `jfr_pool`, one after another. What each
//! call ensures is what the next one requires, so this crate needs no lemma of another one. `texts_of` asks
//! `jfr_path` for the text to which names of fields lead from each event. The program doesn't use this crate.
//!
//! `jfr_thread_names` is a whole program, from a recording to the names of its threads.
#![tactic(auto)]

mod texts;
mod walk;

pub use texts::texts_of;
pub use walk::constant_field;
