//! The parts of an output chunk that scrubs with old and with new keys share: which records remain, its metadata
//! record, and the positions in its header. For a scrub with old keys, also which entries it has.
//!
//! `next_remaining_record` goes through the records that remain, `slim_metadata` makes the metadata record of the classes
//! that remain, and `remaining_entries` lists the entries that remain. Read `specs/RemainingRecords.antt` first, then `specs/Remaining.antt` and `specs/Recordings.antt`.
#![tactic(auto)]

mod laws;
mod metadata;
mod pools;
mod positions;
mod remaining;
mod remaining_records;

pub use laws::{cursors_start_at_zero, marked_entries_are_in_order};
pub use metadata::slim_metadata;
pub use pools::pool_len;
pub use positions::{delta_to, output_header};
pub use remaining::{RemainingEntries, entries_of, remaining_entries};
pub use remaining_records::{RecordCursor, RemainingRecord, next_remaining_record};
