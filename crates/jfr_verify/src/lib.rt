//! Receipts of scrubbed chunks, and a checker that accepts an output only if it means the same as its input.
//!
//! A receipt has a line for each entry of the output. A line names a parent that refers to the entry: an
//! event, or an entry with an earlier line. So each entry is reached from an event, and a third party can
//! check an output without trusting whoever made it.
//!
//! `receipt_of` makes the receipt of a chunk, and `receipt_of_scrub` that of a chunk's scrub, from the chunk
//! itself. `check` checks an input, an output and a receipt, and `verify_stream` the files of a whole output.
//! None uses code of the scrubber. Read `specs/Receipts.antt` first: what a receipt is. Then read
//! `specs/Checks.antt`: what is checked, `specs/Checked.antt`: which answer is right, and `specs/Laws.antt`:
//! what follows for an output that passes. `specs/Streams.antt` has the same for lists of chunks, and
//! `specs/Verdicts.antt` for files.
#![tactic(auto)]

mod checker;
mod claims;
mod classes;
mod closed;
mod compact;
mod comparer;
mod confirm;
mod copies;
mod doubt;
mod events;
mod laws;
mod line;
mod lines;
mod named;
mod opening;
mod outputs;
mod parents;
mod prefix;
mod ranks;
mod reading;
mod receipt;
mod stream;
mod strings;
mod verdict;
mod walk;

pub use checker::check;
pub use doubt::{CheckFault, Doubt};
pub use laws::{
    answer_exists, answer_is_unique, kept_is_passed, passed_is_verified, receipt_of_reached,
    recordings_are_read, scrubs_are_verified, streams_are_compared, verdict_is_unique,
};
pub use line::{Line, Parent};
pub use receipt::{Receipt, receipt_of, receipt_of_scrub};
pub use stream::verify_stream;
pub use verdict::Verdict;
