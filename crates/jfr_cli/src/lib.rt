//! The program's top call: it carries out the order that the words of the command line give.
//!
//! `run` is the only call. Read `specs/Works.antt` first for what each order does, then `specs/Answers.antt`
//! for the status and the line, then `specs/Runs.antt` for the state after each status.
#![tactic(auto)]

mod answer;
mod execute;
mod status;
mod top;

pub use jfr_words::{Order, WordsFault, read_words};
pub use status::NO_MEMORY;
pub use top::run;
