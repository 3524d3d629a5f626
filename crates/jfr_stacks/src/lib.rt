//! Folded call stacks: for each distinct call stack of the events, a line with its frames and the number of
//! events that have it. Flame graphs are drawn from such lines.
//!
//! The frames of a stack are listed from the outermost call to the innermost, with a semicolon between them. A
//! frame is the name of a class, a dot, and the name of a method:
//!
//! ```text
//! java/lang/Thread.run;app/Main.work;java/util/HashMap.get 17
//! ```
//!
//! docs/SCRUBBING.md, 'The stacks', has the rules.
//!
//! `Stacks::new` starts without events, `Stacks::add` adds the events of a chunk that a filter keeps, and
//! `Stacks::text` returns the lines. Read `specs/Folded.antt` first, then `specs/Texts.antt` and
//! `specs/Frames.antt`.
#![tactic(auto)]

mod adding;
mod counting;
mod counts;
mod entry;
mod fields;
mod frame_writer;
mod frames;
mod names;
mod role;
mod stacks;
mod texts;
mod trace;
mod writer;

pub use stacks::Stacks;
