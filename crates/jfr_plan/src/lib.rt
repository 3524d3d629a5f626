//! What a command does outside: its effects in order, the state after each ending, and the loop over the
//! chunks of its input.
//!
//! | entry | what it is |
//! |---|---|
//! | `Stage` | a command: what it does when its input is open, for each chunk, and at the input's end |
//! | `run_stage`, `Position` | runs a stage over one input, from a position in the recording |
//! | `Make` | a way to make an output from each chunk, such as its scrub |
//! | `make_stream` | the command that does so, from a file to a file |
//! | `create_output`, `append_output`, `finish_output` | the effects on a place |
//! | `write_file` | all three, for a file whose bytes are known |
//! | `Discard` | a sink that keeps nothing |
//! | `making_ends_well` | the law that says when the plan of `make_stream` ends well |
//!
//! Read `specs/Effects.antt` first, then `specs/Rules.antt` and `specs/Outcomes.antt`.
#![tactic(auto)]

mod discard;
mod effects;
mod laws;
mod make;
mod making;
mod position;
mod stage;

pub use discard::Discard;
pub use effects::{append_output, create_output, finish_output, write_file};
pub use laws::making_ends_well;
pub use make::Make;
pub use making::make_stream;
pub use position::Position;
pub use stage::{Stage, run_stage};
