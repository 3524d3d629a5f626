//! The world outside the program: places, which hold files, and sinks, which take bytes.
//!
//! `Place` and `Sink` state what files and streams do. `MemoryPlace` and `MemorySink` are for tests, and can
//! be made to fail; `SteadyPlace` and `SteadySink` fail only for stated causes. Read `specs/World.antt`
//! first.
#![tactic(auto)]

mod fault;
mod files;
mod memory_place;
mod memory_sink;
mod place;
mod script;
mod sink;
mod source;
mod steady_place;
mod steady_sink;

pub use fault::Fault;
pub use jfr_base::{NoMemory, Text, Words};
pub use memory_place::MemoryPlace;
pub use memory_sink::MemorySink;
pub use place::Place;
pub use script::Call;
pub use sink::Sink;
pub use steady_place::SteadyPlace;
pub use steady_sink::SteadySink;
