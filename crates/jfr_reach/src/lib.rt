//! Which constants the kept events of a chunk reach, directly or through other constants.
//!
//! `Marks::of` returns the entries that are reached. `Marks::make` allocates all the memory that is needed, and
//! `Marks::mark` marks the entries in a number of steps that it promises. Read `specs/Reach.antt` of `jfr_chunk` first. It defines twice what is reached: by paths, and by a
//! computation. Then read `specs/Worklists.antt` of `jfr_worklist` and `specs/Walks.antt`: how a walk goes
//! over the nodes.
#![tactic(auto)]

mod marks;
mod roots;
mod walk;

pub use marks::Marks;
