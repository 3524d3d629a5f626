//! Constant pools (docs/FORMAT.md, Constant pools): the chain of checkpoints, their entries, and which entry
//! is in force.
//!
//! `Chain::read` follows the chain from the newest checkpoint on, and `Pools::read` reads the entries of its
//! checkpoints. Read `specs/Chains.antt` first, and then `specs/Entries.antt`.
#![tactic(auto)]

mod chain;
mod checkpoint;
mod entry;
mod index;
pub mod laws;
mod link;
mod pools;
mod table;
mod tables;
mod visit;

pub use chain::Chain;
pub use entry::EntryAt;
pub use link::Link;
pub use pools::Pools;
