//! Splitting recordings into parts, and joining parts again.
//!
//! `disassemble` writes the chunks of a recording to parts, each a file of its own. `assemble` joins the
//! chunks of a folder's files in the order of their names. Read `specs/Parts.antt` and `specs/Names.antt`
//! first, then `specs/Splits.antt` and `specs/Joins.antt`, which define what the two commands do.
#![tactic(auto)]

mod joining;
pub mod laws;
mod listing;
mod name;
mod part;
mod splitting;
mod writing;

pub use joining::assemble;
pub use name::part_name;
pub use part::SplitRule;
pub use splitting::disassemble;
