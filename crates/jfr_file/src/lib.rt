//! Reading a whole file of a place, up to a limit of its length.
//!
//! Read `specs/Files.antt` first: what each answer says about the file and the place.
#![tactic(auto)]

mod file;

pub use file::{FileFault, read_file};
