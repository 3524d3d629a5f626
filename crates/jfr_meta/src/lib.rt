//! The metadata of a chunk: a table of strings, a tree of elements, and the classes that the tree describes
//! (docs/FORMAT.md, Metadata).
//!
//! | entry | what it is |
//! |---|---|
//! | `read_metadata` | reads the metadata record of a chunk, or returns its first flaw |
//! | `Metadata` | the contents of a record: its strings, its tree, and the classes that they describe |
//! | `Element`, `Elements` | an element of the tree, and a list of elements |
//! | `Pairs` | the attributes of an element |
//! | `ClassNames` | the strings that name a class and its categories, by `class_names` |
//! | `staying`, `Ids` | the classes that a scrubbed chunk needs, as a set of ids |
//! | `slim` | the record with only these |
//! | `write_metadata`, `metadata_len` | a record of strings and a tree, and its length |
//!
//! Read `specs/Trees.antt` first, then `specs/Body.antt` for the body of a record, `specs/Attributes.antt` and
//! `specs/Described.antt` for the classes that it describes and the flaws, `specs/Written.antt` for the bytes
//! that are written, and `specs/Stays.antt` and `specs/Slimmed.antt` for the smaller record.
#![tactic(auto)]

mod attributes;
mod body;
mod class;
mod described;
mod element;
mod field;
mod ids;
mod laws;
mod metadata;
mod named;
mod names;
mod pairs;
mod rewriting;
mod slimming;
mod stay;
mod strings;
mod tabling;
mod values;
mod write;

pub use attributes::id_of;
pub use element::{Element, Elements};
pub use ids::Ids;
pub use laws::{elements_are_spelled, one_description};
pub use metadata::{Metadata, read_metadata};
pub use named::{ClassNames, class_names};
pub use pairs::Pairs;
pub use slimming::slim;
pub use stay::staying;
pub use write::{metadata_len, write_metadata};
