//! Small recordings for tests: records, and chunks made of them. The program doesn't use this crate.
#![tactic(auto)]

mod assembler;
mod chunks;
mod jdk;
mod moments;
mod records;
mod slim;

pub use assembler::{Attribute, Element, Metadata, Source, assembled};
pub use chunks::{
    PLAIN, Times, USUAL, chunk_at, chunk_of, inert, inert_at, plain_with, with_classes,
    with_metadata,
};
pub use jdk::{
    ENTER_AND_LOAD_CLASSES, ENTER_CLASSES, LOAD_CLASSES, NO_JDK_EVENT_CLASSES,
    PARK_AND_ENTER_CLASSES, PARK_CLASSES, THREAD_AND_SYMBOLS, jdk_after, jdk_like, jdk_unnamed,
};
pub use moments::{Clock, timed};
pub use records::{
    BYTES_LEFT, CLASSES, KEYS, NO_CLASSES, NO_NODES, NO_POOLS, RINGS, STRINGS, STRINGS_SCRUBBED,
    THREE, THREE_SCRUBBED, TWICE, TWICE_SCRUBBED, UNKNOWN, WIDE, WIDE_SCRUBBED,
};
pub use slim::{CLASSES_OF_A, CLASSES_OF_B, NO_EVENT_CLASSES};
