//! A whole chunk: accepted, or refused with its first flaw (docs/FORMAT.md, Refusals); and what its parts
//! mean.
//!
//! Read `specs/Parts.antt` first, then `specs/Refusal.antt`, `specs/Paths.antt`, `specs/Reach.antt`,
//! `specs/Scrub.antt`, `specs/Meaning.antt` and `specs/Laws.antt`.
//!
//! | entry | what it is |
//! |---|---|
//! | `Chunk` | an accepted chunk: `Chunk::read` reads it, or returns its first flaw |
//! | `Buffers` | the memory of a chunk's indexes, which `Chunk::read_in` uses again |
//! | `Event` | an event, by `Chunk::event`: its record, its class, and the node of its fields |
//! | `Chunk::classes`, `Chunk::metadata` | the classes that the metadata describes, and the metadata itself |
//! | `Chunk::pools`, `Chunk::entry_node` | the entries of all checkpoints, and the node of an entry's value |
//! | `Kept` | a choice of events |
//! | `MissingRef` | a reference of an event that has no entry, by `Chunk::missing_refs` |
//! | `KeyPlace` | where a key of an event is spelled, by `Chunk::event_keys` |
//! | `UsedClasses` | the classes of some events |
//!
//! From an event's node `child` of `jfr_value` leads to fields and items; `target` and `Chunk::pools` lead to
//! the entry to which a reference refers. So this leads from the first event to a field of a constant, or to
//! `None`:
//!
//! ```
//! let event = chunk.event(0)?;
//! let reference = child(chunk.classes(), &event.node, &Step::Field(1))?;
//! let (class, key) = target(chunk.classes(), &reference)?;
//! let constant = chunk.entry_node(chunk.pools().entry(class, key)?)?;
//! child(chunk.classes(), &constant, &Step::Field(0))
//! ```
//!
//! `constant_field` of `jfr_example` is such a walk, and its `texts_of` returns the texts to which names of
//! fields lead from all events. `jfr_thread_names` is a whole program to copy: it prints the names of threads.
#![tactic(auto)]

mod buffers;
mod chunk;
mod event;
mod event_index;
mod kept;
mod key_places;
mod laws;
mod missing;
mod read;
mod refs;
mod used;

pub use buffers::Buffers;
pub use chunk::Chunk;
pub use event::Event;
pub use kept::Kept;
pub use key_places::KeyPlace;
pub use laws::{computed_answer, marked_by_paths, one_answer, one_parts, same_paths};
pub use missing::MissingRef;
pub use used::UsedClasses;
