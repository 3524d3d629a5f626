//! Chunks of which single values are changed: what such a change owes, and the code that writes the rewritten chunk.
//! The changed values are read by their formats, the rewritten chunk is accepted with the same events and entries, and
//! every path leads to the changed leaves.
//!
//! | entry | what it is |
//! |---|---|
//! | `Rewriter` | how a chunk is rewritten: what becomes of leaves, the keys of entries, and how wide sizes are |
//! | `RewriteSource` | what a rewritten chunk is made from: the chunk, the kept events, the remaining entries, a `Rewriter` |
//! | `write_chunk` | writes the rewritten chunk |
//! | `WriteFault` | why that failed: an allocation, or a size that doesn't fit in its bytes |
//! | `changed_values_are_read` and the other functions of `laws` | the laws: they do nothing |
//!
//! In the contracts a `Rewrite` says how values are changed, which keys entries get, how wide sizes are, and what the
//! new metadata record is; `rewritten` is the chunk that follows from it, and what `write_chunk` writes. Two uses:
//!
//! - New keys: the change gives references and entries their new keys, the sizes keep their widths (`old_width`,
//!   law `sizes_are_carried`), and Follow stops nowhere.
//! - Masks: the change replaces the strings of some fields, entries keep their keys, sizes take the fewest bytes or
//!   five (`fewest_or_five`), so that they don't depend on the old ones, and Follow stops at masked strings.
//!
//! The laws ask that the change keeps what fits (`KeepsFit`), and that changed values refer to the new keys
//! (`Retargets`). The metadata record can be any bytes that describe the classes (`Describes`); those of
//! `new_metadata` do (law `remaining_classes_are_described`). Where Follow stops is a parameter of the law of paths
//! (`paths_lead_to_changed_leaves`).
//!
//! Read `specs/Changed.antt` first (changed values and leaves), then `specs/Rewrite.antt` (the bytes of the output),
//! `specs/Rewritten.antt` (what holds of it), `specs/Paths.antt` (where paths lead) and `specs/Writing.antt` (what the
//! result of writing says).
#![tactic(auto)]

mod checkpoints;
mod copying;
mod fault;
mod laws;
mod records;
mod rewriter;
mod size;
mod writer;

pub use fault::WriteFault;
pub use laws::{
    changed_values_are_read, paths_lead_to_changed_leaves, remaining_classes_are_described,
    rewritten_chunks_are_accepted, sizes_are_carried,
};
pub use rewriter::Rewriter;
pub use writer::{RewriteSource, write_chunk};
