//! The output of a chunk with new keys for its constants, and with the first entry of each group.
//!
//! The keys of a class that the kept events use, directly or through constants, fall into groups: two keys are
//! in the same group if the values of their entries in force have the same bytes in the chunk. A key without an
//! entry in force is a group of its own. The groups of a class are numbered from 0, in the order of their
//! smallest keys, and the number is the new key.
//!
//! The output is the chunk rewritten (`jfr_rewrite: Rewrite.rewritten`) as `Renumber.with_keys` says, so the laws
//! of `jfr_rewrite` hold of it. `Renumberer` makes the output of one chunk, `renumber_stream` that of a recording.
//! The laws say what the output keeps. Read `specs/Renumber.antt` first (the new keys and the bytes of the output),
//! then `specs/Meaning.antt` (what the output means) and `specs/Headline.antt` (the output of a recording).
#![tactic(auto)]

mod entry_keys;
mod finding;
mod firsts;
mod key_places;
mod laws;
mod missing;
mod numbered;
mod numbering;
mod output;
mod renumberer;
mod rewriting;
mod stream;
mod values;

pub use laws::{
    firsts_one_by_one, keys_are_numbered, new_keys_depend_on_order, only_used_keys_matter,
    only_what_remains_matters, output_is_what_it_tells, rekeyed_values_are_read, renamed_paths,
    renumbered_means_the_same, used_keys_are_used,
};
pub use renumberer::Renumberer;
pub use stream::renumber_stream;
