//! Masks: pseudonyms for the texts of chosen fields, `masked-1`, `masked-2` and so on, and what becomes of a chunk in
//! which they are written.
//!
//! A text that is neither empty nor known is shown as `masked-N`, where N is its number in a dictionary. That of a
//! method's descriptor, which begins with `(`, is `()masked-N`. So equal texts are shown alike, different ones
//! differently, and no known text is shown for another.
//!
//! | type | what it is |
//! |---|---|
//! | `Dictionary` | the masked texts, with their numbers |
//! | `Known` | the known texts: lines of a file |
//! | `Shown` | what is shown for a text, as bytes |
//! | `mask_chunk`, `MaskOptions`, `MaskFault` | masks a chunk |
//! | `MaskedFields` | which fields of a chunk's classes are masked, by patterns over `CLASS.FIELD` |
//!
//! A masked chunk has the kept events, and the entries that these reach by paths that go no further at masked strings.
//! In each masked string, what is shown for its text is written in place of the text, or of the key that leads to it;
//! anything else stays. The width of a size doesn't depend on the old width, which says how long the texts were. The
//! dictionary goes on from chunk to chunk, so a text has one pseudonym in a whole recording.
//!
//! | law | what it says |
//! |---|---|
//! | `laws::texts_are_numbered`, `laws::pseudonyms_are_distinct` | what holds of all dictionaries and pseudonyms |
//! | `masked_values_are_read` | a masked value is one of the same shape |
//! | `what_remains_is_reached` | which entries a masked chunk has |
//! | `masked_chunks_are_accepted`, `masked_chunks_mean_the_same` | a masked chunk is accepted; its paths lead to the same, except for masked strings |
//! | `outputs_are_masked` | both, for a chunk and for each chunk of a recording |
//! | `numbers_hold_in_all_chunks` | a text has one pseudonym in all chunks |
//! | `masks_keep_secrets`, `equal_outputs` | chunks, and recordings, that differ only in masked texts have equal outputs |
//!
//! Read `specs/Pseudonyms.antt` first, for what is shown, and then `specs/Fields.antt`, for which fields are masked.
//! The laws of chunks follow from `specs/Masked.antt` (values), `specs/ReachBut.antt` (entries), `specs/MaskOf.antt`
//! (chunks and recordings), `specs/Secrecy.antt` (what may differ) and `specs/Headline.antt` (what holds).
#![tactic(auto)]

mod chunk_laws;
mod dictionary;
mod event_strings;
mod fault;
mod fields;
mod holders;
mod known;
pub mod laws;
mod left;
mod mask;
mod masker;
mod noted;
mod numbering;
mod plain;
mod recording;
mod recording_laws;
mod references;
mod shown;
mod slots;
mod stream;
mod table;
mod text_list;
mod texts;
mod widths;

pub use chunk_laws::{
    equal_outputs, masked_chunks_are_accepted, masked_chunks_mean_the_same, masked_values_are_read,
    masks_keep_secrets, numbers_hold_in_all_chunks, outputs_are_masked, what_remains_is_reached,
};
pub use dictionary::Dictionary;
pub use fault::MaskFault;
pub use fields::MaskedFields;
pub use known::Known;
pub use mask::{MaskOptions, mask_chunk};
pub use recording_laws::{
    chunks_are_masked, recordings_have_one_dictionary, recordings_keep_secrets,
};
pub use shown::Shown;
pub use stream::{MaskFiles, MaskRule, mask_stream};
