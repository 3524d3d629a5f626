//! Strings of six kinds, and their texts.
//!
//! `read_string` reads a string in place (docs/FORMAT.md, Strings), and `text_of` makes its text. Without
//! making the text, `Characters` iterates over its characters, and `same_text` compares it with another text.
//! Read `specs/Strings.antt` first, for how a string is spelled and which text it has, and then
//! `specs/Spans.antt`, for what a span of bytes holds.
#![tactic(auto)]

mod characters;
mod laws;
mod read;
mod span;
mod text;
mod units;
mod utf16;

pub use characters::Characters;
pub use laws::{format_reads_strings, one_content, spelled_integers, strings_are_read};
pub use read::{is_bare, is_key, known_string, read_string, short_units_end};
pub use span::{
    EMPTY_BYTE, KEY_BYTE, LATIN_BYTE, NULL_BYTE, StringKind, StringSpan, UNITS_BYTE, UTF8_BYTE,
};
pub use text::{payload_text, same_text, text_of};
