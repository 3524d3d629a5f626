//! The text of a string: made, and compared.
ghost use Rattle.std.specs.Prelude.{◌≡◌, ◌↔◌, ◌∷◌, [], ◌++◌, Some, IfOk, IfSome, OnOk, IsTrue, string_bytes};
ghost use Rattle.std.specs.Str.{chars, IsAscii};
ghost use Rattle.bstr.specs.Utf8.{lossy_chars};
ghost use Rattle.jfr_text.specs.Spans.{content_of};
ghost use Rattle.jfr_text.specs.Strings.{text_of};

use crate::characters::Characters;
use crate::{StringKind, StringSpan};
use jfr_base::{NoMemory, Text};
use std::alloc::Global;

/// The text of a string; `None` exactly for the null string and for a key. Bytes that aren't UTF-8, and
/// surrogates without a partner, read as U+FFFD.
pub fn text_of(alloc: Global, span: &StringSpan<'_>) -> Result<Option<Text>, NoMemory>
    ensures ok { IfOk result (λ text. text ≡ text_of (content_of span.now)) }
{
    match payload_text(span) {
        Some(text) => Ok(Some(Text::make(alloc, text)?)),
        None => decoded_text(alloc, span),
    }
}

/// The payload, if it is the text: nearly all strings are ASCII, with one byte for each character. `None` if
/// it isn't, and for strings without a payload. It copies nothing.
pub fn payload_text<'a>(span: &StringSpan<'a>) -> Option<&'a str>
    ensures { IfSome result (λ text. text_of (content_of span.now) ≡ Some (chars text.now)) }
{
    match span.kind {
        StringKind::Utf8 => as_utf8(span.payload),
        StringKind::Latin => as_ascii(span.payload),
        StringKind::Units if span.count == span.payload.len() as u64 => as_ascii(span.payload),
        StringKind::Units | StringKind::Null | StringKind::Empty | StringKind::Key => None,
    }
}

/// The bytes, if they are UTF-8.
fn as_utf8(bytes: &[u8]) -> Option<&str>
    ensures { IfSome result (λ text. lossy_chars bytes.now ≡ chars text.now) }
{
    match str::from_utf8(bytes) {
        Ok(text) => Some(text),
        Err(_) => None,
    }
}

/// The bytes, if they are ASCII.
fn as_ascii(bytes: &[u8]) -> Option<&str>
    ensures { IfSome result (λ text. IsAscii bytes.now × (bytes.now ≡ chars text.now)) }
{
    if !bytes.is_ascii() {
        return None;
    }
    match str::from_utf8(bytes) {
        Ok(text) => Some(text),
        Err(_) => None,
    }
}

/// The text of a string, made of its characters.
fn decoded_text(alloc: Global, span: &StringSpan<'_>) -> Result<Option<Text>, NoMemory>
    ensures ok { IfOk result (λ text. text ≡ text_of (content_of span.now)) }
{
    match Characters::of(span) {
        Some(characters) => Ok(Some(made_of(alloc, characters)?)),
        None => Ok(None),
    }
}

/// The text with these characters.
fn made_of(alloc: Global, characters: Characters<'_>) -> Result<Text, NoMemory>
    ensures ok { IfOk result (λ text. text ≡ characters.entry) }
{
    let mut text = String::new(alloc);
    for character in characters {
        add(&mut text, character)?;
    }
    Text::from_string(text)
}

/// Adds a character at the end.
fn add(text: &mut String, character: char) -> Result<(), NoMemory>
    ensures ok { OnOk result (chars (string_bytes text.new) ≡ chars (string_bytes text.old) ++ character ∷ []) }
{
    text.push(character)?;
    Ok(())
}

/// Whether the string has this text; the null string and a key have none. It allocates nothing.
pub fn same_text(span: &StringSpan<'_>, text: &str) -> bool
    ensures exact { IsTrue result ↔ (text_of (content_of span.now) ≡ Some (chars text.now)) }
{
    match Characters::of(span) {
        Some(characters) => characters.eq(text.chars()),
        None => false,
    }
}
