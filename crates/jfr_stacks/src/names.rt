//! The names of classes and methods, as they are written.
ghost use Rattle.std.specs.Prelude.{◌≡◌, ◌<◌, [], ◌++◌, OnOk, codes, flat_map, string_bytes};
ghost use Rattle.std.specs.Char.{digit_char};
ghost use Rattle.std.specs.Str.{chars};
ghost use Rattle.jfr_value.specs.Nodes.{node_of};
ghost use Rattle.jfr_stacks.specs.Frames.{IsChunkValue};
ghost use Rattle.jfr_stacks.specs.Texts.{escaped, name_text};

use jfr_base::NoMemory;
use jfr_chunk::Chunk;
use jfr_path::{MOST_FOLLOWED, follow_references, text_at};
use jfr_value::Node;
use std::alloc::Global;

/// Adds the text of a string, escaped, or `?` if it has none.
#[tactic(auto, unfolding(crate::specs::Texts::name_text))]
pub(crate) fn push_text(
    alloc: Global,
    chunk: &Chunk<'_>,
    string: &Node<'_>,
    out: &mut String,
) -> Result<(), NoMemory>
    requires { IsChunkValue chunk.now string.now }
    ensures ok { OnOk result (string_bytes out.new ≡ string_bytes out.old ++ name_text chunk.now (node_of string.now) []) }
{
    let value = follow_references(chunk, string, MOST_FOLLOWED);
    match text_at(alloc, chunk, &value)? {
        Some(text) => push_escaped(text.as_str(), out),
        None => push_missing(out),
    }
}

/// Adds what is written for a missing name.
pub(crate) fn push_missing(out: &mut String) -> Result<(), NoMemory>
    ensures ok { OnOk result (string_bytes out.new ≡ string_bytes out.old ++ codes "?") }
{
    out.push_str("?")?;
    Ok(())
}

/// Adds a text with its special characters escaped.
fn push_escaped(text: &str, out: &mut String) -> Result<(), NoMemory>
    ensures ok { OnOk result (string_bytes out.new ≡ string_bytes out.old ++ flat_map escaped (chars text.now)) }
{
    for character in text.chars() {
        push_character(character, out)?;
    }
    Ok(())
}

/// Adds a character, escaped if it is special.
fn push_character(character: char, out: &mut String) -> Result<(), NoMemory>
    ensures ok { OnOk result (string_bytes out.new ≡ string_bytes out.old ++ escaped character) }
{
    if character <= ' ' || character == ';' || character == '\\' || character == '\u{7F}' {
        let byte = character as u8;
        out.push_str("\\u00")?;
        out.push(hex_digit(byte / 16))?;
        out.push(hex_digit(byte % 16))?;
        return Ok(());
    }
    out.push(character)?;
    Ok(())
}

/// A hexadecimal digit in lower case, of a value below 16.
fn hex_digit(number: u8) -> char
    requires { number < 16 }
    ensures digit { result ≡ digit_char number }
    ensures ascii { result < 128 }
{
    if number < 10 {
        char::from(b'0' + number)
    } else {
        char::from(b'a' + (number - 10))
    }
}
