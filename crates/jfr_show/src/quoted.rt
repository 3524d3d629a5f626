//! Texts between quotes.
ghost use Rattle.std.specs.Prelude.{◌≡◌, ◌++◌, OnOk};
ghost use Rattle.std.specs.Str.{chars};
ghost use Rattle.jfr_show.specs.Texts.{escaped, quoted};

use crate::TextBuilder;
use jfr_base::NoMemory;
use jfr_text::Characters;

/// Adds a text between quotes.
pub fn push_quoted(text: &str, out: &mut TextBuilder) -> Result<(), NoMemory>
    ensures ok { OnOk result (out.new ≡ out.old ++ quoted (chars text.now)) }
{
    out.push_ascii("\"")?;
    for character in text.chars() {
        push_escaped(character, out)?;
    }
    out.push_ascii("\"")
}

/// Adds the characters of a string between quotes.
pub(crate) fn push_characters(
    characters: Characters<'_>,
    out: &mut TextBuilder,
) -> Result<(), NoMemory>
    ensures ok { OnOk result (out.new ≡ out.old ++ quoted characters.entry) }
{
    out.push_ascii("\"")?;
    for character in characters {
        push_escaped(character, out)?;
    }
    out.push_ascii("\"")
}

/// Adds a character, escaped if it must be.
fn push_escaped(character: char, out: &mut TextBuilder) -> Result<(), NoMemory>
    ensures ok { OnOk result (out.new ≡ out.old ++ escaped character) }
{
    if character == '"' {
        return out.push_ascii("\\\"");
    }
    if character == '\\' {
        return out.push_ascii("\\\\");
    }
    if character < ' ' || character == '\u{7F}' {
        out.push_ascii("\\u00")?;
        return out.push_hex(character as u8);
    }
    out.push(character)
}
