//! The JSON of values without parts.
ghost use Rattle.std.specs.Prelude.{◌≡◌, ℕ, ◌++◌, List, length, decimal, OnOk, string_bytes};
ghost use Rattle.std.specs.Fmt.{signed_decimal};
ghost use Rattle.std.specs.Option.{option_map_or};
ghost use Rattle.jfr_base.specs.Integer.{worth_within};
ghost use Rattle.jfr_layout.specs.Classes.{inline_form};
ghost use Rattle.jfr_layout.specs.declared.form.Form.TheVariants as forms;
ghost use Rattle.jfr_text.specs.Spans.{content_of};
ghost use Rattle.jfr_text.specs.Strings.{text_of};
ghost use Rattle.serde_json.specs.Data.{boolean, null};
ghost use Rattle.serde_json.specs.Written.{compact_text};
ghost use Rattle.jfr_show.specs.Json.{base_json, text_json};
ghost use Rattle.jfr_show.specs.Leaves.{hex};

use super::string::push_string;
use crate::TextBuilder;
use crate::leaf::show_hex;
use itoa::Buffer;
use jfr_base::{NoMemory, signed};
use jfr_layout::Kind;
use jfr_text::{Characters, StringSpan};
use std::alloc::Global;

/// Adds an integer of this kind.
pub(crate) fn push_integer(kind: Kind, value: u64, out: &mut String) -> Result<(), NoMemory>
    requires integer { inline_form kind ≡ forms.Integer }
    ensures ok { OnOk result ((bytes : List ℕ) → worth_within 8 bytes ≡ value → string_bytes out.new ≡ string_bytes out.old ++ compact_text (base_json kind bytes)) }
{
    match kind {
        Kind::Char => push_number(value % 65536, out),
        Kind::Short => push_signed(i64::from(((value % 65536) as u16).cast_signed()), out),
        Kind::Int => push_signed(i64::from(((value % 4294967296) as u32).cast_signed()), out),
        // `Kind::Long`, the only other integer.
        _ => push_signed(signed(value), out),
    }
}

/// Adds an unsigned number in decimal.
pub(crate) fn push_number(number: u64, out: &mut String) -> Result<(), NoMemory>
    ensures ok { OnOk result (string_bytes out.new ≡ string_bytes out.old ++ decimal number) }
{
    let mut buffer = Buffer::new();
    out.push_str(buffer.format(number))?;
    Ok(())
}

/// Adds a signed number in decimal.
fn push_signed(number: i64, out: &mut String) -> Result<(), NoMemory>
    ensures ok { OnOk result (string_bytes out.new ≡ string_bytes out.old ++ signed_decimal number) }
{
    let mut buffer = Buffer::new();
    out.push_str(buffer.format(number))?;
    Ok(())
}

/// Adds a value of a kind whose values have a fixed length.
pub(crate) fn push_raw(
    alloc: Global,
    kind: Kind,
    bytes: &[u8],
    out: &mut String,
) -> Result<(), NoMemory>
    requires raw { inline_form kind ≡ forms.Raw (length bytes.now) }
    ensures ok { OnOk result (string_bytes out.new ≡ string_bytes out.old ++ compact_text (base_json kind bytes.now)) }
{
    match kind {
        Kind::Boolean => push_boolean(bytes, out),
        Kind::Byte => push_byte(bytes, out),
        // `Kind::Float` and `Kind::Double`, the only others of a fixed length.
        _ => push_hex(alloc, bytes, out),
    }
}

fn push_boolean(bytes: &[u8], out: &mut String) -> Result<(), NoMemory>
    requires one { length bytes.now ≡ 1 }
    ensures ok { OnOk result (string_bytes out.new ≡ string_bytes out.old ++ compact_text (base_json Kind.Boolean bytes.now)) }
{
    push_flag(bytes[0] != 0, out)
}

/// Adds true or false.
pub(crate) fn push_flag(holds: bool, out: &mut String) -> Result<(), NoMemory>
    ensures ok { OnOk result (string_bytes out.new ≡ string_bytes out.old ++ compact_text (boolean holds)) }
{
    out.push_str(if holds { "true" } else { "false" })?;
    Ok(())
}

fn push_byte(bytes: &[u8], out: &mut String) -> Result<(), NoMemory>
    requires one { length bytes.now ≡ 1 }
    ensures ok { OnOk result (string_bytes out.new ≡ string_bytes out.old ++ compact_text (base_json Kind.Byte bytes.now)) }
{
    push_signed(i64::from(bytes[0].cast_signed()), out)
}

/// Adds a JSON string of bytes in hexadecimal.
fn push_hex(alloc: Global, bytes: &[u8], out: &mut String) -> Result<(), NoMemory>
    ensures ok { OnOk result (string_bytes out.new ≡ string_bytes out.old ++ compact_text (text_json (hex bytes.now))) }
{
    let mut text = TextBuilder::new(alloc);
    show_hex(bytes, &mut text)?;
    let string = text.into_string();
    push_string(alloc, string.as_str(), out)
}

/// Adds a string that isn't a key: its text, or null.
pub(crate) fn push_text(
    alloc: Global,
    span: &StringSpan<'_>,
    out: &mut String,
) -> Result<(), NoMemory>
    ensures ok { OnOk result (string_bytes out.new ≡ string_bytes out.old ++ compact_text (option_map_or text_json (text_of (content_of span.now)) null)) }
{
    match Characters::of(span) {
        Some(characters) => push_characters(alloc, characters, out),
        None => push_null(out),
    }
}

/// Adds null.
pub(crate) fn push_null(out: &mut String) -> Result<(), NoMemory>
    ensures ok { OnOk result (string_bytes out.new ≡ string_bytes out.old ++ compact_text null) }
{
    out.push_str("null")?;
    Ok(())
}

/// Adds a JSON string of these characters.
fn push_characters(
    alloc: Global,
    characters: Characters<'_>,
    out: &mut String,
) -> Result<(), NoMemory>
    ensures ok { OnOk result (string_bytes out.new ≡ string_bytes out.old ++ compact_text (text_json characters.entry)) }
{
    let mut text = TextBuilder::new(alloc);
    text.push_characters(characters)?;
    let string = text.into_string();
    push_string(alloc, string.as_str(), out)
}
