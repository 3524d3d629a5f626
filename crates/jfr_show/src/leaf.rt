//! The text of values without parts.
ghost use Rattle.std.specs.Prelude.{◌≡◌, ℕ, ◌++◌, List, length, codes, OnOk};
ghost use Rattle.std.specs.Option.{option_map_or};
ghost use Rattle.jfr_base.specs.Integer.{worth_within};
ghost use Rattle.jfr_layout.specs.Classes.{inline_form};
ghost use Rattle.jfr_layout.specs.declared.form.Form.TheVariants as forms;
ghost use Rattle.jfr_text.specs.Spans.{content_of};
ghost use Rattle.jfr_text.specs.Strings.{text_of};
ghost use Rattle.jfr_show.specs.Leaves.{base_shown, hex};
ghost use Rattle.jfr_show.specs.Texts.{quoted};

use crate::TextBuilder;
use crate::quoted::push_characters;
use jfr_base::{NoMemory, signed};
use jfr_layout::Kind;
use jfr_text::{Characters, StringSpan};

/// Adds an integer of this kind.
pub(crate) fn show_integer(kind: Kind, value: u64, out: &mut TextBuilder) -> Result<(), NoMemory>
    requires integer { inline_form kind ≡ forms.Integer }
    ensures ok { OnOk result ((bytes : List ℕ) → worth_within 8 bytes ≡ value → out.new ≡ out.old ++ base_shown kind bytes) }
{
    match kind {
        Kind::Char => out.push_number(value % 65536),
        Kind::Short => out.push_signed(i64::from(((value % 65536) as u16).cast_signed())),
        Kind::Int => out.push_signed(i64::from(((value % 4294967296) as u32).cast_signed())),
        // `Kind::Long`, the only other integer.
        _ => out.push_signed(signed(value)),
    }
}

/// Adds a value of a kind whose values have a fixed length.
pub(crate) fn show_raw(kind: Kind, bytes: &[u8], out: &mut TextBuilder) -> Result<(), NoMemory>
    requires raw { inline_form kind ≡ forms.Raw (length bytes.now) }
    ensures ok { OnOk result (out.new ≡ out.old ++ base_shown kind bytes.now) }
{
    match kind {
        Kind::Boolean => show_boolean(bytes, out),
        Kind::Byte => show_byte(bytes, out),
        // `Kind::Float` and `Kind::Double`, the only others of a fixed length.
        _ => show_hex(bytes, out),
    }
}

fn show_boolean(bytes: &[u8], out: &mut TextBuilder) -> Result<(), NoMemory>
    requires one { length bytes.now ≡ 1 }
    ensures ok { OnOk result (out.new ≡ out.old ++ base_shown Kind.Boolean bytes.now) }
{
    if bytes[0] == 0 {
        out.push_ascii("false")
    } else {
        out.push_ascii("true")
    }
}

fn show_byte(bytes: &[u8], out: &mut TextBuilder) -> Result<(), NoMemory>
    requires one { length bytes.now ≡ 1 }
    ensures ok { OnOk result (out.new ≡ out.old ++ base_shown Kind.Byte bytes.now) }
{
    out.push_signed(i64::from(bytes[0].cast_signed()))
}

/// Adds bytes in hexadecimal.
pub(crate) fn show_hex(bytes: &[u8], out: &mut TextBuilder) -> Result<(), NoMemory>
    ensures ok { OnOk result (out.new ≡ out.old ++ hex bytes.now) }
{
    out.push_ascii("0x")?;
    for byte in bytes {
        out.push_hex(*byte)?;
    }
    Ok(())
}

/// Adds a string that isn't a key: its text between quotes, or `null`.
pub(crate) fn show_string(span: &StringSpan<'_>, out: &mut TextBuilder) -> Result<(), NoMemory>
    ensures ok { OnOk result (out.new ≡ out.old ++ option_map_or quoted (text_of (content_of span.now)) (codes "null")) }
{
    match Characters::of(span) {
        Some(characters) => push_characters(characters, out),
        None => out.push_ascii("null"),
    }
}
