//! JSON strings.
ghost use Rattle.std.specs.Prelude.{◌≡◌, [], ◌∷◌, ◌++◌, IsTrue, OnOk, string_bytes};
ghost use Rattle.serde_json.specs.Data.{string};
ghost use Rattle.serde_json.specs.Written.{compact_text};

use jfr_base::NoMemory;
use serde_json::Value;
use std::alloc::Global;

/// Adds a JSON string. Most texts need no escapes and are copied; `serde_json` writes the others.
pub(crate) fn push_string(alloc: Global, text: &str, out: &mut String) -> Result<(), NoMemory>
    ensures ok { OnOk result (string_bytes out.new ≡ string_bytes out.old ++ compact_text (string text.now)) }
{
    if !is_plain(text) {
        return push_escaped(alloc, text, out);
    }
    out.push_str("\"")?;
    out.push_str(text)?;
    out.push_str("\"")?;
    Ok(())
}

/// Whether no character of a text needs an escape.
fn is_plain(text: &str) -> bool
    ensures { IsTrue result → compact_text (string text.now) ≡ 34 ∷ (text.now ++ 34 ∷ []) }
{
    for byte in text.as_bytes() {
        if *byte < 32 || *byte == b'"' || *byte == b'\\' {
            return false;
        }
    }
    true
}

/// Adds a JSON string as `serde_json` writes it.
fn push_escaped(alloc: Global, text: &str, out: &mut String) -> Result<(), NoMemory>
    ensures ok { OnOk result (string_bytes out.new ≡ string_bytes out.old ++ compact_text (string text.now)) }
{
    let value = Value::try_from_str(alloc, text)?;
    let written = value.to_string(alloc)?;
    out.push_str(written.as_str())?;
    Ok(())
}
