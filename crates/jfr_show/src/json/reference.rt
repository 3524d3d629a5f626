//! The JSON of references that aren't followed.
ghost use Rattle.std.specs.Prelude.{◌≡◌, ◌++◌, OnOk, string_bytes};
ghost use Rattle.serde_json.specs.Written.{compact_text};
ghost use Rattle.jfr_show.specs.Json.{missing_json, reference_json};

use super::leaf::push_number;
use super::source::JsonSource;
use super::string::push_string;
use crate::reference::class_name;
use jfr_base::NoMemory;

/// Adds the name of a class and a key.
pub(crate) fn push_name(
    source: &JsonSource<'_, '_>,
    class: u64,
    key: u64,
    out: &mut String,
) -> Result<(), NoMemory>
    ensures ok { OnOk result (string_bytes out.new ≡ string_bytes out.old ++ compact_text (reference_json source.now.chunk.now.classes (class, key))) }
{
    out.push_str("{\"class\":")?;
    push_string(source.alloc, class_name(source.chunk, class), out)?;
    out.push_str(",\"key\":")?;
    push_number(key, out)?;
    out.push_str("}")?;
    Ok(())
}

/// Adds the name of a class and a key, and that no entry is in force for them.
pub(crate) fn push_missing(
    source: &JsonSource<'_, '_>,
    class: u64,
    key: u64,
    out: &mut String,
) -> Result<(), NoMemory>
    ensures ok { OnOk result (string_bytes out.new ≡ string_bytes out.old ++ compact_text (missing_json source.now.chunk.now.classes (class, key))) }
{
    out.push_str("{\"class\":")?;
    push_string(source.alloc, class_name(source.chunk, class), out)?;
    out.push_str(",\"key\":")?;
    push_number(key, out)?;
    out.push_str(",\"missing\":true}")?;
    Ok(())
}
