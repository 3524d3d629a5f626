//! Appending integers and strings in the format's encoding.
ghost use Rattle.std.specs.Prelude.{◌≡◌, ◌+◌, ◌<◌, ◌^◌, ◌++◌, OnOk};
ghost use Rattle.std.specs.List.{flat_map};
ghost use Rattle.jfr_base.specs.Integer.{spell_in};
ghost use Rattle.jfr_sample.specs.Metadata.{string_of};

use jfr_base::{push_in, push_var};
use jfr_outside::NoMemory;

/// The length of a record's size.
const SIZE_LEN: usize = 4;

/// The kind of a string whose text is UTF-8.
const UTF8: u8 = 3;

/// Adds the size of a record. `body` is the length of what follows the size.
pub fn push_size(into: &mut Vec<u8>, body: usize) -> Result<(), NoMemory>
    requires { body + 4 < 2 ^ 28 }
    ensures { OnOk result (into.new.items ≡ into.old.items ++ spell_in 4 (4 + body)) }
{
    push_in(into, (SIZE_LEN + body) as u64, SIZE_LEN)?;
    Ok(())
}

/// Adds a text as a string of UTF-8.
pub fn push_string(into: &mut Vec<u8>, text: &str) -> Result<(), NoMemory>
    ensures { OnOk result (into.new.items ≡ into.old.items ++ string_of text.now) }
{
    into.push(UTF8)?;
    push_var(into, text.len() as u64)?;
    into.extend_from_slice(text.as_bytes())?;
    Ok(())
}

/// Adds texts as strings of UTF-8, one after another.
pub fn push_strings(into: &mut Vec<u8>, texts: &[&str]) -> Result<(), NoMemory>
    ensures { OnOk result (into.new.items ≡ into.old.items ++ flat_map (λ t. string_of t.now) texts.now) }
{
    for text in texts {
        push_string(into, text)?;
    }
    Ok(())
}
