//! Reading the table of strings.
ghost use Rattle.std.specs.Prelude.{◌≡◌, ◌<◌, ◌≤◌, length, false, IfOk};
ghost use Rattle.jfr_base.specs.Formats.{run, times};
ghost use Rattle.jfr_text.specs.Spans.{answer_of, content_of};
ghost use Rattle.jfr_text.specs.Strings.{string_format};
ghost use Rattle.jfr_meta.specs.Answers.{Returns};
ghost use Rattle.jfr_meta.specs.Body.{table_string, table_text};

use jfr_base::{Flaw, NoMemory, ReadFault, Reason, Text, Words};
use jfr_text::{StringSpan, read_string, text_of};
use std::alloc::Global;

/// The kind byte of a key.
const KEY: u8 = 2;

/// Reads the string that starts at `at`, which can't be a key.
fn read_plain<'a>(bytes: &'a [u8], at: usize, end: usize) -> Result<StringSpan<'a>, Flaw>
    requires order { at ≤ end }
    requires within { end ≤ length bytes.now }
    ensures exact { answer_of result ≡ run (string_format false) bytes.now end at }
    ensures range { IfOk result (λ s. (at < s.end) × (s.end ≤ end)) }
{
    if at == end {
        return Err(Flaw::short(at));
    }
    if bytes[at] == KEY {
        return Err(Flaw {
            offset: at as u64,
            reason: Reason::StringKind,
        });
    }
    read_string(bytes, at, end)
}

/// The text of a string of the table: that of a null string is empty.
fn table_text(alloc: Global, string: &StringSpan<'_>) -> Result<Text, NoMemory>
    ensures ok { IfOk result (λ text. text ≡ table_text (content_of string.now)) }
{
    match text_of(alloc, string)? {
        Some(text) => Ok(text),
        None => Text::make(alloc, ""),
    }
}

/// Reads the string of the table that starts at `at`: its text, and the offset after it.
fn read_text(alloc: Global, bytes: &[u8], at: usize, end: usize) -> Result<(Text, usize), ReadFault>
    requires order { at ≤ end }
    requires within { end ≤ length bytes.now }
    ensures exact { Returns (run table_string bytes.now end at) result }
    ensures range { IfOk result (λ r. (at < r.1) × (r.1 ≤ end)) }
{
    let string = read_plain(bytes, at, end)?;
    let text = table_text(alloc, &string)?;
    Ok((text, string.end))
}

/// Reads `count` strings of the table: their texts, and the offset after them. A string takes at least one
/// byte. So memory is allocated at once for the most strings that the bytes left can hold, and the list never
/// grows.
pub(crate) fn read_strings(
    alloc: Global,
    bytes: &[u8],
    at: usize,
    end: usize,
    count: u64,
) -> Result<(Words, usize), ReadFault>
    requires order { at ≤ end }
    requires within { end ≤ length bytes.now }
    ensures exact { Returns (run (times count table_string) bytes.now end at) result }
    ensures range { IfOk result (λ r. (at ≤ r.1) × (r.1 ≤ end)) }
{
    let room = count.min((end - at) as u64) as usize;
    let mut strings = Words::with_capacity(alloc, room)?;
    let mut place = at;
    for _ in 0..count {
        let (text, next) = read_text(alloc, bytes, place, end)?;
        strings.push_text(text)?;
        place = next;
    }
    Ok((strings, place))
}
