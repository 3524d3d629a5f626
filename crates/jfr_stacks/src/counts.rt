//! Numbers of events by the text of their stack.
ghost use Rattle.std.specs.Prelude.{◌≡◌, ◌+◌, ◌^◌, ◌<◌, ◌++◌, OnErr, OnOk, Some, decimal, string_bytes};
ghost use Rattle.jfr_stacks.specs.Adding.{AddsText, Fits};
ghost use Rattle.jfr_stacks.specs.Folded.{line, lines_of};
ghost use Rattle.jfr_stacks.specs.Held.{counts_in};

use itoa::Buffer;
use jfr_base::NoMemory;
use std::alloc::Global;
use std::collections::BTreeMap;

/// Numbers of events by the text of their stack.
pub(crate) type CountMap = BTreeMap<String, u64>;

/// Adds events to the count of a text. Without events no text is added.
pub(crate) fn add_count(
    alloc: Global,
    counts: &mut CountMap,
    text: &str,
    count: u64,
) -> Result<(), NoMemory>
    requires { Fits count (counts_in counts.old) }
    ensures ok { OnOk result (AddsText (counts_in counts.old) (Some text.now) count (counts_in counts.new)) }
    ensures unchanged { OnErr result (counts_in counts.new ≡ counts_in counts.old) }
{
    if count == 0 {
        return Ok(());
    }
    match counts.get_mut(text) {
        Some(kept) => *kept += count,
        None => {
            counts.insert(String::from_str(alloc, text)?, count)?;
        }
    }
    Ok(())
}

/// Adds a line for each text, in the order of the texts' bytes.
pub(crate) fn push_lines(counts: &CountMap, out: &mut String) -> Result<(), NoMemory>
    ensures ok { OnOk result (string_bytes out.new ≡ string_bytes out.old ++ lines_of (counts_in counts.now)) }
{
    for (text, count) in counts.iter() {
        push_line(text.as_str(), *count, out)?;
    }
    Ok(())
}

/// Adds the line with a text and its count.
fn push_line(text: &str, count: u64, out: &mut String) -> Result<(), NoMemory>
    ensures ok { OnOk result (string_bytes out.new ≡ string_bytes out.old ++ line (text.now, count)) }
{
    let mut buffer = Buffer::new();
    out.push_str(text)?;
    out.push_str(" ")?;
    out.push_str(buffer.format(count))?;
    out.push_str("\n")?;
    Ok(())
}
