//! The totals of a recording as JSON.
ghost use Rattle.std.specs.Prelude.{◌≡◌, ◌++◌, IfOk, OnOk, decimal, string_bytes};
ghost use Rattle.serde_json.specs.Written.{compact_text};
ghost use Rattle.jfr_show.specs.Held.{tallies_in};
ghost use Rattle.jfr_show.specs.Json.{text_json};
ghost use Rattle.jfr_show.specs.Totals.{summary_json, tallies_json, tally_json, totals_json, version_shown};

use super::{Summary, show_version};
use crate::TextBuilder;
use crate::beginning::Beginning;
use crate::json::{push_comma, push_string};
use crate::tally::{Tally, TallyMap};
use itoa::Buffer;
use jfr_base::{NoMemory, Text};
use std::alloc::Global;

/// The line of JSON of the totals: an object with the nine numbers and, for each name of a class with events,
/// an object, in the order of the names' bytes. Without a chunk the line is empty.
pub fn summary_json(alloc: Global, summary: &Summary) -> Result<Text, NoMemory>
    ensures ok { IfOk result (λ text. text ≡ summary_json summary.now) }
{
    let mut out = TextBuilder::new(alloc);
    show_summary(alloc, summary, &mut out)?;
    out.into_text()
}

// Adds the line of the totals.
#[tactic(auto, unfolding(crate::specs::Totals::summary_json))]
fn show_summary(alloc: Global, summary: &Summary, out: &mut TextBuilder) -> Result<(), NoMemory>
    ensures ok { OnOk result (out.new ≡ out.old ++ summary_json summary.now) }
{
    match summary.first {
        Some(first) => {
            let mut line = String::new(alloc);
            push_totals(alloc, summary, first, &mut line)?;
            out.push_line(line.as_str())
        }
        None => Ok(()),
    }
}

// Adds the totals of a recording with this beginning.
fn push_totals(
    alloc: Global,
    summary: &Summary,
    first: Beginning,
    out: &mut String,
) -> Result<(), NoMemory>
    ensures ok { OnOk result (string_bytes out.new ≡ string_bytes out.old ++ compact_text (totals_json summary.now first)) }
{
    out.push_str("{\"version\":")?;
    push_version(alloc, first, out)?;
    push_total(",\"chunks\":", u128::from(summary.chunks), out)?;
    push_total(",\"bytes\":", u128::from(summary.bytes), out)?;
    push_total(",\"start\":", u128::from(first.start_nanos), out)?;
    push_total(",\"duration\":", summary.duration, out)?;
    push_total(",\"events\":", u128::from(summary.events), out)?;
    push_total(",\"checkpoints\":", u128::from(summary.checkpoints), out)?;
    push_total(",\"constants\":", u128::from(summary.constants), out)?;
    push_total(",\"inert\":", u128::from(summary.inert), out)?;
    out.push_str(",\"types\":")?;
    push_tallies(alloc, &summary.tallies, out)?;
    out.push_str("}")?;
    Ok(())
}

// Adds the version as a JSON string.
fn push_version(alloc: Global, first: Beginning, out: &mut String) -> Result<(), NoMemory>
    ensures ok { OnOk result (string_bytes out.new ≡ string_bytes out.old ++ compact_text (text_json (version_shown first))) }
{
    let mut text = TextBuilder::new(alloc);
    show_version(first, &mut text)?;
    let string = text.into_string();
    push_string(alloc, string.as_str(), out)
}

// Adds a text and a number.
fn push_total(before: &str, number: u128, out: &mut String) -> Result<(), NoMemory>
    ensures ok { OnOk result (string_bytes out.new ≡ string_bytes out.old ++ (before.now ++ decimal number)) }
{
    let mut buffer = Buffer::new();
    out.push_str(before)?;
    out.push_str(buffer.format(number))?;
    Ok(())
}

// Adds an array with an object for each name, in the order of the names' bytes.
fn push_tallies(alloc: Global, tallies: &TallyMap, out: &mut String) -> Result<(), NoMemory>
    ensures ok { OnOk result (string_bytes out.new ≡ string_bytes out.old ++ compact_text (tallies_json (tallies_in tallies.now))) }
{
    out.push_str("[")?;
    let mut later = false;
    for (name, tally) in tallies.iter() {
        push_comma(later, out)?;
        push_tally(alloc, name.as_str(), *tally, out)?;
        later = true;
    }
    out.push_str("]")?;
    Ok(())
}

// Adds the object of a name.
fn push_tally(alloc: Global, name: &str, tally: Tally, out: &mut String) -> Result<(), NoMemory>
    ensures ok { OnOk result (string_bytes out.new ≡ string_bytes out.old ++ compact_text (tally_json (name.now, tally))) }
{
    out.push_str("{\"name\":")?;
    push_string(alloc, name, out)?;
    push_total(",\"events\":", u128::from(tally.events), out)?;
    push_total(",\"bytes\":", u128::from(tally.bytes), out)?;
    out.push_str("}")?;
    Ok(())
}
