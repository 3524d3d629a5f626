//! The text of the command `sample`.
ghost use Rattle.std.specs.Prelude.{◌≡◌, ◌≤◌, ◌++◌, List, length, IfOk, OnOk, IsTrue};
ghost use Rattle.jfr_show.specs.Texts.{is_ascii};
ghost use Rattle.jfr_show.specs.Totals.{number_line};
ghost use Rattle.jfr_chunk.specs.Parts.{EventAt};
ghost use Rattle.jfr_chunk.specs.Chosen.{kept_of};
ghost use Rattle.jfr_chunk.specs.Reach.{remain};
ghost use Rattle.jfr_chunk.specs.Scrub.{scrub_of};
ghost use Rattle.jfr_filter.specs.Filters.{describes};
ghost use Rattle.jfr_report.specs.Demo.{counted, lines_of, only_a, sampled};

use jfr_base::ReadFault;
use jfr_chunk::Chunk;
use jfr_filter::{Filter, Side};
use jfr_outside::{NoMemory, Text};
use jfr_sample::sample;
use jfr_scrub::Scrubber;
use jfr_show::TextBuilder;
use std::alloc::Global;

/// Six lines on the sample of a seed with this many events: how many events, constants and bytes it has, and
/// how many of each are kept when it is scrubbed with only the events of `t.A`.
pub fn sample_text(alloc: Global, seed: u32, events: u32) -> Result<Text, NoMemory>
    requires some { 1 ≤ events }
    requires most { events ≤ 1000000 }
    ensures exact { IfOk result (λ text. text ≡ sampled seed events) }
{
    let bytes = sample(alloc, seed, events)?;
    let chunk = match Chunk::read(alloc, &bytes) {
        Ok(chunk) => chunk,
        Err(ReadFault::Memory) => return Err(NoMemory),
        // Every sample is accepted: `sample_is_accepted`.
        Err(ReadFault::Flawed(_)) => unreachable!(),
    };
    counted(alloc, &chunk)
}

/// The six lines of a chunk, which is scrubbed for them.
fn counted(alloc: Global, chunk: &Chunk<'_>) -> Result<Text, NoMemory>
    ensures ok { IfOk result (λ text. text ≡ counted chunk.now) }
{
    let scrubber = scrubbed(alloc, chunk)?;
    lines_of(alloc, chunk, &scrubber)
}

/// The scrubbed chunk, with only the events of `t.A`, written.
fn scrubbed<'a>(alloc: Global, chunk: &Chunk<'a>) -> Result<Scrubber<'a>, NoMemory>
    ensures written { IfOk result (λ s. s.written ≡ scrub_of (describes only_a) chunk.now (kept_of only_a chunk.now)) }
    ensures events { IfOk result (λ s. s.events ≡ length (kept_of only_a chunk.now)) }
    ensures entries { IfOk result (λ s. s.entries ≡ length (remain chunk.now (kept_of only_a chunk.now))) }
{
    let filter = only_a(alloc)?;
    let mut scrubber = Scrubber::prepare(alloc, chunk, &filter)?;
    scrubber.write();
    Ok(scrubber)
}

/// The six lines of a chunk and its scrubber.
fn lines_of(alloc: Global, chunk: &Chunk<'_>, scrubber: &Scrubber<'_>) -> Result<Text, NoMemory>
    ensures ok { IfOk result (λ text. (kept : List EventAt) → scrubber.now.events ≡ length kept → scrubber.now.entries ≡ length (remain chunk.now kept)
        → scrubber.now.written ≡ scrub_of (describes only_a) chunk.now kept → text ≡ lines_of chunk.now kept) }
{
    let mut text = TextBuilder::new(alloc);
    push_count(&mut text, "events", chunk.event_count())?;
    push_count(&mut text, "kept events", scrubber.kept_events())?;
    push_count(&mut text, "constants", chunk.pools().len())?;
    push_count(&mut text, "kept constants", scrubber.kept_entries())?;
    push_count(&mut text, "bytes", chunk.bytes().len())?;
    push_count(&mut text, "kept bytes", scrubber.bytes().len())?;
    Ok(text.into_text()?)
}

/// The filter that keeps the events of `t.A`.
fn only_a(alloc: Global) -> Result<Filter, NoMemory>
    ensures ok { IfOk result (λ filter. filter ≡ only_a) }
{
    let mut filter = Filter::new(alloc);
    match filter.add(Side::IncludeEvents, "t.A") {
        Ok(()) => Ok(filter),
        Err(_) => Err(NoMemory),
    }
}

fn push_count(text: &mut TextBuilder, word: &str, count: usize) -> Result<(), NoMemory>
    requires ascii { IsTrue (is_ascii word.now) }
    ensures ok { OnOk result (text.new ≡ text.old ++ number_line word.now count) }
{
    text.push_ascii(word)?;
    text.push_ascii(" ")?;
    text.push_number(count as u64)?;
    text.push_ascii("\n")
}
