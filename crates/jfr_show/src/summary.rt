//! The totals of a recording, and their text.
ghost use Rattle.std.specs.Prelude.{◌≡◌, ◌+◌, ◌^◌, ◌<◌, List, [], ◌∷◌, ◌++◌, IfOk, IsTrue, OnOk, decimal};
ghost use Rattle.jfr_chunk.specs.Parts.{Parts};
ghost use Rattle.jfr_show.specs.Texts.{is_ascii};
ghost use Rattle.jfr_show.specs.Totals.{number_line, number_lines, summary_shown, totals_of, version_line, version_shown};

mod json;

use crate::TextBuilder;
use crate::beginning::Beginning;
use crate::counting::{add_events, count_in_force};
use crate::tally::{TallyMap, show_tallies};
use itoa::Buffer;
use jfr_base::{NoMemory, Text};
use jfr_chunk::Chunk;
pub use json::summary_json;
use std::alloc::Global;
use std::collections::BTreeMap;
use std::marker::Model;

/// The totals of the chunks that were added. Contracts see these totals.
#[derive(Drop)]
pub struct Summary {
    alloc: Global,
    first: Option<Beginning>,
    chunks: u64,
    bytes: u64,
    duration: u128,
    events: u64,
    checkpoints: u64,
    constants: u64,
    inert: u64,
    tallies: TallyMap,
}

impl Model for Summary {
    ghost use Rattle.std.specs.Coded.{codes};
    ghost use Rattle.std.specs.FinMap as fin;
    ghost use Rattle.jfr_show.specs.Totals.{Totals};

    ghost Value = { Totals };

    ghost coded = { Prim.hlevel (codes, fin.code) };

    ghost use Rattle.jfr_show.specs.Summing.{totals_in, IsBounded};

    ghost view = { totals_in };

    ghost invariant = { λ s. IsBounded (totals_in s) };
}

impl Summary {
    /// The totals of no chunks. It allocates nothing.
    pub fn new(alloc: Global) -> Summary
        ensures { result ≡ totals_of [] }
    {
        Summary {
            alloc,
            first: None,
            chunks: 0,
            bytes: 0,
            duration: 0,
            events: 0,
            checkpoints: 0,
            constants: 0,
            inert: 0,
            tallies: BTreeMap::new(alloc),
        }
    }

    /// Adds a chunk. After memory runs out nothing is promised about the totals.
    pub fn add(&mut self, chunk: &Chunk<'_>) -> Result<(), NoMemory>
        requires { self.old.chunks < 17000000000 }
        ensures ok { OnOk result ((ps : List Parts) → self.old ≡ totals_of ps → self.new ≡ totals_of (ps ++ chunk.now ∷ [])) }
    {
        let header = chunk.header();
        self.first = self.first.or(Some(Beginning::of(header)));
        self.chunks += 1;
        self.bytes += chunk.bytes().len() as u64;
        self.duration += u128::from(header.duration_nanos);
        self.events += chunk.event_count() as u64;
        self.checkpoints += chunk.chain().len() as u64;
        self.constants += count_in_force(chunk.pools()) as u64;
        self.inert += chunk.inert_count();
        add_events(self.alloc, chunk, &mut self.tallies)
    }

    /// The number of chunks that were added.
    pub fn chunks(&self) -> u64
        ensures { result ≡ self.now.chunks }
    {
        self.chunks
    }
}

/// The text of the totals: nine lines, then a line for each name of a class with events, in the order of the
/// names' bytes. Without a chunk the text is empty.
pub fn summary_text(alloc: Global, summary: &Summary) -> Result<Text, NoMemory>
    ensures ok { IfOk result (λ text. text ≡ summary_shown summary.now) }
{
    let mut out = TextBuilder::new(alloc);
    show_summary(summary, &mut out)?;
    out.into_text()
}

#[tactic(auto, unfolding(crate::specs::Totals::summary_shown))]
fn show_summary(summary: &Summary, out: &mut TextBuilder) -> Result<(), NoMemory>
    ensures ok { OnOk result (out.new ≡ out.old ++ summary_shown summary.now) }
{
    match summary.first {
        Some(first) => {
            show_numbers(summary, first, out)?;
            show_tallies(&summary.tallies, out)
        }
        None => Ok(()),
    }
}

/// Adds the first nine lines.
fn show_numbers(summary: &Summary, first: Beginning, out: &mut TextBuilder) -> Result<(), NoMemory>
    ensures ok { OnOk result (out.new ≡ out.old ++ number_lines summary.now first) }
{
    show_version_line(first, out)?;
    push_line("chunks", u128::from(summary.chunks), out)?;
    push_line("bytes", u128::from(summary.bytes), out)?;
    push_line("start", u128::from(first.start_nanos), out)?;
    push_line("duration", summary.duration, out)?;
    push_line("events", u128::from(summary.events), out)?;
    push_line("checkpoints", u128::from(summary.checkpoints), out)?;
    push_line("constants", u128::from(summary.constants), out)?;
    push_line("inert", u128::from(summary.inert), out)
}

fn show_version_line(first: Beginning, out: &mut TextBuilder) -> Result<(), NoMemory>
    ensures ok { OnOk result (out.new ≡ out.old ++ version_line first) }
{
    out.push_ascii("version ")?;
    show_version(first, out)?;
    out.push_ascii("\n")
}

/// Adds the version.
fn show_version(first: Beginning, out: &mut TextBuilder) -> Result<(), NoMemory>
    ensures ok { OnOk result (out.new ≡ out.old ++ version_shown first) }
{
    out.push_number(u64::from(first.major))?;
    out.push_ascii(".")?;
    out.push_number(u64::from(first.minor))
}

fn push_line(word: &str, number: u128, out: &mut TextBuilder) -> Result<(), NoMemory>
    requires ascii { IsTrue (is_ascii word.now) }
    ensures ok { OnOk result (out.new ≡ out.old ++ number_line word.now number) }
{
    out.push_ascii(word)?;
    out.push_ascii(" ")?;
    push_wide(number, out)?;
    out.push_ascii("\n")
}

/// Adds a number that may have more than 64 bits.
fn push_wide(number: u128, out: &mut TextBuilder) -> Result<(), NoMemory>
    ensures ok { OnOk result (out.new ≡ out.old ++ decimal number) }
{
    let mut buffer = Buffer::new();
    out.push_str(buffer.format(number))
}
