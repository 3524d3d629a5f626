//! The folded stacks of a recording.
ghost use Rattle.std.specs.Prelude.{◌≡◌, ◌+◌, ◌^◌, ◌<◌, List, [], ◌∷◌, ◌++◌, encode_utf8_all, length, IfOk, OnOk};
ghost use Rattle.std.specs.Str.{chars};
ghost use Rattle.jfr_filter.specs.Filters.{Given};
ghost use Rattle.jfr_chunk.specs.Parts.{Parts};
ghost use Rattle.jfr_stacks.specs.Folded.{lines_of, stacks_of};

use crate::counting::add_events;
use crate::counts::{CountMap, push_lines};
use jfr_base::{NoMemory, Text};
use jfr_chunk::Chunk;
use jfr_filter::Filter;
use std::alloc::Global;
use std::collections::BTreeMap;
use std::marker::Model;

/// The folded stacks of the chunks that were added: for each distinct call stack of their kept events, its
/// text and the number of events that have it. Contracts see these stacks and the number of chunks.
#[derive(Drop)]
pub struct Stacks {
    alloc: Global,
    chunks: u64,
    counts: CountMap,
}

impl Model for Stacks {
    ghost use Rattle.std.specs.Coded.{codes};
    ghost use Rattle.std.specs.FinMap as fin;
    ghost use Rattle.jfr_stacks.specs.Folded.{Folded};

    ghost Value = { Folded };

    ghost coded = { Prim.hlevel (codes, fin.code) };

    ghost use Rattle.jfr_stacks.specs.Bounds.{IsBounded, folded_in};

    ghost view = { folded_in };

    ghost invariant = { λ s. IsBounded (folded_in s) };
}

impl Stacks {
    /// The stacks of no chunks. It allocates nothing.
    pub fn new(alloc: Global) -> Stacks
        ensures chunks { result.chunks ≡ 0 }
        ensures stacks { (g : Given) → result.stacks ≡ stacks_of g [] }
    {
        Stacks {
            alloc,
            chunks: 0,
            counts: BTreeMap::new(alloc),
        }
    }

    /// Adds the events of a chunk that the filter keeps. If memory runs out, nothing is known about the counts
    /// and the number of chunks.
    pub fn add(&mut self, chunk: &Chunk<'_>, filter: &Filter) -> Result<(), NoMemory>
        requires { self.old.chunks < 2 ^ 34 }
        ensures chunks { OnOk result (self.new.chunks ≡ self.old.chunks + 1) }
        ensures stacks { OnOk result ((ps : List Parts) → length ps ≡ self.old.chunks → self.old.stacks ≡ stacks_of filter.now ps → self.new.stacks ≡ stacks_of filter.now (ps ++ chunk.now ∷ [])) }
    {
        // First, so that the bound of the counts holds even if memory runs out.
        self.chunks += 1;
        add_events(self.alloc, chunk, filter, &mut self.counts)
    }

    /// The number of chunks that were added.
    pub fn chunks(&self) -> u64
        ensures { result ≡ self.now.chunks }
    {
        self.chunks
    }

    /// A line for each stack, in the order of the texts' bytes: the text, a space, the number of events, and
    /// a newline.
    pub fn text(&self, alloc: Global) -> Result<Text, NoMemory>
        ensures ok { IfOk result (λ text. text ≡ chars (lines_of self.now.stacks)) }
        ensures bytes { IfOk result (λ text. encode_utf8_all text ≡ lines_of self.now.stacks) }
    {
        let mut out = String::new(alloc);
        push_lines(&self.counts, &mut out)?;
        Text::from_string(out)
    }
}
