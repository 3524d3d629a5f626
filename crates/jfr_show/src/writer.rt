//! A writer of the texts of many events of one chunk, with a cache of the texts of their references.
ghost use Rattle.std.specs.Prelude.{◌≡◌, ◌≤◌, ◌++◌, Some, IfOk, OnOk, slice_get};
ghost use Rattle.jfr_value.specs.Nodes.{node_of};
ghost use Rattle.jfr_chunk.specs.Parts.{events_of};
ghost use Rattle.jfr_chunk.specs.Indexed.{event_at};
ghost use Rattle.jfr_show.specs.Cache.{AreCached};
ghost use Rattle.jfr_show.specs.Shown.{event_shown};

use crate::TextBuilder;
use crate::cache::TextCache;
use crate::depth::{Depth, View};
use crate::value::show_node;
use jfr_base::NoMemory;
use jfr_chunk::{Chunk, Event};
use jfr_path::fields_of;
use std::alloc::Global;
use std::marker::Model;

/// Writes events of a chunk as text, and keeps the texts of their references. Contracts see the chunk.
#[derive(Drop)]
pub struct TextWriter<'c, 'a> {
    chunk: &'c Chunk<'a>,
    cache: TextCache,
}

impl<'c, 'a> Model for TextWriter<'c, 'a> {
    ghost use Rattle.std.specs.Coded.{codes};
    ghost use Rattle.jfr_meta.specs.Trees.{tree_code};
    ghost use Rattle.jfr_chunk.specs.Parts.{Parts};
    ghost use Rattle.jfr_show.specs.Cache.{AreCached};

    ghost Value = { Parts };

    ghost coded = { Prim.hlevel (codes, tree_code) };

    ghost view = { λ w. w.chunk.now };

    ghost invariant = { λ w. AreCached w.chunk.now w.cache };
}

impl<'c, 'a> TextWriter<'c, 'a> {
    /// A writer of the events of this chunk.
    pub fn new(alloc: Global, chunk: &'c Chunk<'a>) -> Result<TextWriter<'c, 'a>, NoMemory>
        ensures chunk { IfOk result (λ writer. writer ≡ chunk.now) }
    {
        let cache = TextCache::new(alloc)?;
        Ok(TextWriter { chunk, cache })
    }

    /// Adds the text of an event, in which references are followed to this depth.
    pub fn show(
        &mut self,
        event: &Event<'_>,
        depth: u8,
        out: &mut TextBuilder,
    ) -> Result<(), NoMemory>
        requires event { slice_get (events_of self.old) event.now.number ≡ Some (event_at event.now) }
        requires depth { depth ≤ 8 }
        ensures ok { OnOk result (out.new ≡ out.old ++ event_shown self.old depth (node_of event.now.node)) }
        ensures same { self.new ≡ self.old }
    {
        let node = fields_of(self.chunk, event);
        let view = View {
            chunk: self.chunk,
            depth: Depth::of_event(depth),
        };
        show_node(&view, &mut self.cache, &node, out)?;
        out.push_ascii("\n")
    }
}
