//! The text of an event.
ghost use Rattle.std.specs.Prelude.{◌≡◌, ◌≤◌, ◌++◌, Some, IfOk, OnOk, slice_get};
ghost use Rattle.jfr_chunk.specs.Parts.{events_of};
ghost use Rattle.jfr_chunk.specs.Indexed.{event_at};
ghost use Rattle.jfr_value.specs.Nodes.{node_of};
ghost use Rattle.jfr_show.specs.Shown.{event_shown};

use crate::TextBuilder;
use crate::cache::TextCache;
use crate::depth::{Depth, View};
use crate::value::show_node;
use jfr_base::{NoMemory, Text};
use jfr_chunk::{Chunk, Event};
use jfr_path::fields_of;
use std::alloc::Global;

/// Adds the text of an event of the chunk, in which references are followed to this depth.
pub fn show_event(
    chunk: &Chunk<'_>,
    event: &Event<'_>,
    depth: u8,
    out: &mut TextBuilder,
) -> Result<(), NoMemory>
    requires event { slice_get (events_of chunk.now) event.now.number ≡ Some (event_at event.now) }
    requires depth { depth ≤ 8 }
    ensures ok { OnOk result (out.new ≡ out.old ++ event_shown chunk.now depth (node_of event.now.node)) }
{
    let node = fields_of(chunk, event);
    let view = View {
        chunk,
        depth: Depth::of_event(depth),
    };
    show_node(&view, &mut TextCache::none(), &node, out)?;
    out.push_ascii("\n")
}

/// The text of an event of the chunk, by itself.
pub fn event_text(
    alloc: Global,
    chunk: &Chunk<'_>,
    event: &Event<'_>,
    depth: u8,
) -> Result<Text, NoMemory>
    requires event { slice_get (events_of chunk.now) event.now.number ≡ Some (event_at event.now) }
    requires depth { depth ≤ 8 }
    ensures ok { IfOk result (λ text. text ≡ event_shown chunk.now depth (node_of event.now.node)) }
{
    let mut out = TextBuilder::new(alloc);
    show_event(chunk, event, depth, &mut out)?;
    out.into_text()
}
