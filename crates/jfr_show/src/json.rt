//! The JSON of events, written straight from their bytes.
//!
//! A line is defined as the compact text of a value of `serde_json`. The writer doesn't build this value,
//! which would be slow. It walks the parts of the event and adds the text that `serde_json` would write for
//! each.
//!
//! `serde_json` sorts the members of an object by key, while the fields of a class have an order of their own.
//! So `MemberOrder` holds, for each class, the sorted order of its fields and the text before each value. It
//! comes from a map of `serde_json`: once a chunk for a class whose fields all have short names, and for any
//! other class anew for each value. `offsets.rt` finds where each field of a value starts, so that the fields
//! can be written in any order. `JsonCache` keeps the JSON of references for the next events.
ghost use Rattle.std.specs.Prelude.{◌≡◌, ◌≤◌, ◌++◌, Some, IfOk, OnOk, slice_get, string_bytes};
ghost use Rattle.serde_json.specs.Written.{compact_text};
ghost use Rattle.jfr_chunk.specs.Parts.{events_of};
ghost use Rattle.jfr_chunk.specs.Indexed.{event_at};
ghost use Rattle.jfr_value.specs.Nodes.{node_of};
ghost use Rattle.jfr_show.specs.CachedJson.{AreCachedJson};
ghost use Rattle.jfr_show.specs.Json.{event_data, event_json};
ghost use Rattle.jfr_show.specs.Orders.{IsSource};

mod cache;
mod leaf;
mod offsets;
mod order;
mod reference;
mod source;
mod string;
mod value;

use crate::TextBuilder;
use crate::depth::Reach;
use crate::reference::class_name;
use cache::JsonCache;
use jfr_base::{NoMemory, Text};
use jfr_chunk::{Chunk, Event};
use jfr_path::fields_of;
pub(crate) use leaf::{push_flag, push_null, push_number};
use order::{MemberOrder, orders_of};
use source::JsonSource;
use std::alloc::Global;
use std::marker::Model;
pub(crate) use string::push_string;
pub(crate) use value::push_comma;
use value::push_node;

/// The initial capacity for a line.
const LINE: usize = 1024;

/// Writes events of a chunk as lines of JSON, and keeps the JSON of their references. Contracts see the chunk.
#[derive(Drop)]
pub struct JsonWriter<'c, 'a> {
    alloc: Global,
    chunk: &'c Chunk<'a>,
    orders: Vec<Option<MemberOrder>>,
    cache: JsonCache,
}

impl<'c, 'a> Model for JsonWriter<'c, 'a> {
    ghost use Rattle.std.specs.Coded.{codes};
    ghost use Rattle.jfr_meta.specs.Trees.{tree_code};
    ghost use Rattle.jfr_chunk.specs.Parts.{Parts};
    ghost use Rattle.jfr_show.specs.CachedJson.{AreCachedJson};
    ghost use Rattle.jfr_show.specs.Orders.{AreOrders};

    ghost Value = { Parts };

    ghost coded = { Prim.hlevel (codes, tree_code) };

    ghost view = { λ w. w.chunk.now };

    ghost invariant = { λ w. AreOrders w.chunk.now.classes w.orders.items × AreCachedJson w.chunk.now w.cache };
}

impl<'c, 'a> JsonWriter<'c, 'a> {
    /// A writer of the events of this chunk.
    pub fn new(alloc: Global, chunk: &'c Chunk<'a>) -> Result<JsonWriter<'c, 'a>, NoMemory>
        ensures chunk { IfOk result (λ writer. writer ≡ chunk.now) }
    {
        Ok(JsonWriter {
            alloc,
            chunk,
            orders: orders_of(alloc, chunk.classes())?,
            cache: JsonCache::new(alloc)?,
        })
    }

    /// Adds the line with the JSON of an event, in which references are followed to this depth.
    pub fn show(
        &mut self,
        event: &Event<'_>,
        depth: u8,
        out: &mut TextBuilder,
    ) -> Result<(), NoMemory>
        requires event { slice_get (events_of self.old) event.now.number ≡ Some (event_at event.now) }
        requires depth { depth ≤ 8 }
        ensures ok { OnOk result (out.new ≡ out.old ++ event_json self.old depth (node_of event.now.node)) }
        ensures same { self.new ≡ self.old }
    {
        let source = JsonSource {
            alloc: self.alloc,
            chunk: self.chunk,
            orders: &self.orders,
            reach: Reach::of_event(depth),
        };
        let mut line = String::with_capacity(self.alloc, LINE)?;
        push_event(&source, &mut self.cache, event, &mut line)?;
        out.push_line(line.as_str())
    }
}

/// Adds the line with the JSON of an event of the chunk, in which references are followed to this depth.
pub fn show_json(
    alloc: Global,
    chunk: &Chunk<'_>,
    event: &Event<'_>,
    depth: u8,
    out: &mut TextBuilder,
) -> Result<(), NoMemory>
    requires event { slice_get (events_of chunk.now) event.now.number ≡ Some (event_at event.now) }
    requires depth { depth ≤ 8 }
    ensures ok { OnOk result (out.new ≡ out.old ++ event_json chunk.now depth (node_of event.now.node)) }
{
    let mut writer = JsonWriter::new(alloc, chunk)?;
    writer.show(event, depth, out)
}

/// The line with the JSON of an event of the chunk, by itself.
pub fn event_json(
    alloc: Global,
    chunk: &Chunk<'_>,
    event: &Event<'_>,
    depth: u8,
) -> Result<Text, NoMemory>
    requires event { slice_get (events_of chunk.now) event.now.number ≡ Some (event_at event.now) }
    requires depth { depth ≤ 8 }
    ensures ok { IfOk result (λ text. text ≡ event_json chunk.now depth (node_of event.now.node)) }
{
    let mut out = TextBuilder::new(alloc);
    show_json(alloc, chunk, event, depth, &mut out)?;
    out.into_text()
}

/// Adds the JSON of an event: the name of its class, and its fields.
fn push_event(
    source: &JsonSource<'_, '_>,
    cache: &mut JsonCache,
    event: &Event<'_>,
    out: &mut String,
) -> Result<(), NoMemory>
    requires event { slice_get (events_of source.now.chunk.now) event.now.number ≡ Some (event_at event.now) }
    requires source { IsSource source.now }
    requires composites { source.now.reach.composites ≡ 33 }
    requires cached { AreCachedJson source.now.chunk.now cache.old }
    ensures ok { OnOk result (string_bytes out.new ≡ string_bytes out.old ++ compact_text (event_data source.now.chunk.now source.now.reach.references (node_of event.now.node))) }
    ensures cached { AreCachedJson source.now.chunk.now cache.new }
{
    let node = fields_of(source.chunk, event);
    out.push_str("{\"type\":")?;
    push_string(
        source.alloc,
        class_name(source.chunk, node.shape.class),
        out,
    )?;
    out.push_str(",\"values\":")?;
    push_node(source, cache, &node, out)?;
    out.push_str("}")?;
    Ok(())
}
