//! Texts found by the names of fields.
ghost use Rattle.std.specs.Prelude.{◌≡◌, Some, IfOk, IfSome, option_map, slice_get};
ghost use Rattle.jfr_chunk.specs.Parts.{events_of};
ghost use Rattle.jfr_chunk.specs.Paths.{named_node, named_text, text_of};
ghost use Rattle.jfr_chunk.specs.Indexed.{event_at};
ghost use Rattle.jfr_path.specs.Places.{node_at};
ghost use Rattle.jfr_value.specs.Nodes.{IsValue, node_of};

use crate::fields_of;
use crate::following::{MOST_FOLLOWED, follow_keys, follow_references, named_field};
use crate::steps::{in_chunk, string_of};
use jfr_base::{NoMemory, Text, Words};
use jfr_chunk::{Chunk, Event};
use jfr_text::text_of;
use jfr_value::Node;
use std::alloc::Global;

/// The text that names lead to from an event's fields. For each name, references are followed, then the field
/// with this name is taken. At the end, references and keys of strings are followed up to a string. At most
/// 16 are followed in a row. `None` exactly if the names lead to no text.
pub fn named(
    alloc: Global,
    chunk: &Chunk<'_>,
    event: &Event<'_>,
    names: &Words,
) -> Result<Option<Text>, NoMemory>
    requires event { slice_get (events_of chunk.now) event.now.number ≡ Some (event_at event.now) }
    requires of_chunk { event.now.node.bytes.now ≡ chunk.now.bytes }
    ensures ok { IfOk result (λ text. text ≡ named_text chunk.now (node_of event.now.node) names.now) }
{
    let fields = fields_of(chunk, event);
    match named_node(chunk, &fields, names) {
        Some(node) => text_at(alloc, chunk, &node),
        None => Ok(None),
    }
}

/// The value to which names lead from a value of the chunk. For each name, references are followed, at most 16
/// in a row, and then the field with this name is taken; after the last name references are followed again.
/// `None` exactly if a field is absent.
pub fn node_at<'a>(chunk: &Chunk<'a>, node: &Node<'a>, names: &Words) -> Option<Node<'a>>
    requires value { IsValue chunk.now.classes node.now }
    requires of_chunk { node.now.bytes.now ≡ chunk.now.bytes }
    ensures exact { option_map node_of result ≡ node_at chunk.now (node_of node.now) names.now }
    ensures bytes { IfSome result (λ to. to.bytes.now ≡ chunk.now.bytes) }
    ensures value { IfSome result (IsValue chunk.now.classes) }
{
    chunk.parts_are_valid();
    let place = named_node(chunk, node, names)?;
    Some(follow_references(chunk, &place, MOST_FOLLOWED))
}

/// As `node_at`, but no reference is followed after the last name.
fn named_node<'a>(chunk: &Chunk<'a>, node: &Node<'a>, names: &Words) -> Option<Node<'a>>
    requires value { IsValue chunk.now.classes node.now }
    requires of_chunk { node.now.bytes.now ≡ chunk.now.bytes }
    ensures exact { option_map node_of result ≡ named_node chunk.now (node_of node.now) names.now }
    ensures bytes { IfSome result (λ to. to.bytes.now ≡ chunk.now.bytes) }
    ensures value { IfSome result (IsValue chunk.now.classes) }
{
    let mut place = in_chunk(chunk, node);
    for name in names.as_slice() {
        let holder = follow_references(chunk, &place, MOST_FOLLOWED);
        place = named_field(chunk, &holder, name.as_str())?;
    }
    Some(place)
}

/// The text of a value of the chunk: references and keys of strings are followed, at most 16 one after another;
/// if they lead to a string, it is the text of that string. `None` exactly if there is no string, or the string
/// is null.
pub fn text_at(alloc: Global, chunk: &Chunk<'_>, node: &Node<'_>) -> Result<Option<Text>, NoMemory>
    requires value { IsValue chunk.now.classes node.now }
    requires of_chunk { node.now.bytes.now ≡ chunk.now.bytes }
    ensures ok { IfOk result (λ text. text ≡ text_of chunk.now (node_of node.now)) }
{
    let last = follow_keys(chunk, &in_chunk(chunk, node));
    match string_of(chunk, &last) {
        Some(span) => text_of(alloc, &span),
        None => Ok(None),
    }
}
