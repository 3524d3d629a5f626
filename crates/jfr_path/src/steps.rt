//! Steps from value to value.
ghost use Rattle.std.specs.Prelude.{◌≡◌, Some, IfSome, option_map, slice_get};
ghost use Rattle.jfr_chunk.specs.Parts.{AreParts, events_of};
ghost use Rattle.jfr_chunk.specs.Paths.{leads, step, string_of};
ghost use Rattle.jfr_chunk.specs.Indexed.{event_at};
ghost use Rattle.jfr_text.specs.Spans.{content_of};
ghost use Rattle.jfr_value.specs.Nodes.{IsValue, node_of};

use crate::Path;
use crate::following::follow;
use jfr_chunk::{Chunk, Event};
use jfr_layout::Kind;
use jfr_text::{StringSpan, read_string};
use jfr_value::{Node, Step, child};

/// The node of an event's fields, where paths start. The node borrows from this chunk, even if the event came
/// from another chunk with the same parts.
pub fn fields_of<'a>(chunk: &Chunk<'a>, event: &Event<'_>) -> Node<'a>
    requires { slice_get (events_of chunk.now) event.now.number ≡ Some (event_at event.now) }
    ensures exact { node_of result ≡ node_of event.now.node }
    ensures bytes { result.bytes.now ≡ chunk.now.bytes }
    ensures value { IsValue chunk.now.classes result }
    ensures parts { AreParts chunk.now }
{
    Node {
        shape: event.node.shape,
        bytes: chunk.bytes(),
        at: event.node.at,
        end: event.node.end,
    }
}

/// The value to which a path leads from a value of the chunk; `None` exactly if it leads nowhere.
pub fn leads<'a>(chunk: &Chunk<'a>, node: &Node<'a>, path: &Path) -> Option<Node<'a>>
    requires value { IsValue chunk.now.classes node.now }
    requires of_chunk { node.now.bytes.now ≡ chunk.now.bytes }
    ensures exact { option_map node_of result ≡ leads chunk.now (node_of node.now) path.now }
    ensures bytes { IfSome result (λ to. to.bytes.now ≡ chunk.now.bytes) }
    ensures value { IfSome result (IsValue chunk.now.classes) }
{
    let mut place = in_chunk(chunk, node);
    for next in path.steps() {
        place = step(chunk, &place, next)?;
    }
    Some(place)
}

/// The node, borrowed from the chunk and not from where it was found.
pub(crate) fn in_chunk<'a>(chunk: &Chunk<'a>, node: &Node<'_>) -> Node<'a>
    requires value { IsValue chunk.now.classes node.now }
    requires of_chunk { node.now.bytes.now ≡ chunk.now.bytes }
    ensures exact { node_of result ≡ node_of node.now }
    ensures bytes { result.bytes.now ≡ chunk.now.bytes }
    ensures value { IsValue chunk.now.classes result }
    ensures parts { AreParts chunk.now }
{
    Node {
        shape: node.shape,
        bytes: chunk.bytes(),
        at: node.at,
        end: node.end,
    }
}

/// The value after one step: a field, an item, or the constant that the value refers to.
fn step<'a>(chunk: &Chunk<'a>, node: &Node<'a>, by: &Step) -> Option<Node<'a>>
    requires parts { AreParts chunk.now }
    requires value { IsValue chunk.now.classes node.now }
    requires of_chunk { node.now.bytes.now ≡ chunk.now.bytes }
    ensures exact { option_map node_of result ≡ step chunk.now (node_of node.now) by.now }
    ensures bytes { IfSome result (λ to. to.bytes.now ≡ chunk.now.bytes) }
    ensures value { IfSome result (IsValue chunk.now.classes) }
{
    match by {
        Step::Follow => follow(chunk, node),
        _ => child(chunk.classes(), node, by),
    }
}

/// The string of a node; `None` exactly if its value isn't a string.
pub(crate) fn string_of<'a>(chunk: &Chunk<'_>, node: &Node<'a>) -> Option<StringSpan<'a>>
    requires value { IsValue chunk.now.classes node.now }
    requires of_chunk { node.now.bytes.now ≡ chunk.now.bytes }
    ensures { option_map content_of result ≡ string_of chunk.now (node_of node.now) }
{
    if node.shape.array || node.shape.constant {
        return None;
    }
    match chunk.classes().kind(node.shape.class)? {
        Kind::Text => read_string(node.bytes, node.at, node.end).ok(),
        _ => None,
    }
}
