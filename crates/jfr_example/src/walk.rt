//! The walk from an event to a field of a constant.
ghost use Rattle.std.specs.Prelude.{◌≡◌, [], ◌∷◌, IfSome, option_and_then, option_map, slice_get};
ghost use Rattle.jfr_value.specs.declared.node.Step.TheVariants as steps;
ghost use Rattle.jfr_value.specs.Nodes.{IsValue, node_of};
ghost use Rattle.jfr_chunk.specs.Parts.{events_of};
ghost use Rattle.jfr_chunk.specs.Paths.{leads};

use jfr_chunk::Chunk;
use jfr_value::{Node, Step, child, target};

/// A field of the constant to which a field of an event refers: the value to which this path leads from the
/// event. `None` exactly if it leads nowhere: there is no such event or field, the field isn't a reference,
/// or the constant isn't in the chunk.
pub fn constant_field<'a>(
    chunk: &Chunk<'a>,
    number: usize,
    reference: usize,
    field: usize,
) -> Option<Node<'a>>
    ensures exact { option_map node_of result ≡ option_and_then (λ event. leads chunk.now event.node (steps.Field reference ∷ steps.Follow ∷ steps.Field field ∷ [])) (slice_get (events_of chunk.now) number) }
    ensures bytes { IfSome result (λ node. node.bytes.now ≡ chunk.now.bytes) }
    ensures value { IfSome result (IsValue chunk.now.classes) }
{
    let event = chunk.event(number)?;
    let reference = child(chunk.classes(), &event.node, &Step::Field(reference))?;
    let (class, key) = target(chunk.classes(), &reference)?;
    let entry = chunk.pools().entry(class, key)?;
    let constant = chunk.entry_node(entry)?;
    child(chunk.classes(), &constant, &Step::Field(field))
}
