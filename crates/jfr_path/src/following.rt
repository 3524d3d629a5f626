//! Steps that follow references, and to fields by their names.
ghost use Rattle.std.specs.Prelude.{◌≡◌, IfSome, option_map};
ghost use Rattle.std.specs.Str.{chars};
ghost use Rattle.jfr_chunk.specs.Paths.{always, follow, follow_while, is_reference, named_field};
ghost use Rattle.jfr_value.specs.Nodes.{IsValue, node_of};

use jfr_chunk::Chunk;
use jfr_value::{Node, Step, child, target};

/// The most references or keys that are followed in a row, before a field is taken or a text is read.
pub const MOST_FOLLOWED: u32 = 16;

/// Whether the value is a reference.
pub fn is_reference(node: &Node<'_>) -> bool
    ensures { result ≡ is_reference (node_of node.now) }
{
    !node.shape.array && node.shape.constant
}

/// The constant to which a reference, or a string that is a key, leads: the value of the entry in force.
/// `None` exactly if the value is neither, or no such entry is in force.
pub(crate) fn follow<'a>(chunk: &Chunk<'a>, node: &Node<'a>) -> Option<Node<'a>>
    requires value { IsValue chunk.now.classes node.now }
    requires of_chunk { node.now.bytes.now ≡ chunk.now.bytes }
    ensures exact { option_map node_of result ≡ follow chunk.now (node_of node.now) }
    ensures bytes { IfSome result (λ to. to.bytes.now ≡ chunk.now.bytes) }
    ensures value { IfSome result (IsValue chunk.now.classes) }
{
    let (class, key) = target(chunk.classes(), node)?;
    let number = chunk.pools().entry(class, key)?;
    chunk.entry_node(number)
}

/// The value after following references, at most `most` in a row.
pub fn follow_references<'a>(chunk: &Chunk<'a>, node: &Node<'a>, most: u32) -> Node<'a>
    requires value { IsValue chunk.now.classes node.now }
    requires of_chunk { node.now.bytes.now ≡ chunk.now.bytes }
    ensures exact { node_of result ≡ follow_while most is_reference chunk.now (node_of node.now) }
    ensures bytes { result.bytes.now ≡ chunk.now.bytes }
    ensures value { IsValue chunk.now.classes result }
{
    let mut value = *node;
    for _ in 0..most {
        if !is_reference(&value) {
            return value;
        }
        let Some(next) = follow(chunk, &value) else {
            return value;
        };
        value = next;
    }
    value
}

/// The value after following references and keys of strings, at most 16 in a row.
pub(crate) fn follow_keys<'a>(chunk: &Chunk<'a>, node: &Node<'a>) -> Node<'a>
    requires value { IsValue chunk.now.classes node.now }
    requires of_chunk { node.now.bytes.now ≡ chunk.now.bytes }
    ensures exact { node_of result ≡ follow_while 16 always chunk.now (node_of node.now) }
    ensures bytes { result.bytes.now ≡ chunk.now.bytes }
    ensures value { IsValue chunk.now.classes result }
{
    let mut value = *node;
    for _ in 0..MOST_FOLLOWED {
        let Some(next) = follow(chunk, &value) else {
            return value;
        };
        value = next;
    }
    value
}

/// The field of a value with this name; `None` exactly if it has no such field.
pub fn named_field<'a>(chunk: &Chunk<'a>, node: &Node<'a>, name: &str) -> Option<Node<'a>>
    requires value { IsValue chunk.now.classes node.now }
    requires of_chunk { node.now.bytes.now ≡ chunk.now.bytes }
    ensures exact { option_map node_of result ≡ named_field chunk.now (chars name.now) (node_of node.now) }
    ensures bytes { IfSome result (λ to. to.bytes.now ≡ chunk.now.bytes) }
    ensures value { IfSome result (IsValue chunk.now.classes) }
{
    let classes = chunk.classes();
    let number = classes.field_named(node.shape.class, name)?;
    child(classes, node, &Step::Field(number))
}
