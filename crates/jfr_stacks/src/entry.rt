//! The entry to which a value refers.
ghost use Rattle.std.specs.Prelude.{◌≡◌};
ghost use Rattle.jfr_value.specs.Nodes.{IsValue, node_of};
ghost use Rattle.jfr_stacks.specs.Frames.{IsChunkValue, entry_number};
ghost use Rattle.jfr_stacks.specs.Roles.{referred};

use jfr_chunk::Chunk;
use jfr_path::is_reference;
use jfr_value::{Node, target};

/// The number of the entry in force to which a value refers, if there is one.
pub(crate) fn entry_number(chunk: &Chunk<'_>, node: &Node<'_>) -> Option<usize>
    requires value { IsValue chunk.now.classes node.now }
    requires of_chunk { node.now.bytes.now ≡ chunk.now.bytes }
    ensures { result ≡ entry_number chunk.now (node_of node.now) }
{
    let (class, key) = target(chunk.classes(), node)?;
    chunk.pools().entry(class, key)
}

/// As `entry_number`, but a string that is a key refers to no entry.
pub(crate) fn referred(chunk: &Chunk<'_>, node: &Node<'_>) -> Option<usize>
    requires { IsChunkValue chunk.now node.now }
    ensures { result ≡ referred chunk.now (node_of node.now) }
{
    if !is_reference(node) {
        return None;
    }
    entry_number(chunk, node)
}
