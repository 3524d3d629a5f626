//! What a value itself refers to.
ghost use Rattle.std.specs.Prelude.{◌≡◌, ◌≤◌, length, IsOk, IfOk, IsSome, IfSome, true};
ghost use Rattle.jfr_base.specs.Formats.{int_at, run};
ghost use Rattle.jfr_text.specs.Strings.{string_format};
ghost use Rattle.jfr_value.specs.Nodes.{IsValue, node_of, target};
ghost use Rattle.jfr_value.specs.Values.{key_of};

use crate::Node;
use crate::extent::layout_of;
use jfr_base::known_integer;
use jfr_layout::{Classes, Form};
use jfr_text::{StringKind, known_string};

/// The class and the key to which a value itself refers: those of a reference, or of a string that is a key.
/// `None` exactly if it refers to nothing, or only its parts do.
pub fn target(classes: &Classes, node: &Node<'_>) -> Option<(u64, u64)>
    requires { IsValue classes.now node.now }
    ensures { result ≡ target classes.now node.now.bytes.now (node_of node.now) }
{
    let layout = layout_of(classes, node.shape);
    match layout.form {
        Form::Key => Some((node.shape.class, reference_key(node))),
        Form::Text => {
            let key = string_key(node)?;
            Some((node.shape.class, key))
        }
        _ => None,
    }
}

/// The key of a reference.
fn reference_key(node: &Node<'_>) -> u64
    requires order { node.now.at ≤ node.now.end }
    requires within { node.now.end ≤ length node.now.bytes.now }
    requires holds { IsSome (int_at node.now.bytes.now node.now.at node.now.end) }
    ensures { IfSome (int_at node.now.bytes.now node.now.at node.now.end) (λ key. result ≡ key.value) }
{
    known_integer(node.bytes, node.at, node.end).value
}

/// The key of a string, if the string is one.
fn string_key(node: &Node<'_>) -> Option<u64>
    requires order { node.now.at ≤ node.now.end }
    requires within { node.now.end ≤ length node.now.bytes.now }
    requires holds { IsOk (run (string_format true) node.now.bytes.now node.now.end node.now.at) }
    ensures { IfOk (run (string_format true) node.now.bytes.now node.now.end node.now.at) (λ got. result ≡ key_of got.value) }
{
    let string = known_string(node.bytes, node.at, node.end);
    match string.kind {
        StringKind::Key => Some(string.key),
        _ => None,
    }
}
