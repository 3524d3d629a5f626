//! What values hand out.

ghost use Rattle.jfr_value.specs.Nodes.{IsValue};

use crate::classes::Has::{Inline, Items, Reference, References};
use crate::classes::{ClassLine, Has, classes_of, shape};
use crate::value::node_at_front;
use jfr_base::{Flaw, Reason};
use jfr_layout::Classes;
use jfr_value::{Node, Visit, Walk, end_visiting, layout_of, visit_targets};
use std::alloc::Global;
use std::process::Abort;
use std::test::Fail;

/// The targets that were handed out, of any class but one; nothing where there was no memory.
#[derive(Drop)]
struct Seen {
    targets: Vec<(u64, u64)>,
    failed: bool,
}

impl Visit<u64> for Seen {
    ghost use Rattle.std.specs.Prelude.{ℕ};

    ghost ready = { λ seen class. Unit {0} };

    ghost takes = { λ class target old new. Unit {0} };

    fn visit(&mut self, left_out: &u64, class: u64, key: u64) {
        if class != *left_out && self.targets.push((class, key)).is_err() {
            self.failed = true;
        }
    }
}

/// A number, a string, a class without fields, and one with a reference, a string, references and a number.
static NODE_CLASSES: [ClassLine; 4] = [
    (1, "long", None, &[]),
    (2, "java.lang.String", None, &[]),
    (3, "t.Empty", None, &[]),
    (
        4,
        "t.Node",
        None,
        &[
            ("a", Reference(4)),
            ("b", Inline(2)),
            ("c", References(4)),
            ("d", Inline(1)),
        ],
    ),
];

/// Two nodes: the second has a text of its own, and no references.
static TWO_NODES: [u8; 14] = [2, 7, 2, 9, 2, 5, 6, 42, 8, 3, 1, 120, 0, 43];

/// What a node hands out but for one class.
fn targets_of(
    alloc: Global,
    classes: &Classes,
    node: Node<'_>,
    left_out: u64,
) -> Option<Vec<(u64, u64)>>
    requires { IsValue classes.now node }
{
    let mut seen = Seen {
        targets: Vec::new(alloc),
        failed: false,
    };
    visit_targets(classes, node, &mut seen, &left_out);
    if seen.failed {
        None
    } else {
        Some(seen.targets)
    }
}

/// What is handed out up to the end of the value at the front of the bytes, and where it ends.
fn walk_to_end(
    alloc: Global,
    classes: &Classes,
    has: Has,
    bytes: &[u8],
) -> Option<(Vec<(u64, u64)>, Result<usize, Flaw>)> {
    let shape = shape(has);
    classes.kind(shape.class)?;
    let mut seen = Seen {
        targets: Vec::new(alloc),
        failed: false,
    };
    let layout = layout_of(classes, shape);
    let walk = Walk {
        classes,
        bytes,
        end: bytes.len(),
        with: &0,
    };
    let end = end_visiting(walk, &layout, 0, &mut seen);
    if seen.failed {
        None
    } else {
        Some((seen.targets, end))
    }
}

/// The targets that a node hands out but for one class are these.
fn see_targets(
    rt: &impl Abort,
    alloc: Global,
    classes: &Classes,
    node: Node<'_>,
    left_out: u64,
    expected: &[(u64, u64)],
) -> Result<(), Fail>
    requires { IsValue classes.now node }
{
    let found = targets_of(alloc, classes, node, left_out).ok_or("no memory")?;
    assert_eq!(rt; found.as_slice(), expected);
    Ok(())
}

static TARGETS: [(u64, u64); 5] = [(4, 7), (2, 9), (4, 5), (4, 6), (4, 8)];

fn see_nodes(rt: &impl Abort, alloc: Global, classes: &Classes) -> Result<(), Fail> {
    let node = node_at_front(classes, Items(4), &TWO_NODES).ok_or("no value")?;
    assert_eq!(rt; node.end, 14);
    see_targets(rt, alloc, classes, node, 0, &TARGETS)?;
    see_targets(rt, alloc, classes, node, 4, &[(2, 9)])
}

#[test]
fn references_and_string_keys_are_handed_out(rt: HostRuntime) -> Result<(), Fail> {
    let classes = classes_of(rt.alloc(), &NODE_CLASSES)?;
    see_nodes(&rt, rt.alloc(), &classes)
}

/// The targets up to the end are those of the value, whose end is the same.
fn see_walk(rt: &impl Abort, alloc: Global, classes: &Classes) -> Result<(), Fail> {
    let (targets, end) = walk_to_end(alloc, classes, Items(4), &TWO_NODES).ok_or("no memory")?;
    assert_eq!(rt; end, Ok(14));
    assert_eq!(rt; targets.as_slice(), TARGETS.as_slice());
    Ok(())
}

/// The second node's number is missing.
fn see_short(rt: &impl Abort, alloc: Global, classes: &Classes) -> Result<(), Fail> {
    let (bytes, _) = TWO_NODES.split_at(13);
    let (_, end) = walk_to_end(alloc, classes, Items(4), bytes).ok_or("no memory")?;
    let flaw = Flaw {
        offset: 13,
        reason: Reason::Short,
    };
    assert_eq!(rt; end, Err(flaw));
    Ok(())
}

#[test]
fn the_walk_to_the_end_hands_out_the_same(rt: HostRuntime) -> Result<(), Fail> {
    let classes = classes_of(rt.alloc(), &NODE_CLASSES)?;
    see_walk(&rt, rt.alloc(), &classes)?;
    see_short(&rt, rt.alloc(), &classes)
}

/// As many items as a count can say.
static MOST_ITEMS: [u8; 9] = [0xff; 9];

fn see_no_targets(rt: &impl Abort, alloc: Global, classes: &Classes) -> Result<(), Fail> {
    let node = node_at_front(classes, Items(3), &MOST_ITEMS).ok_or("no value")?;
    see_targets(rt, alloc, classes, node, 0, &[])
}

#[test]
fn items_without_bytes_are_not_counted(rt: HostRuntime) -> Result<(), Fail> {
    let classes = classes_of(rt.alloc(), &NODE_CLASSES)?;
    see_no_targets(&rt, rt.alloc(), &classes)
}
