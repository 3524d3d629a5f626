//! Values of classes that are made from lines.

ghost use Rattle.std.specs.Prelude.{IfSome};
ghost use Rattle.jfr_value.specs.Nodes.{IsValue};

use crate::classes::Has::{Inline, Items, Reference, References};
use crate::classes::{ClassLine, Has, add, classes_of, shape};
use jfr_base::{Flaw, Reason};
use jfr_layout::{ClassFault, ClassList, Classes, Kind};
use jfr_outside::NoMemory;
use jfr_value::{LeafKind, Leaves, Node, Step, child, end_of};
use std::alloc::{AllocError, Global};
use std::process::Abort;
use std::test::Fail;

/// A number, a double, a string and a class of two fields: keys of its own class, and a double.
static SOME_CLASSES: [ClassLine; 4] = [
    (1, "long", None, &[]),
    (2, "double", None, &[]),
    (3, "java.lang.String", None, &[]),
    (4, "t.Pair", None, &[("a", References(4)), ("b", Inline(2))]),
];

/// The classes of stack traces, with the ids of a recording of JDK 17.
static TRACE_CLASSES: [ClassLine; 6] = [
    (
        188,
        "jdk.types.StackTrace",
        None,
        &[("a", Inline(212)), ("b", Items(197))],
    ),
    (
        197,
        "jdk.types.StackFrame",
        None,
        &[
            ("a", Reference(168)),
            ("b", Inline(207)),
            ("c", Inline(207)),
            ("d", Reference(189)),
        ],
    ),
    (168, "jdk.types.Method", None, &[]),
    (189, "jdk.types.FrameType", None, &[]),
    (207, "int", None, &[]),
    (212, "boolean", None, &[]),
];

/// Adds the most composite classes that may nest, each with an array of the next.
fn add_deep(list: &mut ClassList, alloc: Global) -> Result<(), NoMemory> {
    for id in 0..33u64 {
        let next = Items(id.saturating_add(1));
        add(list, alloc, id, "t.Deep", None, &[("a", next)])?;
    }
    add(list, alloc, 33, "long", None, &[])
}

fn deep_classes(alloc: Global) -> Result<Classes, ClassFault> {
    let mut list = ClassList::new(alloc);
    add_deep(&mut list, alloc)?;
    Classes::make(alloc, list)
}

/// Where a value ends at the front of the bytes.
fn front(classes: &Classes, has: Has, bytes: &[u8]) -> Option<Result<usize, Flaw>> {
    let shape = shape(has);
    classes.kind(shape.class)?;
    Some(end_of(classes, shape, bytes, 0, bytes.len()))
}

/// The value at the front of the bytes.
pub(crate) fn node_at_front<'a>(classes: &Classes, has: Has, bytes: &'a [u8]) -> Option<Node<'a>>
    ensures { IfSome result (IsValue classes.now) }
{
    let shape = shape(has);
    classes.kind(shape.class)?;
    match end_of(classes, shape, bytes, 0, bytes.len()) {
        Ok(end) => Some(Node {
            shape,
            bytes,
            at: 0,
            end,
        }),
        Err(_) => None,
    }
}

/// The kind and the place of a leaf.
type LeafPlace = (LeafKind, usize);

/// Those of the next leaf, if there is one.
fn next_place(leaves: &mut Leaves<'_, '_>) -> Option<LeafPlace> {
    let leaf = leaves.next()?;
    Some((leaf.kind, leaf.at))
}

/// Whether these leaves follow, and no others.
fn are_next(leaves: &mut Leaves<'_, '_>, expected: &[LeafPlace]) -> bool {
    for leaf in expected {
        if next_place(leaves) != Some(*leaf) {
            return false;
        }
    }
    leaves.next().is_none()
}

/// Whether these are the leaves of a value.
fn has_leaves(classes: &Classes, node: Node<'_>, expected: &[LeafPlace]) -> bool
    requires { IsValue classes.now node }
{
    let mut leaves = Leaves::new(classes, node);
    are_next(&mut leaves, expected)
}

/// The class and the number of the field around the next leaf, if it is in one; `None` after the last leaf.
fn next_field(leaves: &mut Leaves<'_, '_>) -> Option<Option<(u64, usize)>> {
    let leaf = leaves.next()?;
    match leaf.holder {
        Some(holder) => Some(Some((holder.class, holder.field))),
        None => Some(None),
    }
}

/// Whether leaves in these fields follow, and no others.
fn are_in(leaves: &mut Leaves<'_, '_>, expected: &[Option<(u64, usize)>]) -> bool {
    for field in expected {
        if next_field(leaves) != Some(*field) {
            return false;
        }
    }
    leaves.next().is_none()
}

/// Whether the leaves of a value are in these fields.
fn has_fields(classes: &Classes, node: Node<'_>, expected: &[Option<(u64, usize)>]) -> bool
    requires { IsValue classes.now node }
{
    let mut leaves = Leaves::new(classes, node);
    are_in(&mut leaves, expected)
}

/// What is at the front of bytes, and where it ends or is flawed.
type End = (Has, &'static [u8], Result<usize, Flaw>);

static ENDS: [End; 4] = [
    // A count of items that aren't there.
    (
        Items(1),
        &[0x80, 0x80, 0x80, 0x80, 0x80, 0x20, 0x01],
        Err(Flaw {
            offset: 7,
            reason: Reason::Short,
        }),
    ),
    (
        Inline(3),
        &[6],
        Err(Flaw {
            offset: 0,
            reason: Reason::StringKind,
        }),
    ),
    (Inline(3), &[3, 1, 120, 9], Ok(3)),
    (Inline(2), &[0x3f, 0xf0, 0, 0, 0, 0, 0, 0], Ok(8)),
];

fn see_end(rt: &impl Abort, classes: &Classes, (has, bytes, end): &End) {
    assert_eq!(rt; front(classes, *has, bytes), Some(*end));
}

#[test]
fn values_end(rt: HostRuntime) -> Result<(), Fail> {
    let classes = classes_of(rt.alloc(), &SOME_CLASSES)?;
    for end in ENDS.iter() {
        see_end(&rt, &classes, end);
    }
    Ok(())
}

/// Compares the leaves of the value at the front of the bytes, which is all of them.
fn see_leaves(
    rt: &impl Abort,
    classes: &Classes,
    has: Has,
    bytes: &[u8],
    expected: &[LeafPlace],
) -> Result<(), Fail> {
    let node = node_at_front(classes, has, bytes).ok_or("no value")?;
    assert_eq!(rt; node.end, bytes.len());
    assert!(rt; has_leaves(classes, node, expected));
    Ok(())
}

/// Two pairs: the keys 7 and 8, and none.
static TWO_PAIRS: [u8; 21] = [
    2, 2, 7, 8, 0x3f, 0xf0, 0, 0, 0, 0, 0, 0, 0, 0x40, 0, 0, 0, 0, 0, 0, 0,
];

static OF_TWO_PAIRS: [LeafPlace; 7] = [
    (LeafKind::Count(2), 0),
    (LeafKind::Count(2), 1),
    (LeafKind::Key(7), 2),
    (LeafKind::Key(8), 3),
    (LeafKind::Base(Kind::Double), 4),
    (LeafKind::Count(0), 12),
    (LeafKind::Base(Kind::Double), 13),
];

#[test]
fn leaves_follow_one_another(rt: HostRuntime) -> Result<(), Fail> {
    let classes = classes_of(rt.alloc(), &SOME_CLASSES)?;
    see_leaves(&rt, &classes, Items(4), &TWO_PAIRS, &OF_TWO_PAIRS)
}

/// A pair inside another value, with an array, a number and a string after it.
static FIELD_CLASSES: [ClassLine; 5] = [
    (1, "long", None, &[]),
    (2, "double", None, &[]),
    (3, "java.lang.String", None, &[]),
    (4, "t.Pair", None, &[("a", References(4)), ("b", Inline(2))]),
    (
        5,
        "t.Outer",
        None,
        &[
            ("a", Inline(4)),
            ("b", Items(1)),
            ("c", Inline(1)),
            ("d", Inline(3)),
        ],
    ),
];

/// A value, and the class and the field of each of its leaves.
type Held = (Has, &'static [u8], &'static [Option<(u64, usize)>]);

static HELD: [Held; 5] = [
    // The count and the items of an array are in the array's field, and a pair's parts in those of the pair.
    (
        Inline(5),
        &[1, 7, 0x3f, 0xf0, 0, 0, 0, 0, 0, 0, 2, 5, 6, 9, 3, 1, 120],
        &[
            Some((4, 0)),
            Some((4, 0)),
            Some((4, 1)),
            Some((5, 1)),
            Some((5, 1)),
            Some((5, 1)),
            Some((5, 2)),
            Some((5, 3)),
        ],
    ),
    // The count of an array that is in no field.
    (
        Items(4),
        &[1, 0, 0x40, 0, 0, 0, 0, 0, 0, 0],
        &[None, Some((4, 0)), Some((4, 1))],
    ),
    (References(4), &[2, 7, 8], &[None, None, None]),
    (Reference(4), &[7], &[None]),
    (Inline(3), &[3, 1, 120], &[None]),
];

fn see_held(rt: &impl Abort, classes: &Classes, (has, bytes, expected): &Held) -> Result<(), Fail> {
    let node = node_at_front(classes, *has, bytes).ok_or("no value")?;
    assert!(rt; has_fields(classes, node, expected));
    Ok(())
}

#[test]
fn leaves_are_in_fields(rt: HostRuntime) -> Result<(), Fail> {
    let classes = classes_of(rt.alloc(), &FIELD_CLASSES)?;
    for held in HELD.iter() {
        see_held(&rt, &classes, held)?;
    }
    Ok(())
}

/// Compares the place of the second pair.
fn see_second(rt: &impl Abort, classes: &Classes) -> Result<(), Fail> {
    let node = node_at_front(classes, Items(4), &TWO_PAIRS).ok_or("no value")?;
    let second = child(classes, &node, &Step::Item(1)).ok_or("no item")?;
    assert_eq!(rt; (second.at, second.end), (12, 21));
    Ok(())
}

#[test]
fn an_item_follows_the_one_before(rt: HostRuntime) -> Result<(), Fail> {
    let classes = classes_of(rt.alloc(), &SOME_CLASSES)?;
    see_second(&rt, &classes)
}

/// A constant of a recording of JDK 17: three frames.
static TRACE: [u8; 29] = [
    0x00, 0x03, 0xa1, 0x80, 0xc8, 0x39, 0xd9, 0x01, 0x0f, 0x00, 0x81, 0x80, 0xa4, 0x3c, 0xff, 0xff,
    0xff, 0xff, 0x0f, 0x08, 0x00, 0x8e, 0x80, 0xf8, 0x08, 0xc8, 0x06, 0x0b, 0x00,
];

const INT: LeafKind = LeafKind::Base(Kind::Int);

static OF_TRACE: [LeafPlace; 14] = [
    (LeafKind::Base(Kind::Boolean), 0),
    (LeafKind::Count(3), 1),
    (LeafKind::Key(120_717_345), 2),
    (INT, 6),
    (INT, 8),
    (LeafKind::Key(0), 9),
    (LeafKind::Key(126_418_945), 10),
    (INT, 14),
    (INT, 19),
    (LeafKind::Key(0), 20),
    (LeafKind::Key(18_743_310), 21),
    (INT, 25),
    (INT, 27),
    (LeafKind::Key(0), 28),
];

#[test]
fn stack_traces_are_read(rt: HostRuntime) -> Result<(), Fail> {
    let classes = classes_of(rt.alloc(), &TRACE_CLASSES)?;
    see_leaves(&rt, &classes, Inline(188), &TRACE, &OF_TRACE)
}

/// Adds arrays of one item, 33 times, and of two numbers in the last.
fn push_deep(bytes: &mut Vec<u8>) -> Result<(), AllocError> {
    for _ in 0..33 {
        bytes.push(1)?;
    }
    bytes.extend_from_slice(&[2, 5, 6])
}

fn deep_bytes(alloc: Global) -> Result<Vec<u8>, AllocError> {
    let mut bytes = Vec::new(alloc);
    push_deep(&mut bytes)?;
    Ok(bytes)
}

/// Adds the leaves of these bytes: a count for each array, and the two numbers.
fn push_deep_leaves(leaves: &mut Vec<LeafPlace>) -> Result<(), AllocError> {
    for at in 0..33 {
        leaves.push((LeafKind::Count(1), at))?;
    }
    leaves.extend_from_slice(&[
        (LeafKind::Count(2), 33),
        (LeafKind::Base(Kind::Long), 34),
        (LeafKind::Base(Kind::Long), 35),
    ])
}

/// All of them.
fn deep_leaves(alloc: Global) -> Result<Vec<LeafPlace>, AllocError> {
    let mut leaves = Vec::new(alloc);
    push_deep_leaves(&mut leaves)?;
    Ok(leaves)
}

/// Compares them.
fn see_deep(rt: &impl Abort, alloc: Global, classes: &Classes) -> Result<(), Fail> {
    let bytes = deep_bytes(alloc)?;
    let leaves = deep_leaves(alloc)?;
    see_leaves(rt, classes, Items(0), &bytes, &leaves)
}

#[test]
fn values_nest(rt: HostRuntime) -> Result<(), Fail> {
    let classes = deep_classes(rt.alloc())?;
    see_deep(&rt, rt.alloc(), &classes)
}
