//! Lists of classes, made from lines.
use crate::classes::Has::{Inline, Items, Reference};
use crate::classes::{ClassLine, EVENT, FieldLine, add, classes_of};
use jfr_base::Reason;
use jfr_layout::{ClassFault, ClassLayout, ClassList, Classes, FusedFields, FusedKind, Kind};
use jfr_outside::NoMemory;
use std::alloc::Global;
use std::process::Abort;
use std::test::Fail;

/// The class and the field of a flaw, and what it is.
type ClassFlaw = (usize, Option<usize>, Reason);

/// Why a list of classes is refused, if it is.
fn fault_in(alloc: Global, list: ClassList) -> Option<ClassFault> {
    Classes::make(alloc, list).err()
}

/// The fault of a flaw, if there is one.
fn flawed(flaw: Option<ClassFlaw>) -> Option<ClassFault> {
    let (class, field, reason) = flaw?;
    Some(ClassFault::Flawed {
        class,
        field,
        reason,
    })
}

/// The fields of two classes, the id of the second class, and the first flaw.
type Row = (
    &'static [FieldLine],
    &'static [FieldLine],
    u64,
    Option<ClassFlaw>,
);

const NUMBER: &[FieldLine] = &[("x", Inline(2))];

const TWICE: &[FieldLine] = &[("x", Inline(2)), ("y", Inline(2)), ("x", Inline(2))];

const UNKNOWN: &[FieldLine] = &[("x", Reference(9))];

const ITEMS_OF_SECOND: &[FieldLine] = &[("x", Items(4))];

const ONE_FIRST: &[FieldLine] = &[("x", Inline(3))];

/// The first class has the id 3. Before it is a number, whose id is 2.
static FIRST_FLAWS: [Row; 7] = [
    (NUMBER, NUMBER, 4, None),
    (UNKNOWN, NUMBER, 3, Some((2, None, Reason::ClassTwice))),
    (UNKNOWN, TWICE, 4, Some((2, Some(2), Reason::FieldTwice))),
    (NUMBER, UNKNOWN, 4, Some((2, Some(0), Reason::UnknownType))),
    (&[], &[("x", Reference(3))], 4, None),
    (
        &[],
        &[("x", Items(3))],
        4,
        Some((2, Some(0), Reason::EmptyInline)),
    ),
    (
        ITEMS_OF_SECOND,
        ONE_FIRST,
        4,
        Some((1, None, Reason::InlineDeep)),
    ),
];

/// Adds a number and the two classes of a row.
fn add_row(list: &mut ClassList, alloc: Global, row: &Row) -> Result<(), NoMemory> {
    add(list, alloc, 2, "long", None, &[])?;
    add(list, alloc, 3, "a", None, row.0)?;
    add(list, alloc, row.2, "b", EVENT, row.1)
}

/// Why these classes are refused, if they are.
fn fault_of_row(alloc: Global, row: &Row) -> Result<Option<ClassFault>, NoMemory> {
    let mut list = ClassList::new(alloc);
    add_row(&mut list, alloc, row)?;
    Ok(fault_in(alloc, list))
}

fn see_row(rt: &impl Abort, alloc: Global, row: &Row) -> Result<(), Fail> {
    let fault = fault_of_row(alloc, row)?;
    assert_eq!(rt; fault, flawed(row.3));
    Ok(())
}

#[test]
fn the_first_flaw_is_reported(rt: HostRuntime) -> Result<(), Fail> {
    for row in FIRST_FLAWS.iter() {
        see_row(&rt, rt.alloc(), row)?;
    }
    Ok(())
}

/// Adds a composite class with one or two inline fields of the next.
fn add_link(list: &mut ClassList, alloc: Global, id: u64, twice: bool) -> Result<(), NoMemory> {
    let next = Inline(id.saturating_add(1));
    if twice {
        add(list, alloc, id, "c", None, &[("x", next), ("y", next)])
    } else {
        add(list, alloc, id, "c", None, &[("x", next)])
    }
}

/// Adds `length` of them, and a number at the end.
fn add_chain(
    list: &mut ClassList,
    alloc: Global,
    length: u64,
    twice: bool,
) -> Result<(), NoMemory> {
    for id in 0..length {
        add_link(list, alloc, id, twice)?;
    }
    add(list, alloc, length, "long", None, &[])
}

/// Why these classes are refused, if they are.
fn fault_of_chain(alloc: Global, length: u64, twice: bool) -> Result<Option<ClassFault>, NoMemory> {
    let mut list = ClassList::new(alloc);
    add_chain(&mut list, alloc, length, twice)?;
    Ok(fault_in(alloc, list))
}

/// The number of composite classes, whether each has two fields, and the first flaw.
type Chain = (u64, bool, Option<ClassFlaw>);

static CHAINS: [Chain; 3] = [
    (33, false, None),
    (34, false, Some((0, None, Reason::InlineDeep))),
    (32, true, None),
];

fn see_chain(rt: &impl Abort, alloc: Global, (length, twice, flaw): &Chain) -> Result<(), Fail> {
    let fault = fault_of_chain(alloc, *length, *twice)?;
    assert_eq!(rt; fault, flawed(*flaw), "{length}");
    Ok(())
}

#[test]
fn values_end(rt: HostRuntime) -> Result<(), Fail> {
    for chain in CHAINS.iter() {
        see_chain(&rt, rt.alloc(), chain)?;
    }
    Ok(())
}

/// Two classes of one base name, classes with the ids of checkpoints and of metadata, and an event
/// class.
static SAMPLE: [ClassLine; 5] = [
    (7, "int", EVENT, &[]),
    (6, "int", None, &[]),
    (1, "t.A", EVENT, &[("n", Inline(7)), ("m", Reference(6))]),
    (8, "t.B", EVENT, &[("n", Items(1))]),
    (0, "t.C", EVENT, &[("n", Inline(7))]),
];

/// Looks for classes and a field by their ids.
fn see_found(rt: &impl Abort, classes: &Classes) {
    assert_eq!(rt; (classes.kind(6), classes.kind(9)), (Some(Kind::Int), None));
    assert_eq!(rt; classes.field_named(1, "m"), Some(1));
    assert_eq!(rt; classes.index_of(8), Some(3));
    assert!(rt; classes.find(5).is_none());
}

#[test]
fn finds_by_id(rt: HostRuntime) -> Result<(), Fail> {
    let classes = classes_of(rt.alloc(), &SAMPLE)?;
    see_found(&rt, &classes);
    Ok(())
}

/// The id of a class, whether it is an event class, and what it has.
static EVENT_CLASSES: [(u64, bool, &str); 4] = [
    (8, true, "a name of its own"),
    (7, false, "a base name"),
    (1, false, "the id of checkpoints"),
    (0, false, "the id of metadata"),
];

/// Only an event class has the layout of an event.
fn see_event_class(rt: &impl Abort, classes: &Classes, id: u64, is_event: bool, has: &str) {
    assert!(rt; classes.is_event(id) == is_event, "{has}");
    assert!(rt; classes.event_layout(id).is_some() == is_event, "{has}");
}

#[test]
fn knows_event_classes(rt: HostRuntime) -> Result<(), Fail> {
    let classes = classes_of(rt.alloc(), &SAMPLE)?;
    for (id, is_event, has) in EVENT_CLASSES.iter() {
        see_event_class(&rt, &classes, *id, *is_event, has);
    }
    Ok(())
}

/// An event whose row begins as that of most events do, then raw bytes, a string, an integer, an array and
/// five integers.
static LONG_ROW: [ClassLine; 6] = [
    (2, "long", None, &[]),
    (3, "double", None, &[]),
    (4, "boolean", None, &[]),
    (5, "java.lang.String", None, &[]),
    (6, "t.Thread", None, &[("n", Inline(2))]),
    (
        7,
        "t.Event",
        EVENT,
        &[
            ("start", Inline(2)),
            ("duration", Inline(2)),
            ("thread", Reference(6)),
            ("trace", Reference(5)),
            ("weight", Inline(3)),
            ("flag", Inline(4)),
            ("text", Inline(5)),
            ("n", Inline(2)),
            ("many", Items(2)),
            ("a", Inline(2)),
            ("b", Inline(2)),
            ("c", Inline(2)),
            ("d", Inline(2)),
            ("e", Inline(2)),
        ],
    ),
];

const PRELUDE: FusedKind = FusedKind::EventPrelude {
    thread: 6,
    trace: 5,
};

#[rattlefmt::skip]
static FUSED: [FusedFields; 7] = [
    FusedFields { first: 0, fields: 4, kind: PRELUDE },
    FusedFields { first: 4, fields: 2, kind: FusedKind::Raw(9) },
    FusedFields { first: 6, fields: 1, kind: FusedKind::Text(5) },
    FusedFields { first: 7, fields: 1, kind: FusedKind::OneInteger },
    FusedFields { first: 8, fields: 1, kind: FusedKind::Any },
    FusedFields { first: 9, fields: 4, kind: FusedKind::FourIntegers },
    FusedFields { first: 13, fields: 1, kind: FusedKind::OneInteger },
];

fn see_layout(rt: &impl Abort, layout: &ClassLayout) {
    assert_eq!(rt; layout.layouts.len(), 14);
    assert!(rt; layout.is_event);
    assert_eq!(rt; layout.fused_fields.as_slice(), FUSED.as_slice());
}

fn see_event(rt: &impl Abort, classes: &Classes) -> Result<(), Fail> {
    let index = classes.index_of(7).ok_or("no event class")?;
    see_layout(rt, classes.class_layout(index));
    Ok(())
}

#[test]
fn fields_are_fused(rt: HostRuntime) -> Result<(), Fail> {
    let classes = classes_of(rt.alloc(), &LONG_ROW)?;
    see_event(&rt, &classes)
}
