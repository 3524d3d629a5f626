//! Metadata records with a byte edited, and trees of many levels. Places count from the record's
//! first byte.

ghost use Rattle.std.specs.Prelude.{◌≡◌, IfOk};
ghost use Rattle.jfr_tests_layers.specs.NoClasses.{two_elements};

use crate::filter::words_of;
use jfr_base::{Flaw, ReadFault, Reason};
use jfr_fixtures::{CLASSES, NO_CLASSES};
use jfr_frame::next_record;
use jfr_meta::{Element, Elements, Metadata, Pairs, metadata_len, read_metadata, write_metadata};
use jfr_outside::{NoMemory, Words};
use std::alloc::{AllocError, Global};
use std::process::Abort;
use std::test::Fail;

/// The place of a byte of the record, what it becomes, and the flaw.
type Edit = (usize, u8, u64, Reason);

static EDITS_OF_NO_CLASSES: [Edit; 4] = [
    (6, 2, 6, Reason::StringKind),
    (6, 6, 6, Reason::StringKind),
    (22, 2, 22, Reason::StringIndex),
    (25, 0, 22, Reason::NoClasses),
];

static EDITS_OF_CLASSES: [Edit; 7] = [
    (182, 9, 177, Reason::ClassBad),
    (189, 15, 184, Reason::ClassTwice),
    (212, 21, 207, Reason::FieldBad),
    (210, 20, 207, Reason::FieldTwice),
    (177, 6, 223, Reason::UnknownType),
    (180, 13, 223, Reason::EmptyInline),
    (204, 8, 191, Reason::InlineDeep),
];

/// The metadata of a record by itself.
fn read(alloc: Global, record: &[u8]) -> Result<Metadata, ReadFault> {
    match next_record(record, 0)? {
        Some(frame) => read_metadata(alloc, record, &frame),
        None => Err(ReadFault::Memory),
    }
}

/// Edits a byte.
fn edit(bytes: &mut [u8], at: usize, byte: u8) {
    if let Some(edited) = bytes.get_mut(at) {
        *edited = byte;
    }
}

fn flawed(offset: u64, reason: Reason) -> Option<ReadFault> {
    Some(ReadFault::Flawed(Flaw { offset, reason }))
}

/// Compares why a record is refused. If it is read, there is no fault.
fn see_fault(rt: &impl Abort, alloc: Global, record: &[u8], fault: Option<ReadFault>) {
    assert_eq!(rt; read(alloc, record).err(), fault);
}

/// The metadata of a chunk without classes.
fn see_no_classes(rt: &impl Abort, none: &Metadata) {
    let numbers = (none.start, none.duration, none.id, none.classes.len());
    assert_eq!(rt; numbers, (0, 0, 1, 0));
    assert_eq!(rt; none.root.children().len(), 1);
}

/// Its strings.
fn see_strings(rt: &impl Abort, strings: &Words) {
    assert!(rt; strings.get(0) == Some("root"));
    assert!(rt; strings.get(1) == Some("metadata"));
}

/// Reads both.
fn read_no_classes(rt: &impl Abort, alloc: Global, record: &[u8]) -> Result<(), Fail> {
    let none = read(alloc, record)?;
    see_no_classes(rt, &none);
    see_strings(rt, &none.strings);
    Ok(())
}

#[test]
fn reads_no_classes(rt: HostRuntime) -> Result<(), Fail> {
    read_no_classes(&rt, rt.alloc(), NO_CLASSES)
}

/// The metadata of five classes.
fn see_classes(rt: &impl Abort, some: &Metadata) {
    assert_eq!(rt; (some.strings.len(), some.classes.len()), (24, 5));
    assert_eq!(rt; some.classes.field_named(8, "node"), Some(1));
    assert!(rt; some.classes.is_event(9) && !some.classes.is_event(7));
}

fn read_classes(rt: &impl Abort, alloc: Global) -> Result<(), Fail> {
    let some = read(alloc, CLASSES)?;
    see_classes(rt, &some);
    Ok(())
}

#[test]
fn reads_classes(rt: HostRuntime) -> Result<(), Fail> {
    read_classes(&rt, rt.alloc())
}

/// Compares the flaw of an edit of a record.
fn see_edit(
    rt: &impl Abort,
    alloc: Global,
    record: &[u8],
    (at, byte, offset, reason): Edit,
) -> Result<(), Fail> {
    let mut bytes = Vec::from_slice(alloc, record)?;
    edit(&mut bytes, at, byte);
    see_fault(rt, alloc, &bytes, flawed(offset, reason));
    Ok(())
}

/// Compares the flaw of each edit of a record.
fn see_edits(rt: &impl Abort, alloc: Global, record: &[u8], edits: &[Edit]) -> Result<(), Fail> {
    for edit in edits {
        see_edit(rt, alloc, record, *edit)?;
    }
    Ok(())
}

#[test]
fn flaws_of_edited_records_are_reported(rt: HostRuntime) -> Result<(), Fail> {
    see_edits(&rt, rt.alloc(), NO_CLASSES, &EDITS_OF_NO_CLASSES)?;
    see_edits(&rt, rt.alloc(), CLASSES, &EDITS_OF_CLASSES)
}

/// Adds elements, each of which is a child of the one before.
fn push_levels(bytes: &mut Vec<u8>, levels: u8) -> Result<(), AllocError> {
    for _ in 1..levels {
        bytes.extend_from_slice(&[1, 0, 1])?;
    }
    bytes.extend_from_slice(&[1, 0, 0])
}

/// A record with this many levels of elements.
fn record_of_levels(alloc: Global, levels: u8) -> Result<Vec<u8>, AllocError> {
    let (head, _) = NO_CLASSES.split_at(22);
    let mut bytes = Vec::from_slice(alloc, head)?;
    push_levels(&mut bytes, levels)?;
    edit(&mut bytes, 0, 22u8.saturating_add(levels.saturating_mul(3)));
    Ok(bytes)
}

/// Compares why a record with this many levels is refused, if it is.
fn see_levels(
    rt: &impl Abort,
    alloc: Global,
    levels: u8,
    fault: Option<ReadFault>,
) -> Result<(), Fail> {
    let bytes = record_of_levels(alloc, levels)?;
    see_fault(rt, alloc, &bytes, fault);
    Ok(())
}

#[test]
fn sixteen_levels_are_read(rt: HostRuntime) -> Result<(), Fail> {
    see_levels(&rt, rt.alloc(), 16, None)?;
    see_levels(&rt, rt.alloc(), 17, flawed(70, Reason::TreeDeep))
}

/// The record of a chunk without classes as it is written: its size takes five bytes.
#[rattlefmt::skip]
static WRITTEN: [u8; 32] = [
    0xA0, 0x80, 0x80, 0x80, 0, 0, 0, 0, 1, 2, // 32 bytes, a metadata record with 2 texts
    3, 4, b'r', b'o', b'o', b't',
    3, 8, b'm', b'e', b't', b'a', b'd', b'a', b't', b'a',
    0, 0, 1,                                  // root
    1, 0, 0,                                  //   metadata
];

/// The tree of that record.
fn elements(alloc: Global) -> Result<Element, NoMemory>
    ensures { IfOk result (λ root. root ≡ two_elements) }
{
    let mut children = Elements::new(alloc);
    children.push(Element::new(0, 1, Pairs::new(alloc), Elements::new(alloc)))?;
    Ok(Element::new(0, 0, Pairs::new(alloc), children))
}

/// Compares the record of these strings and this tree. Its length is known before, without the number of
/// strings.
fn see_written(rt: &impl Abort, alloc: Global, strings: &Words, root: &Element) -> Result<(), Fail>
    requires { root.now ≡ two_elements }
{
    assert_eq!(rt; strings.len(), 2);
    assert_eq!(rt; metadata_len(strings, root), 22);
    let record = write_metadata(alloc, 0, 0, 1, strings, root)?;
    assert_eq!(rt; record.as_slice(), WRITTEN.as_slice());
    Ok(())
}

/// Compares the record of these strings.
fn see_record(rt: &impl Abort, alloc: Global, strings: &Words) -> Result<(), Fail> {
    let root = elements(alloc)?;
    see_written(rt, alloc, strings, &root)
}

#[test]
fn writes_a_record(rt: HostRuntime) -> Result<(), Fail> {
    let strings = words_of(rt.alloc(), &["root", "metadata"])?;
    see_record(&rt, rt.alloc(), &strings)
}

#[test]
fn reads_what_is_written(rt: HostRuntime) -> Result<(), Fail> {
    read_no_classes(&rt, rt.alloc(), &WRITTEN)
}
