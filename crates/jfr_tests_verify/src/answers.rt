//! Answers of the checker. The input is the chunk of rings, of which the filter keeps the first event.
use crate::outputs::{
    ANOTHER_TEXT, BOTH_RINGS, FIRST, FIRST_RING, INPUT, NO_NODE, ONE_NODE, PLAIN, RIGHT, Records,
    SWAPPED, only_first, read,
};
use jfr_base::ReadFault;
use jfr_chunk::Chunk;
use jfr_filter::Filter;
use jfr_fixtures::{CLASSES, RINGS, with_classes, with_metadata};
use jfr_verify::{CheckFault, Doubt, check};
use std::alloc::{AllocError, Global};
use std::process::Abort;
use std::test::Fail;

/// The length of a receipt, or why the output isn't accepted.
type Answer = Result<usize, CheckFault>;

const CLASSES_DIFFER: Answer = Err(CheckFault::Doubt(Doubt::ClassesDiffer));

const EVENTS_DIFFER: Answer = Err(CheckFault::Doubt(Doubt::EventsDiffer));

const ENTRIES_DIFFER: Answer = Err(CheckFault::Doubt(Doubt::EntriesDiffer));

const ENTRY_MISSING: Answer = Err(CheckFault::Doubt(Doubt::EntryMissing));

const RECEIPT_BAD: Answer = Err(CheckFault::Doubt(Doubt::ReceiptBad));

/// An output, the bytes of its receipt and more, and the answer.
type Row = (Records, &'static [u8], Answer);

#[rattlefmt::skip]
const ROWS: [Row; 22] = [
    (FIRST, RIGHT, Ok(7)),
    // Integers needn't have their shortest forms.
    (FIRST, &[0x82, 0, 0x80, 0, 0, 0x80, 0, 1, 1, 0x80, 0x80, 0x80, 0x80, 0], Ok(14)),
    // A byte may follow.
    (FIRST, &[2, 0, 0, 0, 1, 1, 0, 0], Ok(7)),
    // The metadata record may be the input's own.
    ((CLASSES, FIRST_RING, 330), RIGHT, Ok(7)),
    (INPUT, RIGHT, EVENTS_DIFFER),
    (PLAIN, RIGHT, EVENTS_DIFFER),
    ((CLASSES, SWAPPED, 330), RIGHT, ENTRIES_DIFFER),
    ((CLASSES, ANOTHER_TEXT, 330), RIGHT, ENTRIES_DIFFER),
    ((CLASSES, ONE_NODE, 330), &[1, 0, 0, 0], ENTRY_MISSING),
    ((CLASSES, NO_NODE, 330), &[0], ENTRY_MISSING),
    ((CLASSES, BOTH_RINGS, 330), RIGHT, RECEIPT_BAD),
    ((CLASSES, BOTH_RINGS, 330), &[4, 0, 0, 0, 1, 1, 0, 2, 1, 3, 3, 1, 2], RECEIPT_BAD),
    ((CLASSES, BOTH_RINGS, 330), &[4, 0, 0, 0, 1, 1, 0, 3, 1, 2, 2, 1, 3], RECEIPT_BAD),
    // Two entries that refer to each other.
    (FIRST, &[2, 0, 1, 1, 1, 1, 0], RECEIPT_BAD),
    // Lines in the wrong order.
    (FIRST, &[2, 1, 1, 0, 0, 0, 0], RECEIPT_BAD),
    // Two lines for an entry.
    (FIRST, &[2, 0, 0, 0, 0, 0, 0], RECEIPT_BAD),
    // Too few lines.
    (FIRST, &[1, 0, 0, 0], RECEIPT_BAD),
    // A wrong kind.
    (FIRST, &[2, 0, 0, 0, 1, 2, 0], RECEIPT_BAD),
    // An event that there isn't.
    (FIRST, &[2, 0, 0, 1, 1, 1, 0], RECEIPT_BAD),
    // An event that doesn't refer to the entry.
    (FIRST, &[2, 0, 0, 0, 1, 0, 0], RECEIPT_BAD),
    // A byte is missing.
    (FIRST, &[2, 0, 0, 0, 1, 1], RECEIPT_BAD),
    (FIRST, &[], RECEIPT_BAD),
];

/// The answer to an output. This function has no clauses, so those that call it are proved without those of `check`.
fn answer_to(
    alloc: Global,
    input: &Chunk<'_>,
    filter: &Filter,
    output: &[u8],
    receipt: &[u8],
) -> Result<Answer, ReadFault> {
    let output = read(alloc, output)?;
    Ok(check(alloc, input, &output, filter, receipt))
}

/// Compares the answer to the output of a row.
fn compare_row(
    rt: &impl Abort,
    alloc: Global,
    input: &Chunk<'_>,
    filter: &Filter,
    ((metadata, records, last), receipt, answer): Row,
) -> Result<(), Fail> {
    let output = with_metadata(alloc, metadata, records, last)?;
    let answered = answer_to(alloc, input, filter, &output, receipt)?;
    assert_eq!(rt; answered, answer);
    Ok(())
}

/// An output with another name for `t.B`.
fn renamed(alloc: Global) -> Result<Vec<u8>, AllocError> {
    let mut output = with_metadata(alloc, CLASSES, FIRST_RING, 330)?;
    if let Some(byte) = output.get_mut(187) {
        *byte = b'Z';
    }
    Ok(output)
}

/// Compares the answer to it.
fn compare_renamed(
    rt: &impl Abort,
    alloc: Global,
    input: &Chunk<'_>,
    filter: &Filter,
) -> Result<(), Fail> {
    let output = renamed(alloc)?;
    let answered = answer_to(alloc, input, filter, &output, RIGHT)?;
    assert_eq!(rt; answered, CLASSES_DIFFER);
    Ok(())
}

/// Compares all answers.
fn compare_all(
    rt: &impl Abort,
    alloc: Global,
    input: &Chunk<'_>,
    filter: &Filter,
) -> Result<(), Fail> {
    for row in ROWS.iter() {
        compare_row(rt, alloc, input, filter, *row)?;
    }
    compare_renamed(rt, alloc, input, filter)
}

/// Reads the input, and compares all answers.
fn compare_bytes(
    rt: &impl Abort,
    alloc: Global,
    input: &[u8],
    filter: &Filter,
) -> Result<(), Fail> {
    let input = read(alloc, input)?;
    compare_all(rt, alloc, &input, filter)
}

#[test]
fn outputs_are_checked(rt: HostRuntime) -> Result<(), Fail> {
    let input = with_classes(rt.alloc(), RINGS, 333)?;
    let filter = only_first(rt.alloc())?;
    compare_bytes(&rt, rt.alloc(), &input, &filter)
}
