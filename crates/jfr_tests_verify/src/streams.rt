//! Verdicts on files. The filter keeps the first event of the chunk of rings.
use crate::outputs::{FIRST, INPUT, PLAIN, RIGHT, Records, only_first};
use crate::places::{Files, Starved, place_of};
use jfr_base::{Reason, Refusal};
use jfr_filter::FilterFault;
use jfr_fixtures::NO_CLASSES;
use jfr_outside::{Call, MemoryPlace, Place};
use jfr_verify::{Doubt, Verdict, verify_stream};
use std::alloc::Global;
use std::process::Abort;
use std::test::Fail;

/// The plain chunk with a wrong size of its last record.
const WRONG: Records = (NO_CLASSES, &[8, 1, 0, 0, 0, 0, 0], 96);

/// Two receipts in a row.
const TWO: &[u8] = &[2, 0, 0, 0, 1, 1, 0, 2, 0, 0, 0, 1, 1, 0];

const BAD_SECOND: Verdict = Verdict::Refused(Refusal {
    chunk: 2,
    offset: 96,
    reason: Reason::RecordSize,
});

const NO_CHUNK: Verdict = Verdict::Refused(Refusal {
    chunk: 1,
    offset: 0,
    reason: Reason::NoChunk,
});

/// Files that are verified, and files whose output is the plain chunk.
const GOOD: Files = (&[INPUT], &[FIRST], RIGHT);

const PLAIN_OUTPUT: Files = (&[INPUT], &[PLAIN], RIGHT);

/// Files, and the verdict on them.
type Row = (Files, Verdict);

#[rattlefmt::skip]
static ROWS: [Row; 15] = [
    (GOOD, Verdict::Verified(1)),
    ((&[INPUT], &[FIRST], &[2, 0, 1, 1, 1, 1, 0]), Verdict::Doubted { chunk: 1, doubt: Doubt::ReceiptBad }),
    (PLAIN_OUTPUT, Verdict::Doubted { chunk: 1, doubt: Doubt::EventsDiffer }),
    ((&[INPUT, INPUT], &[FIRST, FIRST], TWO), Verdict::Verified(2)),
    ((&[INPUT, INPUT], &[FIRST, FIRST], &[2, 0, 0, 0, 1, 1, 0, 2, 0, 1, 1, 1, 1, 0]), Verdict::Doubted { chunk: 2, doubt: Doubt::ReceiptBad }),
    ((&[INPUT, INPUT], &[FIRST, FIRST], &[2, 0, 0, 0, 1, 1, 0, 2, 0, 0, 0, 1, 1, 0, 0]), Verdict::Doubted { chunk: 2, doubt: Doubt::ReceiptBad }),
    ((&[INPUT, INPUT], &[FIRST], RIGHT), Verdict::Doubted { chunk: 2, doubt: Doubt::ChunksDiffer }),
    ((&[INPUT], &[FIRST, FIRST], TWO), Verdict::Doubted { chunk: 2, doubt: Doubt::ChunksDiffer }),
    ((&[INPUT, WRONG], &[FIRST], RIGHT), BAD_SECOND),
    ((&[INPUT, WRONG], &[PLAIN], RIGHT), Verdict::Doubted { chunk: 1, doubt: Doubt::EventsDiffer }),
    ((&[INPUT], &[PLAIN, WRONG], RIGHT), Verdict::Doubted { chunk: 2, doubt: Doubt::OutRefused }),
    ((&[INPUT], &[], RIGHT), Verdict::Doubted { chunk: 1, doubt: Doubt::OutRefused }),
    ((&[], &[FIRST], RIGHT), NO_CHUNK),
    ((&[PLAIN, PLAIN], &[PLAIN, PLAIN], &[0x80, 0, 0]), Verdict::Verified(2)),
    ((&[PLAIN], &[PLAIN], &[]), Verdict::Doubted { chunk: 1, doubt: Doubt::ReceiptBad }),
];

/// The verdict on files of a place.
fn verdict_on<P: Place>(
    alloc: Global,
    place: &mut P,
    [input, output, receipts]: [&str; 3],
) -> Result<Verdict, FilterFault> {
    let filter = only_first(alloc)?;
    Ok(verify_stream(alloc, place, input, output, receipts, &filter))
}

/// Compares the verdict on the files of a place.
fn compare<P: Place>(
    rt: &impl Abort,
    alloc: Global,
    place: &mut P,
    verdict: Verdict,
) -> Result<(), Fail> {
    assert_eq!(rt;
        verdict_on(alloc, place, ["in", "out", "receipt"])?,
        verdict
    );
    Ok(())
}

/// Compares it if the files are read whole, and byte by byte.
fn compare_twice(
    rt: &impl Abort,
    alloc: Global,
    place: &mut MemoryPlace,
    verdict: Verdict,
) -> Result<(), Fail> {
    compare(rt, alloc, place, verdict)?;
    place.cut(1);
    compare(rt, alloc, place, verdict)
}

/// Compares the verdict on the files of a row.
fn compare_row(rt: &impl Abort, alloc: Global, (files, verdict): Row) -> Result<(), Fail> {
    let mut place = place_of(alloc, files)?;
    compare_twice(rt, alloc, &mut place, verdict)
}

#[test]
fn files_are_verified(rt: HostRuntime) -> Result<(), Fail> {
    for row in ROWS.iter() {
        compare_row(&rt, rt.alloc(), *row)?;
    }
    Ok(())
}

/// Which call fails, for which files, and the verdict.
type Failing = (Call, u64, Files, Verdict);

/// Two reads take the receipts, the next three the output, and the last three the input.
#[rattlefmt::skip]
static FAILING: [Failing; 14] = [
    (Call::Open, 1, GOOD, Verdict::ReadFault),
    (Call::Open, 2, GOOD, Verdict::ReadFault),
    (Call::Open, 3, GOOD, Verdict::ReadFault),
    (Call::Read, 1, GOOD, Verdict::ReadFault),
    (Call::Read, 2, GOOD, Verdict::ReadFault),
    (Call::Read, 3, GOOD, Verdict::ReadFault),
    (Call::Read, 4, GOOD, Verdict::ReadFault),
    (Call::Read, 5, GOOD, Verdict::ReadFault),
    (Call::Read, 6, GOOD, Verdict::ReadFault),
    (Call::Read, 7, GOOD, Verdict::ReadFault),
    (Call::Read, 8, GOOD, Verdict::ReadFault),
    (Call::Read, 9, GOOD, Verdict::Verified(1)),
    (Call::Read, 7, PLAIN_OUTPUT, Verdict::ReadFault),
    (Call::Read, 8, PLAIN_OUTPUT, Verdict::Doubted { chunk: 1, doubt: Doubt::EventsDiffer }),
];

/// Makes a call fail, and compares the verdict.
fn compare_with_fault(
    rt: &impl Abort,
    alloc: Global,
    place: &mut MemoryPlace,
    (call, nth): (Call, u64),
    verdict: Verdict,
) -> Result<(), Fail> {
    place.fail(call, nth, 0)?;
    compare(rt, alloc, place, verdict)
}

/// Compares the verdict if a call fails.
fn compare_failing(
    rt: &impl Abort,
    alloc: Global,
    (call, nth, files, verdict): Failing,
) -> Result<(), Fail> {
    let mut place = place_of(alloc, files)?;
    compare_with_fault(rt, alloc, &mut place, (call, nth), verdict)
}

#[test]
fn reads_fail(rt: HostRuntime) -> Result<(), Fail> {
    for row in FAILING.iter() {
        compare_failing(&rt, rt.alloc(), *row)?;
    }
    Ok(())
}

/// Compares the verdict if memory runs out after this many reads.
fn compare_starved(
    rt: &impl Abort,
    alloc: Global,
    reads: u64,
    verdict: Verdict,
) -> Result<(), Fail> {
    let place = place_of(alloc, GOOD)?;
    compare(rt, alloc, &mut Starved { place, reads }, verdict)
}

#[test]
fn memory_runs_out(rt: HostRuntime) -> Result<(), Fail> {
    for reads in 0..8 {
        compare_starved(&rt, rt.alloc(), reads, Verdict::Memory)?;
    }
    compare_starved(&rt, rt.alloc(), 8, Verdict::Verified(1))
}

/// The names of the input, the output and the receipts, of which one is missing.
const MISSING: [[&str; 3]; 3] = [
    ["none", "out", "receipt"],
    ["in", "none", "receipt"],
    ["in", "out", "none"],
];

/// Compares the verdict if a file doesn't exist.
fn compare_missing(rt: &impl Abort, alloc: Global, names: [&str; 3]) -> Result<(), Fail> {
    let mut place = place_of(alloc, GOOD)?;
    let verdict = verdict_on(alloc, &mut place, names)?;
    assert_eq!(rt; verdict, Verdict::ReadFault);
    Ok(())
}

#[test]
fn files_are_missing(rt: HostRuntime) -> Result<(), Fail> {
    for names in MISSING.iter() {
        compare_missing(&rt, rt.alloc(), *names)?;
    }
    Ok(())
}
