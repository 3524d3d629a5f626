//! The checker of a pair of chunks.
ghost use Rattle.std.specs.Prelude.{◌≡◌, length, IfOk};
ghost use Rattle.jfr_chunk.specs.Chosen.{kept_of};
ghost use Rattle.jfr_chunk.specs.Parts.{events_of};
ghost use Rattle.jfr_chunk.specs.Reach.{kept_by};
ghost use Rattle.jfr_verify.specs.Checked.{Answered, Checked, answer_of};
ghost use Rattle.jfr_verify.specs.Laws.{IsVerified};

use crate::classes::has_classes;
use crate::closed::is_closed;
use crate::copies::marks_of_copies;
use crate::events::same_events;
use crate::prefix::receipt_prefix;
use crate::{CheckFault, Doubt};
use jfr_base::NoMemory;
use jfr_chunk::{Chunk, Kept};
use jfr_filter::Filter;
use jfr_path::choose;
use std::alloc::Global;

/// Checks that the output `b` means the same as the input `a` with the events that the filter keeps, by the
/// receipt of `b` at the start of `receipt`. `Ok` has the length of that receipt; more bytes may follow it.
/// `Err` has the first doubt, or `Memory`.
pub fn check(
    alloc: Global,
    a: &Chunk<'_>,
    b: &Chunk<'_>,
    filter: &Filter,
    receipt: &[u8],
) -> Result<usize, CheckFault>
    ensures exact { Answered a.now b.now (kept_of filter.now a.now) receipt.now result }
    ensures verified { IfOk result (λ len. IsVerified a.now b.now (kept_of filter.now a.now)) }
{
    a.parts_are_valid();
    b.parts_are_valid();
    match choose(alloc, a, filter) {
        Ok(kept) => answer(check_kept(alloc, a, &kept, b, receipt)),
        Err(NoMemory) => Err(CheckFault::Memory),
    }
}

/// The answer that callers of `check` see.
fn answer(checked: Result<Result<usize, Doubt>, NoMemory>) -> Result<usize, CheckFault>
    ensures { result ≡ answer_of checked }
{
    match checked {
        Ok(Ok(end)) => Ok(end),
        Ok(Err(doubt)) => Err(CheckFault::Doubt(doubt)),
        Err(NoMemory) => Err(CheckFault::Memory),
    }
}

/// As `check`, for these kept events: the inner `Err` has the doubt.
fn check_kept(
    alloc: Global,
    a: &Chunk<'_>,
    kept: &Kept,
    b: &Chunk<'_>,
    receipt: &[u8],
) -> Result<Result<usize, Doubt>, NoMemory>
    requires { length kept.now ≡ length (events_of a.now) }
    ensures { IfOk result (Checked a.now b.now (kept_by a.now kept.now) receipt.now) }
{
    let known = has_classes(alloc, a, b)?;
    if !known {
        return Ok(Err(Doubt::ClassesDiffer));
    }
    if !same_events(a, kept, b) {
        return Ok(Err(Doubt::EventsDiffer));
    }
    let Some(marks) = marks_of_copies(alloc, a, b)? else {
        return Ok(Err(Doubt::EntriesDiffer));
    };
    if !is_closed(a, kept, marks) {
        return Ok(Err(Doubt::EntryMissing));
    }
    match receipt_prefix(alloc, b, receipt)? {
        Some(end) => Ok(Ok(end)),
        None => Ok(Err(Doubt::ReceiptBad)),
    }
}
