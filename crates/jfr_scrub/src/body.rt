//! The body of an output chunk, which is all that follows its header.
ghost use Rattle.std.specs.Prelude.{◌≡◌, ◌+◌, ◌-◌, ◌^◌, ◌<◌, ◌≤◌, ℕ, [], length, option_map, IfOk, IfSome, OnOk};
ghost use Rattle.std.specs.List.{AllByRecursion, flat_map};
ghost use Rattle.jfr_chunk.specs.Reach.{kept_by, remain};
ghost use Rattle.jfr_chunk.specs.Scrub.{bytes_of, output_records};
ghost use Rattle.jfr_output.specs.Metadata.{IsMetadataRecord};
ghost use Rattle.jfr_output.specs.RemainingRecords.{IsNewMetadata, ShowsMetadata, output_record_for};
ghost use Rattle.jfr_output.specs.Positions.{IsBefore};
ghost use Rattle.jfr_output.specs.Remaining.{NotFalling};
ghost use Rattle.jfr_scrub.specs.Bodies.{HasAllRecords, OutputRecordFits, OutputRecordIsCopied, OutputRecordsAreCopied, body_with, progress_of, output_record_parts};
ghost use Rattle.jfr_scrub.specs.Pieces.{Grows, IsCopied, made_parts};
ghost use Rattle.jfr_scrub.specs.Runs.{body_with_run};
ghost use Rattle.jfr_scrub.specs.Scrubbing.{IsAccepted};
ghost use Rattle.jfr_scrub.specs.Sizes.{HasRange};

use crate::checkpoint::lay_checkpoint;
use crate::piece_builder::PieceBuilder;
use crate::run::{Run, pass_run};
use jfr_chunk::{Chunk, Kept};
use jfr_output::{RecordCursor, RemainingRecord, delta_to, entries_of, next_remaining_record};
use jfr_outside::NoMemory;
use jfr_pool::EntryAt;
use std::alloc::Global;

/// The body so far: its pieces, the offset of the next byte, and the offsets of the newest checkpoint and of the
/// metadata record, if they have been laid out.
#[derive(Drop)]
pub(crate) struct BodySoFar<'a> {
    pub(crate) output: PieceBuilder<'a>,
    pub(crate) at: usize,
    pub(crate) newest: Option<usize>,
    pub(crate) metadata: Option<usize>,
}

/// Lays out the output records for all remaining records, with the entries that remain and the new metadata record,
/// if there is one.
pub(crate) fn lay_body<'a>(
    alloc: Global,
    chunk: &Chunk<'a>,
    kept: &Kept,
    remaining: &[EntryAt],
    slim: Option<&[u8]>,
) -> Result<BodySoFar<'a>, NoMemory>
    requires remaining { remaining.now ≡ remain chunk.now (kept_by chunk.now kept.now) }
    requires slim { IsNewMetadata chunk.now (kept_by chunk.now kept.now) (option_map (λ s. s.now) slim) }
    requires metadata { IfSome slim (λ s. IsMetadataRecord s.now) }
    ensures ok { IfOk result (λ body. HasAllRecords chunk.now remaining.now (output_records (option_map (λ s. s.now) slim.entry) chunk.now (kept_by chunk.now kept.now)) (progress_of body)) }
    ensures copied { IfOk result (λ body. OutputRecordsAreCopied remaining.now (output_records (option_map (λ s. s.now) slim.entry) chunk.now (kept_by chunk.now kept.now)) body.output.pieces) }
    ensures made { IfOk result (λ body. made_parts body.output.pieces ≡ flat_map (output_record_parts remaining.now) (output_records (option_map (λ s. s.now) slim.entry) chunk.now (kept_by chunk.now kept.now))) }
    ensures accepted { IsAccepted chunk.now }
{
    let mut body = BodySoFar {
        output: PieceBuilder::new(alloc, chunk.bytes()),
        at: 68,
        newest: None,
        metadata: None,
    };
    let mut cursor = RecordCursor {
        frame: 0,
        event: 0,
        link: 0,
    };
    'output_records: loop {
        lay_run(&mut body, pass_run(chunk, kept, &mut cursor))?;
        let Some(remaining_record) = next_remaining_record(chunk, kept, &mut cursor) else {
            return Ok(body);
        };
        lay_record(&mut body, remaining, slim, remaining_record)?;
    }
}

/// Copies a run of events.
#[inline(always)]
fn lay_run(body: &mut BodySoFar, run: Run) -> Result<(), NoMemory>
    requires order { run.from ≤ run.to }
    requires within { run.to ≤ length body.old.output.chunk }
    requires room { body.old.at + (run.to - run.from) ≤ length body.old.output.chunk }
    requires small { length body.old.output.chunk < 2 ^ 64 }
    ensures ok { OnOk result (progress_of body.new ≡ body_with_run (progress_of body.old) run) }
    ensures copied { OnOk result (IsCopied body.new.output.pieces run.from run.to) }
    ensures grows { OnOk result (Grows body.old.output.pieces body.new.output.pieces []) }
{
    body.output.copy(run.from, run.to)?;
    body.at += run.to - run.from;
    Ok(())
}

/// Lays out the output record for a remaining record.
#[inline(always)]
fn lay_record(
    body: &mut BodySoFar,
    remaining: &[EntryAt],
    slim: Option<&[u8]>,
    remaining_record: RemainingRecord,
) -> Result<(), NoMemory>
    requires fits { OutputRecordFits body.old.output.chunk remaining.now (output_record_for (option_map (λ s. s.now) slim) remaining_record) body.old.at body.old.newest }
    requires slim { IfSome slim (λ s. IsMetadataRecord s.now) }
    requires order { NotFalling 0 remaining.now }
    requires ranges { AllByRecursion (HasRange (length body.old.output.chunk)) remaining.now }
    requires before { IsBefore body.old.newest body.old.at }
    requires room { body.old.at + length (bytes_of body.old.output.chunk remaining.now (output_record_for (option_map (λ s. s.now) slim) remaining_record) body.old.at body.old.newest) ≤ length body.old.output.chunk }
    requires small { length body.old.output.chunk < 2 ^ 64 }
    ensures ok { OnOk result ((metadata : ℕ) → ShowsMetadata metadata remaining_record → progress_of body.new ≡ body_with remaining.now metadata (progress_of body.old) (output_record_for (option_map (λ s. s.now) slim.entry) remaining_record)) }
    ensures copied { OnOk result (OutputRecordIsCopied remaining.now body.new.output.pieces (output_record_for (option_map (λ s. s.now) slim.entry) remaining_record)) }
    ensures grows { OnOk result (Grows body.old.output.pieces body.new.output.pieces (output_record_parts remaining.now (output_record_for (option_map (λ s. s.now) slim.entry) remaining_record))) }
{
    let at = body.at;
    match remaining_record {
        RemainingRecord::Event(_, frame) => {
            body.output.copy(frame.at, frame.end())?;
            body.at = at + frame.size;
        }
        RemainingRecord::Metadata(frame) => {
            body.metadata = Some(body.metadata.unwrap_or(at));
            match slim {
                Some(record) => {
                    body.output.put_metadata(record)?;
                    body.at = at + record.len();
                }
                None => {
                    body.output.copy(frame.at, frame.end())?;
                    body.at = at + frame.size;
                }
            }
        }
        RemainingRecord::Chained(number, link) => {
            let delta = delta_to(body.newest, at);
            let size = lay_checkpoint(
                &mut body.output,
                &link,
                delta,
                entries_of(remaining, number),
            )?;
            body.newest = Some(at);
            body.at = at + size;
        }
    }
    Ok(())
}
