//! The rewritten chunk.
ghost use Rattle.std.specs.Prelude.{◌≡◌, ◌≤◌, ◌<◌, ◌++◌, ◌==◌, true, None, Some, drop, filter, length, option_map, replicate, take, unwrap_or, OnOk};
ghost use Rattle.jfr_header.specs.Headers.{header_bytes, header_of};
ghost use Rattle.jfr_frame.specs.Records.{IsRecord, record_bytes};
ghost use Rattle.jfr_chunk.specs.Parts.{metadata_at};
ghost use Rattle.jfr_chunk.specs.Reach.{kept_by};
ghost use Rattle.jfr_chunk.specs.Scrub.{output_records};
ghost use Rattle.jfr_output.specs.RemainingRecords.{ShowsEvent, ShowsMetadata, output_record_for};
ghost use Rattle.jfr_output.specs.Positions.{IsBefore, offset_so_far};
ghost use Rattle.jfr_output.specs.Remaining.{NotFalling};
ghost use Rattle.jfr_rewrite.specs.Rewrite.{chained_tail, new_bytes, resized, rewritten};
ghost use Rattle.jfr_rewrite.specs.Rewritten.{CarriesAll, CarriesRecord, CarriesTail};
ghost use Rattle.jfr_rewrite.specs.Writing.{AreSomeOf, CanWrite, CheckpointStands, HasAllRecords, Wrote, progress_of, with_metadata, with_record};

use crate::checkpoints::{OutputCheckpoint, put_checkpoint};
use crate::fault::WriteFault;
use crate::records::put_chunk_event;
use crate::rewriter::Rewriter;
use jfr_chunk::{Chunk, Kept};
use jfr_frame::Framed;
use jfr_output::{
    RecordCursor, RemainingRecord, delta_to, entries_of, next_remaining_record, output_header,
};
use jfr_pool::{EntryAt, Link};
use std::alloc::{AllocError, Global};

/// What a rewritten chunk is made from.
pub struct RewriteSource<'s, R> {
    /// The chunk as it was.
    pub chunk: &'s Chunk<'s>,
    /// Which of its events are kept.
    pub kept: &'s Kept,
    /// The new metadata record, if there is one.
    pub metadata: Option<&'s [u8]>,
    /// The entries that remain, in order.
    pub entries: &'s [EntryAt],
    /// How the chunk is rewritten.
    pub rewriting: &'s R,
}

impl<'s, R> Clone for RewriteSource<'s, R> {
    fn clone(&self) -> Result<RewriteSource<'s, R>, AllocError> {
        Ok(*self)
    }
}

impl<'s, R> Copy for RewriteSource<'s, R> {}

/// The output chunk so far: its bytes, of which the first 68 are for the header, and the offsets of the newest
/// checkpoint and of the metadata record, if they have been written.
#[derive(Drop)]
pub(crate) struct ChunkSoFar {
    bytes: Vec<u8>,
    /// Memory for the bytes of a record that have to move.
    scratch: Vec<u8>,
    newest: Option<usize>,
    metadata: Option<usize>,
}

/// Writes the rewritten chunk in the memory of a vector, whose items are dropped: the kept events, the metadata
/// record, and the checkpoints with the entries that remain. `TooLong` says that the size of a record doesn't fit in
/// the bytes that it gets.
pub fn write_chunk<R: Rewriter>(
    alloc: Global,
    memory: Vec<u8>,
    source: RewriteSource<'_, R>,
) -> Result<Vec<u8>, WriteFault>
    requires suits { R.suits source.rewriting.now source.chunk.now }
    requires entries { AreSomeOf source.chunk.now source.entries.now }
    ensures { Wrote result (λ out. out.items ≡ rewritten (with_metadata (R.rewrite source.entry.rewriting.now) (option_map (λ s. s.now) source.entry.metadata)) source.entry.chunk.now (kept_by source.entry.chunk.now source.entry.kept.now) source.entry.entries.now)
        (CarriesAll (with_metadata (R.rewrite source.entry.rewriting.now) (option_map (λ s. s.now) source.entry.metadata)) source.entry.chunk.now (kept_by source.entry.chunk.now source.entry.kept.now) source.entry.entries.now) }
{
    let mut bytes = memory;
    bytes.clear();
    bytes.extend_from_slice(&[0; 68])?;
    let mut output = ChunkSoFar {
        bytes,
        scratch: Vec::new(alloc),
        newest: None,
        metadata: None,
    };
    put_records(&mut output, source)?;
    Ok(with_header(output, source.chunk))
}

/// Puts the header in its place.
fn with_header(output: ChunkSoFar, chunk: &Chunk<'_>) -> Vec<u8>
    requires { 68 ≤ length output.bytes.items }
    ensures { result.items ≡ header_bytes (record (header_of (take 68 chunk.now.bytes)) { size = length output.bytes.items; pools = unwrap_or output.newest 0; metadata = unwrap_or output.metadata 0 }) ++ drop 68 output.bytes.items }
{
    let ChunkSoFar {
        mut bytes,
        newest,
        metadata,
        ..
    } = output;
    let header = output_header(chunk.header(), bytes.len(), newest, metadata);
    put_header(&mut bytes, &header);
    bytes
}

/// Writes the output records for all remaining records.
fn put_records<R: Rewriter>(
    output: &mut ChunkSoFar,
    source: RewriteSource<'_, R>,
) -> Result<(), WriteFault>
    requires empty { progress_of output.old ≡ record { bytes = replicate 68 0; newest = None; metadata = None } }
    requires suits { R.suits source.rewriting.now source.chunk.now }
    requires entries { AreSomeOf source.chunk.now source.entries.now }
    ensures { Wrote result (λ done. HasAllRecords source.entry.chunk.now
        (new_bytes (with_metadata (R.rewrite source.entry.rewriting.now) (option_map (λ s. s.now) source.entry.metadata)) source.entry.chunk.now (kept_by source.entry.chunk.now source.entry.kept.now) source.entry.entries.now)
        (output_records (option_map (λ s. s.now) source.entry.metadata) source.entry.chunk.now (kept_by source.entry.chunk.now source.entry.kept.now))
        (progress_of output.new))
        (CarriesAll (with_metadata (R.rewrite source.entry.rewriting.now) (option_map (λ s. s.now) source.entry.metadata)) source.entry.chunk.now (kept_by source.entry.chunk.now source.entry.kept.now) source.entry.entries.now) }
{
    source.chunk.parts_are_valid();
    let mut cursor = RecordCursor {
        frame: 0,
        event: 0,
        link: 0,
    };
    'output_records: while let Some(remaining_record) = next_remaining_record(
        source.chunk,
        source.kept,
        &mut cursor,
    ) {
        put_record(output, source, remaining_record)?;
    }
    Ok(())
}

/// Writes the output record for a remaining record.
fn put_record<R: Rewriter>(
    output: &mut ChunkSoFar,
    source: RewriteSource<'_, R>,
    remaining_record: RemainingRecord,
) -> Result<(), WriteFault>
    requires suits { R.suits source.rewriting.now source.chunk.now }
    requires order { NotFalling 0 source.entries.now }
    requires before { IsBefore output.old.newest (length output.old.bytes.items) }
    requires event { ShowsEvent source.chunk.now source.kept.now remaining_record }
    requires metadata { ShowsMetadata (metadata_at source.chunk.now.bytes) remaining_record }
    requires can { CanWrite source.chunk.now source.entries.now (output_record_for (option_map (λ s. s.now) source.metadata) remaining_record) }
    ensures { Wrote result (λ done. (progress_of output.new ≡ with_record
        (new_bytes (with_metadata (R.rewrite source.entry.rewriting.now) (option_map (λ s. s.now) source.entry.metadata)) source.entry.chunk.now (kept_by source.entry.chunk.now source.entry.kept.now) source.entry.entries.now)
        (metadata_at source.entry.chunk.now.bytes) (progress_of output.old) (output_record_for (option_map (λ s. s.now) source.entry.metadata) remaining_record))
        × IsBefore output.new.newest (length output.new.bytes.items))
        (CarriesRecord (with_metadata (R.rewrite source.entry.rewriting.now) (option_map (λ s. s.now) source.entry.metadata)) source.entry.chunk.now (kept_by source.entry.chunk.now source.entry.kept.now) source.entry.entries.now (output_record_for (option_map (λ s. s.now) source.entry.metadata) remaining_record) (length output.old.bytes.items) output.old.newest) }
{
    source.chunk.parts_are_valid();
    match remaining_record {
        RemainingRecord::Event(number, _) => put_chunk_event(
            &mut output.bytes,
            &mut output.scratch,
            source.chunk,
            number,
            source.rewriting,
        ),
        RemainingRecord::Metadata(frame) => {
            put_metadata(output, source.chunk.bytes(), frame, source.metadata)?;
            Ok(())
        }
        RemainingRecord::Chained(number, link) => put_chained(output, source, number, link),
    }
}

/// Writes the metadata record: the new one, if there is one, or else this record of the chunk.
fn put_metadata(
    output: &mut ChunkSoFar,
    bytes: &[u8],
    frame: Framed,
    new: Option<&[u8]>,
) -> Result<(), AllocError>
    requires { IsRecord bytes.now frame }
    ensures ok { OnOk result (progress_of output.new ≡ record { bytes = output.old.bytes.items ++ unwrap_or (option_map (λ s. s.now) new.entry) (record_bytes bytes.now frame); newest = output.old.newest; metadata = offset_so_far output.old.metadata true (length output.old.bytes.items) }) }
{
    let at = output.bytes.len();
    let record = new.unwrap_or(&bytes[frame.at..frame.end()]);
    output.bytes.extend_from_slice(record)?;
    output.metadata = Some(output.metadata.unwrap_or(at));
    Ok(())
}

/// Writes a chained checkpoint.
fn put_chained<R: Rewriter>(
    output: &mut ChunkSoFar,
    source: RewriteSource<'_, R>,
    number: usize,
    link: Link,
) -> Result<(), WriteFault>
    requires suits { R.suits source.rewriting.now source.chunk.now }
    requires order { NotFalling 0 source.entries.now }
    requires before { IsBefore output.old.newest (length output.old.bytes.items) }
    requires can { CheckpointStands source.chunk.now link (filter (λ e. e.checkpoint == number) source.entries.now) }
    ensures { Wrote result (λ done. (progress_of output.new ≡ record {
      bytes = output.old.bytes.items ++ resized (R.rewrite source.entry.rewriting.now) link.frame (chained_tail (R.rewrite source.entry.rewriting.now) source.entry.chunk.now source.entry.entries.now number link (length output.old.bytes.items) output.old.newest);
      newest = Some (length output.old.bytes.items);
      metadata = output.old.metadata;
    })
        × (length output.old.bytes.items < length output.new.bytes.items))
        (CarriesTail (R.rewrite source.entry.rewriting.now) link.frame (chained_tail (R.rewrite source.entry.rewriting.now) source.entry.chunk.now source.entry.entries.now number link (length output.old.bytes.items) output.old.newest)) }
{
    let at = output.bytes.len();
    let checkpoint = OutputCheckpoint {
        link,
        delta: delta_to(output.newest, at),
        entries: entries_of(source.entries, number),
    };
    output.newest = Some(at);
    put_checkpoint(
        &mut output.bytes,
        &mut output.scratch,
        source.chunk,
        checkpoint,
        source.rewriting,
    )
}

/// Writes the header into the first 68 bytes.
fn put_header(out: &mut Vec<u8>, header: &[u8; 68])
    requires { 68 ≤ length out.old.items }
    ensures { out.new.items ≡ header.now ++ drop 68 out.old.items }
{
    out[0..68].copy_from_slice(header);
}
