//! The output of a chunk, laid out as pieces.
ghost use Rattle.std.specs.Prelude.{◌≡◌, ◌<◌, ◌≤◌, length, option_map, IfOk, IfSome};
ghost use Rattle.jfr_chunk.specs.Chosen.{kept_of};
ghost use Rattle.jfr_chunk.specs.Parts.{events_of};
ghost use Rattle.jfr_chunk.specs.Reach.{kept_by, reached_marks};
ghost use Rattle.jfr_laws.specs.Laws.{IsSettled};
ghost use Rattle.jfr_output.specs.Metadata.{IsMetadataRecord};
ghost use Rattle.jfr_filter.specs.Filters.{describes};
ghost use Rattle.jfr_chunk.specs.Metas.{new_metadata};
ghost use Rattle.jfr_output.specs.RemainingRecords.{IsNewMetadata};
ghost use Rattle.jfr_scrub.specs.IsLaidOut.{IsLaidOut};
ghost use Rattle.jfr_scrub.specs.Pieces.{joined, laid_in, LieIn};
ghost use Rattle.jfr_scrub.specs.Scrubbing.{IsAccepted};

use crate::body::lay_body;
use crate::pieces::Pieces;
use crate::ranges::Ranges;
use jfr_chunk::{Chunk, Kept};
use jfr_filter::Filter;
use jfr_output::{output_header, remaining_entries, slim_metadata};
use jfr_outside::NoMemory;
use jfr_path::choose;
use jfr_reach::Marks;
use std::alloc::Global;
use std::marker::Model;

/// The output of an accepted chunk, as pieces, and how many events and entries are kept.
#[derive(Drop)]
pub(crate) struct LaidOut<'a> {
    pieces: Pieces<'a>,
    size: usize,
    kept_events: usize,
    kept_entries: usize,
}

impl<'a> Model for LaidOut<'a> {
    ghost use Rattle.std.specs.Prelude.{◌≤◌, length};
    ghost use Rattle.jfr_scrub.specs.Pieces.{joined};
    ghost use Rattle.jfr_scrub.specs.Scrubbing.{Prepared};

    ghost Value = { Prepared };

    ghost view = { λ s. record { laid = s.pieces; size = s.size; events = s.kept_events; entries = s.kept_entries } };

    ghost invariant = { λ s. length (joined s.pieces) ≤ s.size };
}

impl<'a> LaidOut<'a> {
    /// Lays out the output of an accepted chunk, with the events that a filter keeps.
    pub(crate) fn make(
        alloc: Global,
        chunk: &Chunk<'a>,
        filter: &Filter,
    ) -> Result<LaidOut<'a>, NoMemory>
        ensures laid { IfOk result (λ s. IsLaidOut (new_metadata (describes filter.now) chunk.now (kept_of filter.now chunk.now)) chunk.now (kept_of filter.now chunk.now) s.laid s.events s.entries) }
        ensures settled { IfOk result (λ s. IsSettled filter.now chunk.now) }
    {
        let kept = choose(alloc, chunk, filter)?;
        let marks = Marks::of(alloc, chunk, &kept)?;
        let slim = slim_metadata(alloc, chunk, &kept, filter)?;
        lay_out(alloc, chunk, &kept, &marks, slim.as_deref())
    }

    /// The pieces.
    pub(crate) fn pieces(&self) -> &Pieces<'a>
        ensures { result.now ≡ self.now.laid }
    {
        &self.pieces
    }

    /// A bound on the number of bytes of the pieces.
    pub(crate) fn size(&self) -> usize
        ensures exact { result ≡ self.now.size }
        ensures enough { length (joined self.now.laid) ≤ result }
    {
        self.size
    }

    /// The number of events that are kept.
    pub(crate) fn kept_events(&self) -> usize
        ensures { result ≡ self.now.events }
    {
        self.kept_events
    }

    /// The number of entries that remain.
    pub(crate) fn kept_entries(&self) -> usize
        ensures { result ≡ self.now.entries }
    {
        self.kept_entries
    }

    /// The ranges of the pieces, without the chunk.
    pub(crate) fn into_ranges(self) -> Ranges
        ensures same { laid_in self.entry.laid.chunk result ≡ self.entry.laid }
        ensures lie { LieIn (laid_in self.entry.laid.chunk result) }
    {
        self.pieces.into_ranges()
    }
}

/// Lays out the output of a chunk, given the kept events, the reached entries, and the new metadata record,
/// if there is one.
fn lay_out<'a>(
    alloc: Global,
    chunk: &Chunk<'a>,
    kept: &Kept,
    marks: &Marks,
    slim: Option<&[u8]>,
) -> Result<LaidOut<'a>, NoMemory>
    requires marks { marks.now ≡ reached_marks chunk.now (kept_by chunk.now kept.now) }
    requires kept { length kept.now ≡ length (events_of chunk.now) }
    requires slim { IsNewMetadata chunk.now (kept_by chunk.now kept.now) (option_map (λ s. s.now) slim) }
    requires metadata { IfSome slim (λ s. IsMetadataRecord s.now) }
    ensures laid { IfOk result (λ s. IsLaidOut (option_map (λ s. s.now) slim.entry) chunk.now (kept_by chunk.now kept.now) s.laid s.events s.entries) }
    ensures accepted { IfOk result (λ s. IsAccepted chunk.now) }
{
    let remaining = remaining_entries(alloc, chunk.pools(), marks)?;
    let remaining = remaining.as_slice();
    let body = lay_body(alloc, chunk, kept, remaining, slim)?;
    let size = body.at;
    let header = output_header(chunk.header(), size, body.newest, body.metadata);
    let pieces = body.output.finish(&header)?;
    Ok(LaidOut {
        pieces,
        size,
        kept_events: kept.kept_count(),
        kept_entries: remaining.len(),
    })
}
