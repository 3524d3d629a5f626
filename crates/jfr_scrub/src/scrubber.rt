//! The scrubber of one chunk.
ghost use Rattle.std.specs.Prelude.{◌≡◌, [], length, slice_get, option_map, IfOk, IfSome};
ghost use Rattle.jfr_chunk.specs.Chosen.{kept_of};
ghost use Rattle.jfr_laws.specs.Laws.{IsSettled};
ghost use Rattle.jfr_filter.specs.Filters.{describes};
ghost use Rattle.jfr_chunk.specs.Metas.{new_metadata};
ghost use Rattle.jfr_scrub.specs.IsLaidOut.{IsLaidOut};
ghost use Rattle.jfr_scrub.specs.Pieces.{IsOfChunk, range_of};
ghost use Rattle.jfr_scrub.specs.Scrubbing.{all_written};

use crate::Piece;
use crate::laid::LaidOut;
use jfr_chunk::Chunk;
use jfr_filter::Filter;
use jfr_outside::NoMemory;
use std::alloc::Global;
use std::marker::Model;

/// The output of an accepted chunk, as pieces: ranges of the chunk, and of a few bytes that are new. The memory to
/// write them is already allocated.
#[derive(Drop)]
pub struct Scrubber<'a> {
    laid: LaidOut<'a>,
    out: Vec<u8>,
}

impl<'a> Model for Scrubber<'a> {
    ghost use Rattle.std.specs.Prelude.{◌≤◌, length, vec_capacity};
    ghost use Rattle.jfr_scrub.specs.Pieces.{joined};
    ghost use Rattle.jfr_scrub.specs.Scrubbing.{Scrubbing};

    ghost Value = { Scrubbing };

    ghost view = { λ s. record { laid = s.laid.laid; written = s.out.items; events = s.laid.events; entries = s.laid.entries } };

    ghost invariant = { λ s. length (joined s.laid.laid) ≤ vec_capacity s.out };
}

impl<'a> Scrubber<'a> {
    /// Lays out the output of an accepted chunk, with the events that a filter keeps. Allocates all the
    /// memory that `write` needs.
    pub fn prepare(
        alloc: Global,
        chunk: &Chunk<'a>,
        filter: &Filter,
    ) -> Result<Scrubber<'a>, NoMemory>
        // The pieces make up the output. Nothing is written yet.
        ensures laid { IfOk result (λ s. IsLaidOut (new_metadata (describes filter.now) chunk.now (kept_of filter.now chunk.now)) chunk.now (kept_of filter.now chunk.now) s.laid s.events s.entries) }
        ensures empty { IfOk result (λ s. s.written ≡ []) }

        // The output is accepted, and no longer than the chunk. It has exactly the events that the filter keeps
        // and the entries that they reach, and means the same. Scrubbed again with this filter it stays the same.
        ensures settled { IfOk result (λ s. IsSettled filter.now chunk.now) }
    {
        let laid = LaidOut::make(alloc, chunk, filter)?;
        let out = Vec::with_capacity(alloc, laid.size())?;
        Ok(Scrubber { laid, out })
    }

    /// Writes the pieces. Allocates nothing.
    pub fn write(&mut self)
        requires empty { self.old.written ≡ [] }
        ensures { self.new ≡ all_written self.old }
    {
        self.laid.pieces().write(&mut self.out);
    }

    /// The bytes that have been written: none before `write`, all of them after it.
    pub fn bytes(&self) -> &[u8]
        ensures { result.now ≡ self.now.written }
    {
        self.out.as_slice()
    }

    /// The number of events that are kept.
    pub fn kept_events(&self) -> usize
        ensures { result ≡ self.now.events }
    {
        self.laid.kept_events()
    }

    /// The number of entries that remain.
    pub fn kept_entries(&self) -> usize
        ensures { result ≡ self.now.entries }
    {
        self.laid.kept_entries()
    }

    /// The new bytes, of which some pieces are ranges.
    pub fn made(&self) -> &[u8]
        ensures { result.now ≡ self.now.laid.made }
    {
        self.laid.pieces().made()
    }

    /// The number of pieces.
    pub fn piece_count(&self) -> usize
        ensures { result ≡ length self.now.laid.pieces }
    {
        self.laid.pieces().len()
    }

    /// The piece with this number, from 0 in the order of the output, if there is one.
    pub fn piece(&self, number: usize) -> Option<Piece<'a>>
        ensures exact { option_map range_of result ≡ slice_get self.now.laid.pieces number }
        ensures of_chunk { IfSome result (IsOfChunk self.now.laid.chunk) }
    {
        self.laid.pieces().get(number)
    }
}
