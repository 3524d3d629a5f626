//! All records of a chunk.
ghost use Rattle.std.specs.Prelude.{◌≡◌, ◌<◌, ◌≤◌, ◌↔◌, [], length, option_map, slice_get, Ok, Some, IfOk, IfErr, IsTrue};
ghost use Rattle.std.specs.List.Sorted.{IsBinarySearchResult};
ghost use Rattle.std.specs.Ordering.{nat_cmp};
ghost use Rattle.jfr_frame.specs.Records.{AreRecords, Rising, places_of, record_end, starts_at, record_there, records_of};
ghost use Rattle.jfr_frame.specs.Refused.{RefusedAt};
ghost use Rattle.jfr_frame.specs.Starts.{start_of};

use crate::framed::wide_type;
use crate::start::{Start, WIDE};
use crate::{FrameBuffers, Framed, next_record};
use jfr_base::{HEADER_LEN, ReadFault};
use std::alloc::Global;
use std::marker::Model;

/// The records of a chunk, in order. Only the start of each is kept, which gives everything except the size:
/// a record ends where the next one starts, or at the chunk's end.
#[derive(Drop)]
pub struct Frames<'a> {
    chunk: &'a [u8],
    starts: Vec<Start>,
}

impl<'a> Model for Frames<'a> {
    ghost use Rattle.std.specs.Prelude.{List};
    ghost use Rattle.jfr_frame.specs.declared.framed.Framed.{Framed};
    ghost use Rattle.jfr_frame.specs.Starts.{AreStarts, records_at};

    ghost Value = { List Framed };

    ghost view = { λ frames. records_at frames.chunk.now frames.starts.items };

    ghost invariant = { λ frames. AreStarts frames.chunk.now frames.starts.items };
}

impl<'a> Frames<'a> {
    /// Reads the records of a chunk. They are refused as `RecordSize` at the first offset where no record
    /// starts. `Memory` if memory runs out, and for 2^32 bytes or more, whose offsets a `Start` can't
    /// hold; chunks are far smaller.
    pub fn read(alloc: Global, chunk: &'a [u8]) -> Result<Frames<'a>, ReadFault>
        requires { 68 ≤ length chunk.now }
        ensures ok { IfOk result (λ rs. AreRecords chunk.now rs) }
        ensures refused { IfErr result (λ fault. RefusedAt chunk.now fault) }

        // The answer that `records_of` computes.
        ensures exact { IfOk result (λ rs. records_of chunk.now ≡ Ok rs) }
    {
        Frames::read_in(FrameBuffers::new(alloc), chunk)
    }

    /// Reads the records of a chunk as `read` does, and keeps their starts in the memory of an earlier
    /// chunk's starts, which are dropped.
    pub fn read_in(buffers: FrameBuffers, chunk: &'a [u8]) -> Result<Frames<'a>, ReadFault>
        requires { 68 ≤ length chunk.now }
        ensures ok { IfOk result (λ rs. AreRecords chunk.now rs) }
        ensures refused { IfErr result (λ fault. RefusedAt chunk.now fault) }
        ensures exact { IfOk result (λ rs. records_of chunk.now ≡ Ok rs) }
    {
        if chunk.len() > u32::MAX as usize {
            return Err(ReadFault::Memory);
        }
        let mut starts = buffers.starts;
        starts.clear();
        let mut at = HEADER_LEN;
        'records: while let Some(record) = next_record(chunk, at)? {
            starts.push(Start::of(record))?;
            at = record.end();
        }
        Ok(Frames { chunk, starts })
    }

    /// The memory of the starts, for use with the next chunk.
    pub fn into_buffers(self) -> FrameBuffers
        ensures { result ≡ places_of self.entry }
    {
        FrameBuffers {
            starts: self.starts,
        }
    }

    /// The number of records.
    pub fn len(&self) -> usize
        ensures { result ≡ length self.now }
    {
        self.starts.len()
    }

    /// Whether there is no record.
    pub fn is_empty(&self) -> bool
        ensures { IsTrue result ↔ (self.now ≡ []) }
    {
        self.starts.is_empty()
    }

    /// The record with this number, from 0, if there is one.
    #[inline(always)]
    pub fn get(&self, number: usize) -> Option<Framed>
        ensures { result ≡ slice_get self.now number }
    {
        if number < self.starts.len() {
            Some(self.at(number))
        } else {
            None
        }
    }

    /// The record with this number, from 0.
    #[inline(always)]
    pub fn at(&self, number: usize) -> Framed
        requires { number < length self.now }
        ensures { slice_get self.now number ≡ Some result }
    {
        let start = self.starts[number];
        let chunk = self.chunk;
        let at = start.at as usize;
        let type_at = at + usize::from(start.type_at);
        let type_id = if start.type_id == WIDE {
            wide_type(chunk, type_at)
        } else {
            u64::from(start.type_id)
        };
        Framed {
            at,
            size: self.end(number) - at,
            type_at,
            type_id,
            body: at + usize::from(start.body),
        }
    }

    /// What is kept of the record with this number, if there is one.
    #[inline(always)]
    fn start(&self, number: usize) -> Option<Start>
        ensures { result ≡ option_map start_of (slice_get self.now number) }
    {
        self.starts.get(number).copied()
    }

    /// The offset after the record with this number.
    #[inline(always)]
    fn end(&self, number: usize) -> usize
        requires { number < length self.now }
        ensures { option_map record_end (slice_get self.now number) ≡ Some result }
    {
        let last = self.chunk.len();
        match self.start(number + 1) {
            Some(next) => next.at as usize,
            None => last,
        }
    }

    /// The offset of the record with this number, from 0, if there is one. The record is not read.
    #[inline]
    pub fn place(&self, number: usize) -> Option<usize>
        ensures { result ≡ option_map (λ r. r.at) (slice_get self.now number) }
    {
        Some(self.start(number)?.at as usize)
    }

    /// `Ok` with the number of the record that starts at the offset `at`; if there is none, `Err` with that
    /// of the first record after it.
    fn number_at(&self, at: usize) -> Result<usize, usize>
        ensures position { IsBinarySearchResult (λ place. nat_cmp place at) (places_of self.now) result }
        ensures order { Rising 68 self.now }
    {
        self.starts
            .binary_search_by_key(&at, |start| start.at as usize)
    }

    /// The record of this type that starts at the offset `at`, if there is one.
    pub fn find(&self, at: u64, type_id: u64) -> Option<Framed>
        ensures { result ≡ record_there self.now at type_id }
    {
        let number = self.number_at(at as usize).ok()?;
        let record = self.get(number)?;
        if record.type_id == type_id {
            Some(record)
        } else {
            None
        }
    }

    /// Whether a record of this type starts at the offset `at`.
    pub fn starts_at(&self, at: u64, type_id: u64) -> bool
        ensures { result ≡ starts_at self.now at type_id }
    {
        self.find(at, type_id).is_some()
    }
}
