//! The pieces of an output, in order.
ghost use Rattle.std.specs.Prelude.{◌≡◌, ℕ, ◌<◌, ◌≤◌, ◌+◌, ◌++◌, [], ◌∷◌, length, slice_get, slice_range, option_map, vec_len, vec_capacity, IfSome, OnOk};
ghost use Rattle.std.specs.List.{AllByRecursion, flat_map};
ghost use Rattle.jfr_scrub.specs.declared.piece.MadePart.TheVariants.{ChunkHeader};
ghost use Rattle.jfr_scrub.specs.Pieces.{AreMadeBytes, Grows, IsCopied, IsHeaded, IsHeader, IsMadeBytes, IsOfChunk, joined, Keeps, laid_in, LieIn, Lies, made_parts, range_bytes, range_of};

use crate::piece::{MadePart, Piece, Range};
use crate::ranges::{Ranges, bytes_of};
use jfr_outside::NoMemory;
use std::alloc::Global;
use std::marker::Model;

/// Ranges of a chunk and of made bytes, one after another.
#[derive(Drop)]
pub(crate) struct Pieces<'a> {
    chunk: &'a [u8],
    made: Vec<u8>,
    ranges: Vec<Range>,
}

impl<'a> Model for Pieces<'a> {
    ghost use Rattle.jfr_scrub.specs.Pieces.{PieceList, LieIn};

    ghost Value = { PieceList };

    ghost view = { λ p. record { chunk = p.chunk.now; made = p.made.items; pieces = p.ranges.items } };

    ghost invariant = { λ p. LieIn (record { chunk = p.chunk.now; made = p.made.items; pieces = p.ranges.items }) };
}

impl<'a> Pieces<'a> {
    /// No pieces.
    pub(crate) fn new(alloc: Global, chunk: &'a [u8]) -> Pieces<'a>
        ensures { result ≡ record { chunk = chunk.now; made = []; pieces = [] } }
    {
        Pieces {
            chunk,
            made: Vec::new(alloc),
            ranges: Vec::new(alloc),
        }
    }

    /// Adds a range of the chunk, unless it is empty.
    pub(crate) fn copy(&mut self, from: usize, to: usize) -> Result<(), NoMemory>
        requires order { from ≤ to }
        requires within { to ≤ length self.old.chunk }
        ensures chunk { self.new.chunk ≡ self.old.chunk }
        ensures ok { OnOk result (joined self.new ≡ joined self.old ++ slice_range self.old.chunk from to) }
        ensures copied { OnOk result (from < to → IsCopied self.new.pieces from to) }
        ensures grows { Grows self.old.pieces self.new.pieces [] }
        ensures numbers { AreMadeBytes self.old → AreMadeBytes self.new }
    {
        if from == to {
            return Ok(());
        }
        self.ranges.push(Range::Copied { from, to })?;
        Ok(())
    }

    /// Adds made bytes.
    pub(crate) fn put(&mut self, part: MadePart, bytes: &[u8]) -> Result<(), NoMemory>
        requires { IsMadeBytes part bytes.now }
        ensures chunk { self.new.chunk ≡ self.old.chunk }
        ensures ok { OnOk result (joined self.new ≡ joined self.old ++ bytes.now) }
        ensures grows { OnOk result (Grows self.old.pieces self.new.pieces (part ∷ [])) }
        ensures numbers { AreMadeBytes self.old → AreMadeBytes self.new }
    {
        let from = self.made.len();
        self.made.extend_from_slice(bytes)?;
        self.ranges.push(Range::Made {
            part,
            from,
            to: self.made.len(),
        })?;
        Ok(())
    }

    /// Adds the header before all pieces.
    pub(crate) fn put_header(&mut self, bytes: &[u8]) -> Result<(), NoMemory>
        requires { IsHeader bytes.now }
        ensures chunk { self.new.chunk ≡ self.old.chunk }
        ensures ok { OnOk result (joined self.new ≡ bytes.now ++ joined self.old) }
        ensures keeps { OnOk result (Keeps self.old.pieces self.new.pieces) }
        ensures made { OnOk result (made_parts self.new.pieces ≡ ChunkHeader ∷ made_parts self.old.pieces) }
        ensures headed { OnOk result (AreMadeBytes self.old → IsHeaded self.new) }
    {
        let from = self.made.len();
        self.made.extend_from_slice(bytes)?;
        self.ranges.insert(
            0,
            Range::Made {
                part: MadePart::ChunkHeader,
                from,
                to: self.made.len(),
            },
        )?;
        Ok(())
    }

    /// The made bytes.
    pub(crate) fn made(&self) -> &[u8]
        ensures { result.now ≡ self.now.made }
    {
        self.made.as_slice()
    }

    /// The number of pieces.
    pub(crate) fn len(&self) -> usize
        ensures { result ≡ length self.now.pieces }
    {
        self.ranges.len()
    }

    /// The piece with this number, from 0, if there is one.
    pub(crate) fn get(&self, number: usize) -> Option<Piece<'a>>
        ensures exact { option_map range_of result ≡ slice_get self.now.pieces number }
        ensures of_chunk { IfSome result (IsOfChunk self.now.chunk) }
    {
        let range = *self.ranges.get(number)?;
        Some(piece_of(self.chunk, range))
    }

    /// The ranges, without the chunk.
    pub(crate) fn into_ranges(self) -> Ranges
        ensures same { laid_in self.entry.chunk result ≡ self.entry }
        ensures lie { LieIn (laid_in self.entry.chunk result) }
    {
        Ranges {
            made: self.made,
            ranges: self.ranges,
        }
    }

    /// Appends the bytes of the pieces. The vector must have the capacity.
    pub(crate) fn write(&self, out: &mut Vec<u8>)
        requires { vec_len out.old + length (joined self.now) ≤ vec_capacity out.old }
        ensures { out.new.items ≡ out.old.items ++ joined self.now }
    {
        write_ranges(out, self.chunk, &self.made, &self.ranges);
    }
}

/// A range as a piece.
fn piece_of<'a>(chunk: &'a [u8], range: Range) -> Piece<'a>
    requires { (m : ℕ) × Lies (length chunk.now) m range }
    ensures exact { range_of result ≡ range }
    ensures of_chunk { IsOfChunk chunk.now result }
{
    match range {
        Range::Copied { from, to } => Piece::Copied {
            at: from,
            bytes: &chunk[from..to],
        },
        Range::Made { part, from, to } => Piece::Made { part, from, to },
    }
}

/// Appends the bytes of the ranges. The vector must have the capacity.
fn write_ranges(out: &mut Vec<u8>, chunk: &[u8], made: &[u8], ranges: &[Range])
    requires lie { AllByRecursion (Lies (length chunk.now) (length made.now)) ranges.now }
    requires room { vec_len out.old + length (flat_map (range_bytes chunk.now made.now) ranges.now) ≤ vec_capacity out.old }
    ensures { out.new.items ≡ out.old.items ++ flat_map (range_bytes chunk.now made.now) ranges.now }
{
    for range in ranges {
        write_range(out, chunk, made, *range);
    }
}

/// Appends the bytes of a range. The vector must have the capacity.
fn write_range(out: &mut Vec<u8>, chunk: &[u8], made: &[u8], range: Range)
    requires lies { Lies (length chunk.now) (length made.now) range }
    requires room { vec_len out.old + length (range_bytes chunk.now made.now range) ≤ vec_capacity out.old }
    ensures items { out.new.items ≡ out.old.items ++ range_bytes chunk.now made.now range }
    ensures len { vec_len out.new ≡ vec_len out.old + length (range_bytes chunk.now made.now range) }
    ensures capacity { vec_capacity out.old ≤ vec_capacity out.new }
{
    match out.extend_from_slice(bytes_of(chunk, made, range)) {
        Ok(()) => {}
        Err(_) => unreachable!(),
    }
}
