//! Building the pieces of an output.
ghost use Rattle.std.specs.Prelude.{◌≡◌, ◌≤◌, ◌<◌, ◌++◌, [], ◌∷◌, length, slice_range, IfOk, OnOk};
ghost use Rattle.jfr_base.specs.Integer.{FitsIn, spell, spell_in};
ghost use Rattle.jfr_output.specs.Metadata.{IsMetadataRecord};
ghost use Rattle.jfr_scrub.specs.declared.piece.MadePart.TheVariants.{CheckpointSize, ChunkHeader, MetadataRecord};
ghost use Rattle.jfr_scrub.specs.Pieces.{Grows, IsCopied, IsHeaded, IsHeader, IsMadeBytes, joined, Keeps, output_so_far, made_parts, more, TakesShortest};

use crate::piece::MadePart;
use crate::pieces::Pieces;
use jfr_base::{write_in, write_var};
use jfr_outside::NoMemory;
use std::alloc::Global;
use std::marker::Model;

/// The pieces of an output so far. Adjacent ranges of the chunk become one piece.
#[derive(Drop)]
pub(crate) struct PieceBuilder<'a> {
    pieces: Pieces<'a>,
    // The range of the chunk that follows the pieces.
    from: usize,
    to: usize,
}

impl<'a> Model for PieceBuilder<'a> {
    ghost use Rattle.std.specs.Prelude.{length, ◌∷◌, [], ◌++◌, ◌≤◌, ◌≡◌};
    ghost use Rattle.jfr_scrub.specs.declared.piece.Range.TheVariants.{Copied};
    ghost use Rattle.jfr_scrub.specs.Pieces.{AreMadeBytes, PieceList};

    ghost Value = { PieceList };

    ghost view = { λ o. record { chunk = o.pieces.chunk; made = o.pieces.made; pieces = o.pieces.pieces ++ Copied o.from o.to ∷ [] } };

    ghost invariant = { λ o. (o.from ≤ o.to) × (o.to ≤ length o.pieces.chunk) × AreMadeBytes o.pieces };
}

impl<'a> PieceBuilder<'a> {
    /// No pieces.
    pub(crate) fn new(alloc: Global, chunk: &'a [u8]) -> PieceBuilder<'a>
        ensures bytes { output_so_far result ≡ record { chunk = chunk.now; bytes = [] } }
        ensures made { made_parts result.pieces ≡ [] }
    {
        PieceBuilder {
            pieces: Pieces::new(alloc, chunk),
            from: 0,
            to: 0,
        }
    }

    /// Copies a range of the chunk.
    pub(crate) fn copy(&mut self, from: usize, to: usize) -> Result<(), NoMemory>
        requires order { from ≤ to }
        requires within { to ≤ length self.old.chunk }
        ensures ok { OnOk result (output_so_far self.new ≡ more (output_so_far self.old) (slice_range self.old.chunk from to)) }
        ensures copied { OnOk result (IsCopied self.new.pieces from to) }
        ensures grows { OnOk result (Grows self.old.pieces self.new.pieces []) }
    {
        if from == self.to {
            self.to = to;
            return Ok(());
        }
        self.pieces.copy(self.from, self.to)?;
        self.from = from;
        self.to = to;
        Ok(())
    }

    /// Adds made bytes.
    fn put(&mut self, part: MadePart, bytes: &[u8]) -> Result<(), NoMemory>
        requires { IsMadeBytes part bytes.now }
        ensures ok { OnOk result (output_so_far self.new ≡ more (output_so_far self.old) bytes.now) }
        ensures grows { OnOk result (Grows self.old.pieces self.new.pieces (part ∷ [])) }
    {
        self.pieces.copy(self.from, self.to)?;
        self.from = 0;
        self.to = 0;
        self.pieces.put(part, bytes)?;
        Ok(())
    }

    /// Adds an integer in its shortest spelling.
    pub(crate) fn put_integer(&mut self, part: MadePart, value: u64) -> Result<(), NoMemory>
        requires { TakesShortest part }
        ensures ok { OnOk result (output_so_far self.new ≡ more (output_so_far self.old) (spell value)) }
        ensures grows { OnOk result (Grows self.old.pieces self.new.pieces (part ∷ [])) }
    {
        let mut spelled = [0; 9];
        let len = write_var(value, &mut spelled);
        self.put(part, &spelled[..len])
    }

    /// Adds a checkpoint's size, spelled in `width` bytes.
    pub(crate) fn put_size(&mut self, value: u64, width: usize) -> Result<(), NoMemory>
        requires width { (1 ≤ width) × (width ≤ 9) }
        requires fits { FitsIn value width }
        ensures ok { OnOk result (output_so_far self.new ≡ more (output_so_far self.old) (spell_in width value)) }
        ensures grows { OnOk result (Grows self.old.pieces self.new.pieces (CheckpointSize ∷ [])) }
    {
        let mut spelled = [0; 9];
        write_in(value, width, &mut spelled);
        self.put(MadePart::CheckpointSize, &spelled[..width])
    }

    /// Adds a metadata record.
    pub(crate) fn put_metadata(&mut self, bytes: &[u8]) -> Result<(), NoMemory>
        requires { IsMetadataRecord bytes.now }
        ensures ok { OnOk result (output_so_far self.new ≡ more (output_so_far self.old) bytes.now) }
        ensures grows { OnOk result (Grows self.old.pieces self.new.pieces (MetadataRecord ∷ [])) }
    {
        self.put(MadePart::MetadataRecord, bytes)
    }

    /// The pieces, with the header before them.
    pub(crate) fn finish(self, header: &[u8]) -> Result<Pieces<'a>, NoMemory>
        requires { IsHeader header.now }
        ensures chunk { IfOk result (λ p. p.chunk ≡ self.entry.chunk) }
        ensures ok { IfOk result (λ p. joined p ≡ header.now ++ joined self.entry) }
        ensures keeps { IfOk result (λ p. Keeps self.entry.pieces p.pieces) }
        ensures made { IfOk result (λ p. made_parts p.pieces ≡ ChunkHeader ∷ made_parts self.entry.pieces) }
        ensures headed { IfOk result (λ p. IsHeaded p) }
    {
        let mut pieces = self.pieces;
        pieces.copy(self.from, self.to)?;
        pieces.put_header(header)?;
        Ok(pieces)
    }
}
