//! Masking the chunks of a recording, one after another.
ghost use Rattle.std.specs.Prelude.{◌≡◌, ◌+◌, ◌<◌, ◌≤◌, ◌^◌, ◌∷◌, ◌++◌, [], ℕ, Err, List, IfErr, IfOk, OnOk, length};
ghost use Rattle.jfr_chunk.specs.Chosen.{kept_of};
ghost use Rattle.jfr_header.specs.Fronts.{Whole};
ghost use Rattle.jfr_mask.specs.declared.fault.MaskFault.TheVariants.{TooLong};
ghost use Rattle.jfr_mask.specs.Maskers.{masking_of};
ghost use Rattle.jfr_mask.specs.MaskOf.{dictionary_after, mask_of};
ghost use Rattle.jfr_mask.specs.RecordingMaskers.{AnswersAsked, IsAfter, IsUnmasked, after_masking, rule_of};

use crate::table::write_table;
use crate::{Dictionary, MaskFault, MaskOptions, mask_chunk};
use jfr_chunk::{Buffers, Chunk};
use jfr_header::Ending;
use jfr_outside::{Place, Sink};
use jfr_path::choose;
use jfr_plan::{Stage, append_output, create_output, finish_output};
use std::alloc::Global;
use std::mem;

/// A masked chunk isn't written if this many bytes come before it.
const OUTPUT_LIMIT: u64 = 1 << 40;

/// The stage that masks a recording. `written` is the length of the output so far, `bytes` the last masked chunk, and
/// `buffers` the memory of the last chunk's indexes. The next chunk uses the memory of both again.
#[derive(Drop)]
pub struct RecordingMasker<'m> {
    pub(crate) alloc: Global,
    pub(crate) options: MaskOptions<'m>,
    pub(crate) output: &'m str,
    pub(crate) table: Option<&'m str>,
    pub(crate) dictionary: Dictionary,
    pub(crate) written: u64,
    pub(crate) bytes: Vec<u8>,
    pub(crate) buffers: Buffers,
}

/// Masks a chunk, with the events that the filter keeps.
fn mask_kept<'m>(
    alloc: Global,
    memory: Vec<u8>,
    chunk: &'m Chunk<'m>,
    options: MaskOptions<'m>,
    dictionary: &mut Dictionary,
) -> Result<Vec<u8>, MaskFault>
    ensures ok { IfOk result (λ out. out.items ≡ mask_of (masking_of options.entry) dictionary.old chunk.now (kept_of options.entry.filter.now chunk.now)) }
    ensures below { IfOk result (λ out. length out.items < 2 ^ 30) }
    ensures dictionary { OnOk result (dictionary.new ≡ dictionary_after (masking_of options.entry) dictionary.old chunk.now (kept_of options.entry.filter.now chunk.now)) }
    ensures too_long { result ≡ Err TooLong → 2 ^ 30 ≤ length (mask_of (masking_of options.entry) dictionary.old chunk.now (kept_of options.entry.filter.now chunk.now)) }
{
    let kept = choose(alloc, chunk, options.filter)?;
    mask_chunk(alloc, memory, chunk, &kept, options, dictionary)
}

/// The ending after a chunk with this number that couldn't be masked.
fn ending_of(fault: MaskFault, number: u64) -> Ending
    ensures { result ≡ after_masking number fault }
{
    match fault {
        MaskFault::TooLong => Ending::MaskTooLong(number),
        MaskFault::Memory => Ending::Memory,
    }
}

impl<'m> RecordingMasker<'m> {
    /// Masks the next chunk, as `bytes`. If it is refused or too long, the command ends.
    fn mask(&mut self, chunk: &[u8], number: u64) -> Result<(), Ending>
        requires { Whole chunk.now }
        ensures made { (before : List (List ℕ)) → IsAfter self.old before → number ≡ length before + 1 → AnswersAsked ((rule_of self.old).asks before chunk.now) result self.new.bytes.items }
        ensures after { (before : List (List ℕ)) → IsAfter self.old before → OnOk result (IsAfter self.new (before ++ chunk.now ∷ [])) }
        ensures unmasked { IfErr result IsUnmasked }
        ensures rule { rule_of self.new ≡ rule_of self.old }
    {
        let buffers = mem::replace(&mut self.buffers, Buffers::new(self.alloc));
        let chunk = match Chunk::read_in(self.alloc, buffers, chunk) {
            Ok(chunk) => chunk,
            Err(fault) => return Err(Ending::of_chunk(number, fault)),
        };
        if OUTPUT_LIMIT <= self.written {
            return Err(Ending::MaskTooLong(number));
        }
        let bytes = mem::replace(&mut self.bytes, Vec::new(self.alloc));
        let masked = mask_kept(
            self.alloc,
            bytes,
            &chunk,
            self.options,
            &mut self.dictionary,
        );
        self.bytes = match masked {
            Ok(bytes) => bytes,
            Err(fault) => return Err(ending_of(fault, number)),
        };
        self.written += self.bytes.len() as u64;
        self.buffers = chunk.into_buffers();
        Ok(())
    }
}

impl Stage for RecordingMasker<'_> {
    ghost use Rattle.jfr_mask.specs.RecordingMaskers.{IsAfter, rule_of};

    ghost rule = { λ s. rule_of s };

    ghost seen = { λ s before. IsAfter s before };

    fn opened<P: Place, O: Sink>(&self, place: &mut P, _out: &mut O) -> Result<(), Ending> {
        create_output(place, self.output)
    }

    fn chunk<P: Place, O: Sink>(
        &mut self,
        place: &mut P,
        _out: &mut O,
        chunk: &[u8],
        number: u64,
    ) -> Result<(), Ending> {
        self.mask(chunk, number)?;
        append_output(place, &self.bytes)
    }

    fn end<P: Place, O: Sink>(&self, place: &mut P, _out: &mut O) -> Result<(), Ending> {
        finish_output(place)?;
        match self.table {
            Some(name) => write_table(self.alloc, place, name, &self.dictionary),
            None => Ok(()),
        }
    }
}
