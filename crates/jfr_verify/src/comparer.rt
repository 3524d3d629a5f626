//! Comparing the chunks of an input with those of an output.
ghost use Rattle.std.specs.Prelude.{◌≡◌, ◌<◌, ◌+◌, ◌^◌, ℕ, List, IsErrOf};
ghost use Rattle.jfr_header.specs.Fronts.{Whole};
ghost use Rattle.jfr_chunk.specs.Parts.{Parts};

use crate::{Doubt, Verdict, check};
use jfr_chunk::{Buffers, Chunk};
use jfr_filter::Filter;
use std::alloc::Global;
use std::mem;
use std::slice::Iter;

/// Compares chunks of an input with those of an output. `outputs` are the chunks of the output that weren't
/// compared yet, and `receipts` the receipts that weren't read yet. The buffers hold the last chunks' memory,
/// which the next chunks use again.
#[derive(Drop)]
pub(crate) struct Comparer<'r> {
    alloc: Global,
    filter: &'r Filter,
    outputs: Iter<'r, Vec<u8>>,
    receipts: &'r [u8],
    input_buffers: Buffers,
    output_buffers: Buffers,
}

impl<'r> Comparer<'r> {
    ghost use Rattle.std.specs.Slice.Iter.{iter_rest};
    ghost use Rattle.jfr_chunk.specs.Refusal.{read_parts};
    ghost use Rattle.std.specs.Prelude.{[], None, Ok};
    ghost use Rattle.jfr_verify.specs.Comparing.{HasOutputs, Steps};
    ghost use Rattle.jfr_verify.specs.Outputs.{AllWhole};
    ghost use Rattle.jfr_verify.specs.Verdicts.{ComparedWith};

    /// A comparer with these outputs and receipts. `buffers`, the memory of an earlier chunk, is used for the outputs.
    pub(crate) fn new(
        alloc: Global,
        filter: &'r Filter,
        outputs: &'r [Vec<u8>],
        receipts: &'r [u8],
        buffers: Buffers,
    ) -> Comparer<'r>
        ensures filter { result.filter.now ≡ filter.now }
        ensures outputs { iter_rest result.outputs ≡ outputs.now }
        ensures receipts { result.receipts.now ≡ receipts.now }
    {
        Comparer {
            alloc,
            filter,
            outputs: outputs.iter(),
            receipts,
            input_buffers: Buffers::new(alloc),
            output_buffers: buffers,
        }
    }

    /// Compares the next chunk of the input, which has this number, with the next one of the output.
    pub(crate) fn compare(&mut self, chunk: &[u8], number: u64) -> Result<(), Verdict>
        requires chunk { Whole chunk.now }
        requires outputs { AllWhole (iter_rest self.old.outputs) }
        ensures steps { (n : ℕ) (qs : List Parts) → number ≡ n + 1 → HasOutputs self.old qs → Steps result n (read_parts chunk.now) qs self.old self.new }
        ensures filter { self.new.filter.now ≡ self.old.filter.now }
        ensures whole { AllWhole (iter_rest self.new.outputs) }
        ensures no_read_fault { IsErrOf result Verdict.ReadFault → ⊥ }
    {
        let buffers = mem::replace(&mut self.input_buffers, Buffers::new(self.alloc));
        let input = match Chunk::read_in(self.alloc, buffers, chunk) {
            Ok(input) => input,
            Err(fault) => return Err(Verdict::of_chunk(number, fault)),
        };
        let compared = self.compare_next(&input, number);
        self.input_buffers = input.into_buffers();
        compared
    }

    /// Compares a chunk of the input, which has this number, with the next one of the output.
    fn compare_next(&mut self, input: &Chunk<'_>, number: u64) -> Result<(), Verdict>
        requires { AllWhole (iter_rest self.old.outputs) }
        ensures steps { (n : ℕ) (qs : List Parts) → number ≡ n + 1 → HasOutputs self.old qs → Steps result n (Ok input.now) qs self.old self.new }
        ensures filter { self.new.filter.now ≡ self.old.filter.now }
        ensures whole { AllWhole (iter_rest self.new.outputs) }
        ensures no_read_fault { IsErrOf result Verdict.ReadFault → ⊥ }
    {
        let Some(output) = self.outputs.next() else {
            return Err(Verdict::Doubted {
                chunk: number,
                doubt: Doubt::ChunksDiffer,
            });
        };
        let buffers = mem::replace(&mut self.output_buffers, Buffers::new(self.alloc));
        let output = match Chunk::read_in(self.alloc, buffers, output) {
            Ok(output) => output,
            Err(fault) => return Err(Verdict::of_output(number, fault)),
        };
        let checked = check(self.alloc, input, &output, self.filter, self.receipts);
        self.output_buffers = output.into_buffers();
        match checked {
            Ok(len) => {
                let (_, unread) = self.receipts.split_at(len);
                self.receipts = unread;
                Ok(())
            }
            Err(fault) => Err(Verdict::of_check(number, fault)),
        }
    }

    /// The verdict at the end of the input, after all its chunks were compared. `count` is their number.
    pub(crate) fn end(&mut self, count: u64) -> Verdict
        requires { count < 2 ^ 63 }
        ensures ends { (qs : List Parts) → HasOutputs self.old qs → ComparedWith self.old.filter.now (record { parts = []; refusal = None }) qs self.old.receipts.now count result }
        ensures no_read_fault { result ≡ Verdict.ReadFault → ⊥ }
    {
        if self.outputs.next().is_some() {
            return Verdict::Doubted {
                chunk: count + 1,
                doubt: Doubt::ChunksDiffer,
            };
        }
        if !self.receipts.is_empty() {
            return Verdict::Doubted {
                chunk: count,
                doubt: Doubt::ReceiptBad,
            };
        }
        Verdict::Verified(count)
    }
}
