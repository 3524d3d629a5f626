//! The chunks of an output, which are kept while its input is read.
ghost use Rattle.std.specs.Prelude.{◌≡◌, [], None, OnOk, IfErr, IfOk, IfSome, IsErrOf, IsTrue};
ghost use Rattle.jfr_outside.specs.World.{file};
ghost use Rattle.jfr_header.specs.Fronts.{Whole};
ghost use Rattle.jfr_header.specs.Taking.{IfContentsKnown};
ghost use Rattle.jfr_pool.specs.Faults.{TellsFlaw};
ghost use Rattle.jfr_chunk.specs.Refusal.{read_parts};
ghost use Rattle.jfr_verify.specs.Faults.{CountsOf};
ghost use Rattle.jfr_verify.specs.Outputs.{AllWhole, IsAdded, OutputRead};

use crate::opening::open;
use crate::{Doubt, Verdict};
use jfr_base::ReadFault;
use jfr_chunk::{Buffers, Chunk};
use jfr_header::Cut;
use jfr_outside::Place;
use std::alloc::Global;
use std::mem;

/// The bytes of accepted chunks. `buffers` holds the last chunk's memory, which the next chunk uses again.
#[derive(Drop)]
struct Outputs {
    alloc: Global,
    buffers: Buffers,
    chunks: Vec<Vec<u8>>,
}

impl Outputs {
    /// No chunks.
    fn new(alloc: Global) -> Outputs
        ensures { result.chunks.items ≡ [] }
    {
        Outputs {
            alloc,
            buffers: Buffers::new(alloc),
            chunks: Vec::new(alloc),
        }
    }

    /// Adds the bytes of a chunk, if the chunk is accepted.
    fn keep(&mut self, bytes: &[u8]) -> Result<(), ReadFault>
        requires { Whole bytes.now }
        ensures ok { OnOk result (IsAdded bytes.now self.old.chunks.items self.new.chunks.items) }
        ensures refused { IfErr result (TellsFlaw (read_parts bytes.now)) }
    {
        let buffers = mem::replace(&mut self.buffers, Buffers::new(self.alloc));
        let chunk = Chunk::read_in(self.alloc, buffers, bytes)?;
        self.buffers = chunk.into_buffers();
        self.chunks.push(Vec::from_slice(self.alloc, bytes)?)?;
        Ok(())
    }
}

/// Reads the output, and returns the bytes of its chunks; `buffers` then holds the last chunk's memory. Otherwise
/// the verdict: the output is refused, or can't be read.
pub(crate) fn read_outputs<P: Place>(
    alloc: Global,
    place: &mut P,
    name: &str,
    buffers: &mut Buffers,
) -> Result<Vec<Vec<u8>>, Verdict>
    ensures contents { IfContentsKnown (P.state place.old) (P.state place.new) (OutputRead name.now result) }
    ensures whole { IfOk result (λ chunks. AllWhole chunks.items) }
    ensures counts { CountsOf result (P.state place.old) (P.state place.new) }
    ensures steady { IsTrue (P.state place.old).steady → IsErrOf result Verdict.ReadFault → IfSome (P.state place.old).contents (λ w. file w name.now ≡ None) }
{
    let mut cutter = open(alloc, place, name)?;
    let mut outputs = Outputs::new(alloc);
    'chunks: loop {
        match cutter.next(place) {
            Cut::Chunk => {}
            Cut::End => {
                *buffers = outputs.buffers;
                return Ok(outputs.chunks);
            }
            Cut::Refused(refusal) => {
                return Err(Verdict::Doubted {
                    chunk: refusal.chunk,
                    doubt: Doubt::OutRefused,
                });
            }
            Cut::Failed => return Err(Verdict::ReadFault),
            Cut::Memory => return Err(Verdict::Memory),
        }
        match outputs.keep(cutter.bytes()) {
            Ok(()) => {}
            Err(fault) => return Err(Verdict::of_output(cutter.number(), fault)),
        }
    }
}
