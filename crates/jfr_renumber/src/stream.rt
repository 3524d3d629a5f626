//! The stream that scrubs a recording with new keys.
ghost use Rattle.std.specs.Prelude.{◌≡◌, ◌≢◌, ℕ, List, None};
ghost use Rattle.jfr_outside.specs.World.{IfKnown};
ghost use Rattle.jfr_header.specs.Fronts.{Whole};
ghost use Rattle.jfr_plan.specs.Effects.{without_sink};
ghost use Rattle.jfr_plan.specs.Clauses.{over, Ran, CanCreate};
ghost use Rattle.jfr_chunk.specs.Refusal.{refusal_of};
ghost use Rattle.jfr_output.specs.Recordings.{IsByPlan};
ghost use Rattle.jfr_renumber.specs.Headline.{IsRenumberedOutput, Renumbers};
ghost use Rattle.jfr_renumber.specs.Renumbers.{renumbered, renumbering};

use crate::renumberer::Renumberer;
use jfr_base::{NoMemory, ReadFault};
use jfr_chunk::{Buffers, Chunk};
use jfr_filter::Filter;
use jfr_header::Ending;
use jfr_outside::Place;
use jfr_plan::{Make, make_stream};
use std::alloc::Global;
use std::mem;

/// Makes the output of each chunk with a filter and new keys. `bytes` is the last output, and `buffers` the
/// memory of the last chunk's indexes. The next chunk uses the memory of both again.
#[derive(Drop)]
struct Renumber<'f> {
    filter: &'f Filter,
    buffers: Buffers,
    bytes: Vec<u8>,
}

impl<'f> Make for Renumber<'f> {
    ghost use Rattle.std.specs.Prelude.{⊤};
    ghost use Rattle.jfr_chunk.specs.Refusal.{refusal_of};
    ghost use Rattle.jfr_renumber.specs.Renumbers.{renumbered};

    ghost refusal = { λ _ chunk. refusal_of chunk };

    ghost becomes = { λ s chunk. renumbered s.filter.now chunk };

    ghost holds = { λ _ chunk. ⊤ };

    ghost last = { λ s chunk. s.bytes.items };

    fn make(&mut self, alloc: Global, chunk: &[u8]) -> Result<(), ReadFault> {
        let buffers = mem::replace(&mut self.buffers, Buffers::new(alloc));
        let bytes = mem::replace(&mut self.bytes, Vec::new(alloc));
        let chunk = Chunk::read_in(alloc, buffers, chunk)?;
        let renumberer = Renumberer::prepare_in(alloc, bytes, &chunk, self.filter)?;
        self.bytes = renumberer.into_bytes();
        self.buffers = chunk.into_buffers();
        Ok(())
    }

    fn pieces<'c>(&'c self, alloc: Global, _chunk: &'c [u8]) -> Result<Vec<&'c [u8]>, NoMemory> {
        let mut pieces = Vec::new(alloc);
        pieces.push(self.bytes.as_slice())?;
        Ok(pieces)
    }
}

/// Scrubs a recording and renumbers its constants: opens the input, creates the output, appends the output of
/// each chunk by one call, and finishes the output after the last.
pub fn renumber_stream<P: Place>(
    alloc: Global,
    place: &mut P,
    input: &str,
    output: &str,
    filter: &Filter,
) -> Ending
    // If all chunks were handled, or one was refused, the file holds the output of each chunk before the first
    // refused one: a recording that is cut into exactly these chunks. Each is accepted again, no longer than
    // its scrub, and means the same except for the keys. `each` says this of the output of every accepted
    // chunk, whatever the result is.
    ensures headline { IsByPlan result → IfKnown (P.state place.old).contents (P.state place.new).contents (Renumbers filter.now input.now output.now) }
    ensures each { (c : List ℕ) → Whole c → refusal_of c ≡ None → IsRenumberedOutput filter.now c (renumbered filter.now c) }

    ensures ran { Ran (over (renumbering filter.now output.now) input.now) result
        (without_sink (P.state place.old)) (without_sink (P.state place.new)) }

    // If the output can be created, there is no write fault.
    ensures can_create { CanCreate output.now (P.state place.old)
        → (result ≢ Ending.WriteFault) × ((P.state place.new).write_faults ≡ (P.state place.old).write_faults) }
{
    make_stream(
        alloc,
        place,
        Renumber {
            filter,
            buffers: Buffers::noting_keys(alloc),
            bytes: Vec::new(alloc),
        },
        input,
        output,
    )
}
