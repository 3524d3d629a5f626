//! The command that scrubs a recording.
ghost use Rattle.std.specs.Prelude.{◌≡◌, ◌≢◌, ℕ, List, None};
ghost use Rattle.jfr_plan.specs.Effects.{without_sink};
ghost use Rattle.jfr_plan.specs.Clauses.{over, Ran, CanCreate};
ghost use Rattle.jfr_outside.specs.World.{IfKnown};
ghost use Rattle.jfr_header.specs.Fronts.{Whole};
ghost use Rattle.jfr_chunk.specs.Refusal.{refusal_of};
ghost use Rattle.jfr_output.specs.Recordings.{IsByPlan};
ghost use Rattle.jfr_scrub.specs.Headline.{IsScrubbed, Scrubs};
ghost use Rattle.jfr_scrub.specs.Scrubs.{scrubbed, scrubbing};

use crate::laid::LaidOut;
use crate::ranges::Ranges;
use jfr_base::ReadFault;
use jfr_chunk::{Buffers, Chunk};
use jfr_filter::Filter;
use jfr_header::Ending;
use jfr_outside::{NoMemory, Place};
use jfr_plan::{Make, make_stream};
use std::alloc::Global;
use std::mem;

/// Makes the output of each chunk with a filter. `buffers` holds the last chunk's memory, which the next chunk
/// uses again.
#[derive(Drop)]
struct Scrub<'f> {
    filter: &'f Filter,
    buffers: Buffers,
    ranges: Ranges,
}

impl<'f> Make for Scrub<'f> {
    ghost use Rattle.std.specs.Prelude.{ℕ, List};
    ghost use Rattle.jfr_chunk.specs.Refusal.{refusal_of};
    ghost use Rattle.jfr_scrub.specs.Pieces.{LieIn, joined, laid_in};
    ghost use Rattle.jfr_scrub.specs.Scrubs.{scrubbed};

    ghost refusal = { λ _ chunk. refusal_of chunk };

    ghost becomes = { λ s chunk. scrubbed s.filter.now chunk };

    ghost holds = { λ s chunk. LieIn (laid_in chunk s.ranges) };

    ghost last = { λ s chunk. joined (laid_in chunk s.ranges) };

    fn make(&mut self, alloc: Global, chunk: &[u8]) -> Result<(), ReadFault> {
        let buffers = mem::replace(&mut self.buffers, Buffers::new(alloc));
        let chunk = Chunk::read_in(alloc, buffers, chunk)?;
        let laid = LaidOut::make(alloc, &chunk, self.filter)?;
        self.ranges = laid.into_ranges();
        self.buffers = chunk.into_buffers();
        Ok(())
    }

    fn pieces<'c>(&'c self, alloc: Global, chunk: &'c [u8]) -> Result<Vec<&'c [u8]>, NoMemory> {
        self.ranges.pieces(alloc, chunk)
    }
}

/// Scrubs a recording: opens the input, creates the output, appends the output of each chunk by one call, and
/// finishes the output after the last.
pub fn scrub_stream<P: Place>(
    alloc: Global,
    place: &mut P,
    input: &str,
    output: &str,
    filter: &Filter,
) -> Ending
    // After Done or Refused, the output is cut into exactly these chunks: the scrub of each chunk before the
    // first refused one. Each scrub is accepted again, has exactly the events that the filter keeps and
    // exactly the constants that they reach, and means the same. `each` says this of the scrub of every
    // accepted chunk, whatever the result is.
    ensures headline { IsByPlan result → IfKnown (P.state place.old).contents (P.state place.new).contents (Scrubs filter.now input.now output.now) }
    ensures each { (c : List ℕ) → Whole c → refusal_of c ≡ None → IsScrubbed filter.now c (scrubbed filter.now c) }

    ensures ran { Ran (over (scrubbing filter.now output.now) input.now) result
        (without_sink (P.state place.old)) (without_sink (P.state place.new)) }

    // If the output can be created, there is no write fault.
    ensures can_create { CanCreate output.now (P.state place.old)
        → (result ≢ Ending.WriteFault) × ((P.state place.new).write_faults ≡ (P.state place.old).write_faults) }
{
    make_stream(
        alloc,
        place,
        Scrub {
            filter,
            buffers: Buffers::new(alloc),
            ranges: Ranges::new(alloc),
        },
        input,
        output,
    )
}
