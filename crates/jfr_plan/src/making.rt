//! The command that makes an output from each chunk.
ghost use Rattle.std.specs.Prelude.{◌≡◌, ◌≢◌};
ghost use Rattle.jfr_plan.specs.Effects.{without_sink};
ghost use Rattle.jfr_plan.specs.Makes.{making};
ghost use Rattle.jfr_plan.specs.Clauses.{over, Ran, CanCreate};

use crate::{Discard, Make, Position, Stage, create_output, finish_output, run_stage};
use jfr_header::Ending;
use jfr_outside::{Place, Sink};
use std::alloc::Global;

/// The stage of a `Make`: creates the output, appends what is made from each chunk, and finishes the output.
#[derive(Drop)]
struct Making<'a, M: Make> {
    alloc: Global,
    output: &'a str,
    make: M,
}

impl<M: Make> Stage for Making<'_, M> {
    ghost use Rattle.jfr_plan.specs.Makes.{making};

    ghost rule = { λ s. making s.output.now (M.refusal s.make) (M.becomes s.make) };

    ghost seen = { λ s before. Unit {0} };

    fn opened<P: Place, O: Sink>(&self, place: &mut P, _out: &mut O) -> Result<(), Ending> {
        create_output(place, self.output)
    }

    fn chunk<P: Place, O: Sink>(
        &mut self,
        place: &mut P,
        _out: &mut O,
        chunk: &[u8],
        number: u64,
    ) -> Result<(), Ending> {
        match self.make.make(self.alloc, chunk) {
            Ok(()) => {}
            Err(fault) => return Err(Ending::of_chunk(number, fault)),
        }
        let pieces = self.make.pieces(self.alloc, chunk)?;
        place.append_pieces(&pieces).map_err(Ending::of_write)
    }

    fn end<P: Place, O: Sink>(&self, place: &mut P, _out: &mut O) -> Result<(), Ending> {
        finish_output(place)
    }
}

/// Opens the input, creates the output file, appends what `make` makes from each chunk of the input,
/// and finishes the file.
pub fn make_stream<P: Place, M: Make>(
    alloc: Global,
    place: &mut P,
    make: M,
    input: &str,
    output: &str,
) -> Ending
    ensures ran { Ran (over (making output.now (M.refusal make) (M.becomes make)) input.now) result
        (without_sink (P.state place.old)) (without_sink (P.state place.new)) }

    // If the output can be created, there is no write fault.
    ensures can_create { CanCreate output.now (P.state place.old)
        → (result ≢ Ending.WriteFault) × ((P.state place.new).write_faults ≡ (P.state place.old).write_faults) }
{
    let mut stage = Making {
        alloc,
        output,
        make,
    };
    let mut at = Position::first(alloc);
    run_stage(place, &mut Discard, &mut stage, input, &mut at)
}
