//! Opening a file of chunks.
ghost use Rattle.std.specs.Prelude.{◌≡◌, true, None, IfOk, IfSome, IsErrOf, IsTrue};
ghost use Rattle.jfr_outside.specs.World.{file};
ghost use Rattle.jfr_header.specs.Taking.{IfContentsKnown};
ghost use Rattle.jfr_verify.specs.Faults.{CountsOf};
ghost use Rattle.jfr_verify.specs.Outputs.{OpenedIn};

use crate::Verdict;
use jfr_header::ChunkCutter;
use jfr_outside::Place;
use std::alloc::Global;

/// Opens a file, and returns a cutter that is at its start.
pub(crate) fn open<P: Place>(
    alloc: Global,
    place: &mut P,
    name: &str,
) -> Result<ChunkCutter, Verdict>
    ensures contents { IfContentsKnown (P.state place.old) (P.state place.new) (OpenedIn name.now result) }
    ensures number { IfOk result (λ cutter. cutter.number ≡ 1) }
    ensures live { IfOk result (λ cutter. cutter.live ≡ true) }
    ensures counts { CountsOf result (P.state place.old) (P.state place.new) }
    ensures steady { IsTrue (P.state place.old).steady → IsErrOf result Verdict.ReadFault → IfSome (P.state place.old).contents (λ w. file w name.now ≡ None) }
{
    match place.open_input(name) {
        Ok(()) => Ok(ChunkCutter::new(alloc, 0, 1)),
        Err(fault) => Err(Verdict::of_read(fault)),
    }
}
