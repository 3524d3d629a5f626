//! Making an output from each chunk.
ghost use Rattle.std.specs.Prelude.{◌≡◌, ℕ, List, Option, None, OnOk, IfOk, IfErr};
ghost use Rattle.jfr_base.specs.declared.flaw.Flaw.{Flaw};
ghost use Rattle.jfr_header.specs.Fronts.{Whole};
ghost use Rattle.jfr_outside.specs.World.{bytes_in};
ghost use Rattle.jfr_plan.specs.Makes.{IsFlawOf};

use jfr_base::ReadFault;
use jfr_outside::NoMemory;
use std::alloc::Global;

/// A way to make an output from each chunk, such as its scrub or its receipt, or to refuse the chunk.
pub trait Make: Drop {
    // The flaw for which a chunk is refused, if it is.
    ghost refusal: { Self → List ℕ → Option Flaw };

    // The output of a chunk that isn't refused.
    ghost becomes: { Self → List ℕ → List ℕ };

    // The last output was made from this chunk, so `pieces` can return it.
    ghost holds: { Self → List ℕ → Type 0 };

    // The last output, given the chunk that it was made from.
    ghost last: { Self → List ℕ → List ℕ };

    /// Makes the output of a whole chunk.
    fn make(&mut self, alloc: Global, chunk: &[u8]) -> Result<(), ReadFault>
        requires { Whole chunk.now }
        ensures ok { OnOk result (refusal self.old chunk.now ≡ None) }
        ensures held { OnOk result (holds self.new chunk.now) }
        ensures made { OnOk result (last self.new chunk.now ≡ becomes self.old chunk.now) }
        ensures refused { IfErr result (IsFlawOf (refusal self.old chunk.now)) }
        ensures same { (refusal self.new ≡ refusal self.old) × (becomes self.new ≡ becomes self.old) };

    /// The pieces of the last output. `chunk` must be the chunk that it was made from.
    fn pieces<'c>(&'c self, alloc: Global, chunk: &'c [u8]) -> Result<Vec<&'c [u8]>, NoMemory>
        requires { holds self.now chunk.now }
        ensures { IfOk result (λ pieces. bytes_in pieces.items ≡ last self.now chunk.now) };
}
