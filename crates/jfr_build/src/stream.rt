//! Building a recording from a text file.
ghost use Rattle.std.specs.Prelude.{◌≡◌, ◌≢◌, ℕ, List, Ok, IfSome};
ghost use Rattle.jfr_outside.specs.Counts.{Rose};
ghost use Rattle.jfr_outside.specs.World.{file};
ghost use Rattle.jfr_header.specs.Taking.{IfContentsKnown};
ghost use Rattle.jfr_plan.specs.Effects.{without_sink};
ghost use Rattle.jfr_plan.specs.Clauses.{CanCreate, CanRead, Ran};
ghost use Rattle.jfr_build.specs.Accepted.{IsBuiltOf};
ghost use Rattle.jfr_build.specs.Builds.{build_of};
ghost use Rattle.jfr_build.specs.Streams.{Builds, IfNotRefused, IfRefused, IsDecided, Refuses, TextBuilt, TextCounts, builds};

use crate::BuildEnding;
use crate::building::{TEXT_LIMIT, build};
use jfr_file::read_file;
use jfr_outside::Place;
use jfr_plan::write_file;
use std::alloc::Global;

/// The chunk of the text in a file.
fn build_file<P: Place>(alloc: Global, place: &mut P, name: &str) -> Result<Vec<u8>, BuildEnding>
    ensures contents { IfContentsKnown (P.state place.old) (P.state place.new) (TextBuilt (P.state place.old).steady name.now result) }
    ensures counts { TextCounts result (P.state place.old) (P.state place.new) }
{
    let text = match read_file(alloc, place, name, TEXT_LIMIT) {
        Ok(text) => text,
        Err(fault) => return Err(BuildEnding::of_file(fault)),
    };
    match build(alloc, &text) {
        Ok(chunk) => Ok(chunk),
        Err(fault) => Err(BuildEnding::of_build(fault)),
    }
}

/// Builds a recording from the text in a file: reads the text whole, and writes its chunk to a new file.
pub fn build_stream<P: Place>(alloc: Global, place: &mut P, text: &str, out: &str) -> BuildEnding
    // If it is Done, the output has the chunk of the text, which is accepted and has exactly the classes, the
    // events and the constants of the lines. `each` says the same of every chunk that is built of any text.
    ensures built { result ≡ BuildEnding.Done → IfContentsKnown (P.state place.old) (P.state place.new) (Builds text.now out.now) }
    ensures each { (bytes chunk : List ℕ) → build_of bytes ≡ Ok chunk → IsBuiltOf bytes chunk }

    // If a text is refused, the line and the reason are the right ones, and nothing is written.
    ensures refused { IfRefused result (λ line reason. Refuses text.now line reason (P.state place.old) (P.state place.new)) }

    // What was done otherwise, and which counts rose.
    ensures ran { IfNotRefused result (λ ending. Ran (builds text.now out.now) ending (without_sink (P.state place.old)) (without_sink (P.state place.new))) }

    // Without a fault the text decides how it ends, unless memory runs out.
    ensures complete { (Rose (P.state place.old).read_faults (P.state place.new).read_faults → ⊥)
        → (Rose (P.state place.old).write_faults (P.state place.new).write_faults → ⊥)
        → IfSome (P.state place.old).contents (λ w. IsDecided (file w text.now) result) }

    // If the text can be read and the output created, no fault occurs.
    ensures can_read { CanRead text.now (P.state place.old)
        → (result ≢ BuildEnding.ReadFault) × ((P.state place.new).read_faults ≡ (P.state place.old).read_faults) }
    ensures can_create { CanCreate out.now (P.state place.old)
        → (result ≢ BuildEnding.WriteFault) × ((P.state place.new).write_faults ≡ (P.state place.old).write_faults) }
{
    match build_file(alloc, place, text) {
        Ok(chunk) => BuildEnding::of_write(write_file(place, out, &chunk)),
        Err(ending) => ending,
    }
}
