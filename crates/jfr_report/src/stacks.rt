//! The command that writes the call stacks of a recording's events.
ghost use Rattle.jfr_plan.specs.Effects.{outside};
ghost use Rattle.jfr_plan.specs.Clauses.{over, Ran};
ghost use Rattle.jfr_report.specs.Reports.{folding};

use crate::pages::write_text;
use crate::report::{Report, report_stream};
use crate::summary::TOO_MANY;
use jfr_chunk::Chunk;
use jfr_filter::Filter;
use jfr_header::Ending;
use jfr_outside::{Place, Sink};
use jfr_stacks::Stacks;
use std::alloc::Global;

/// The report of `stacks`: counts the stacks of each chunk's events, and writes them at the end.
#[derive(Drop)]
struct Folding<'f> {
    filter: &'f Filter,
    stacks: Stacks,
}

impl Report for Folding<'_> {
    ghost use Rattle.std.specs.Prelude.{◌≡◌, [], ◌∷◌, length};
    ghost use Rattle.jfr_stacks.specs.Folded.{lines_of, stacks_of};

    ghost texts = { λ s number p. [] };

    ghost last = { λ s ps. lines_of (stacks_of s.filter.now ps) ∷ [] };

    ghost seen = { λ s ps. (s.stacks.chunks ≡ length ps) × (s.stacks.stacks ≡ stacks_of s.filter.now ps) };

    fn chunk<O: Sink>(
        &mut self,
        _alloc: Global,
        _out: &mut O,
        chunk: &Chunk<'_>,
        _number: u64,
    ) -> Result<(), Ending> {
        // No recording gets this far, but the contract of a `Report` has no bound on the number of chunks.
        if self.stacks.chunks() >= TOO_MANY {
            return Err(Ending::Memory);
        }
        self.stacks.add(chunk, self.filter)?;
        Ok(())
    }

    fn end<O: Sink>(&self, alloc: Global, out: &mut O) -> Result<(), Ending> {
        let text = self.stacks.text(alloc)?;
        write_text(out, text.as_str().as_bytes())
    }
}

/// Writes the distinct call stacks of the events of a recording that the filter keeps, each with its number
/// of events, at the recording's end.
pub fn stacks_stream<P: Place, O: Sink>(
    alloc: Global,
    place: &mut P,
    out: &mut O,
    file: &str,
    filter: &Filter,
) -> Ending
    ensures ran { Ran (over (folding filter.now) file.now) result
        (outside (P.state place.old) (O.state out.old)) (outside (P.state place.new) (O.state out.new)) }
{
    let report = Folding {
        filter,
        stacks: Stacks::new(alloc),
    };
    report_stream(alloc, place, out, report, file)
}
