//! A command that writes texts for each chunk, and texts at the end.
ghost use Rattle.std.specs.Prelude.{◌≡◌, ◌++◌, ◌∷◌, ℕ, List, [], OnOk};
ghost use Rattle.jfr_plan.specs.Effects.{outside};
ghost use Rattle.jfr_plan.specs.Clauses.{over, Ran};
ghost use Rattle.jfr_chunk.specs.Parts.{Parts};
ghost use Rattle.jfr_report.specs.Reports.{texting, all_parts};
ghost use Rattle.jfr_report.specs.Gathered.{TextLeaves, TextCounted};

use jfr_chunk::{Buffers, Chunk};
use jfr_header::Ending;
use jfr_outside::{Place, Sink};
use jfr_plan::{Position, Stage, run_stage};
use std::alloc::Global;
use std::mem;

/// What a command writes for each chunk of a recording, and at the end.
///
/// The calls return `Err` only for a write fault or if memory runs out.
pub(crate) trait Report: Drop {
    // The texts of a chunk, given its number; and the texts at the end, given all chunks.
    ghost texts: { Self → ℕ → Parts → List (List ℕ) };

    ghost last: { Self → List Parts → List (List ℕ) };

    // The report's state is that after these chunks.
    ghost seen: { Self → List Parts → Type 0 };

    /// Writes the texts of the next chunk, whose number counts from 1.
    fn chunk<O: Sink>(
        &mut self,
        alloc: Global,
        out: &mut O,
        chunk: &Chunk<'_>,
        number: u64,
    ) -> Result<(), Ending>
        ensures texts { TextLeaves (texts self.old number chunk.now) result (O.state out.old).written (O.state out.new).written }
        ensures faults { TextCounted result (O.state out.old).faults (O.state out.new).faults }
        ensures seen { (ps : List Parts) → seen self.old ps → OnOk result (seen self.new (ps ++ chunk.now ∷ [])) }
        ensures same { (texts self.new ≡ texts self.old) × (last self.new ≡ last self.old) };

    /// Writes the last texts.
    fn end<O: Sink>(&self, alloc: Global, out: &mut O) -> Result<(), Ending>
        ensures texts { (ps : List Parts) → seen self.now ps → TextLeaves (last self.now ps) result (O.state out.old).written (O.state out.new).written }
        ensures faults { TextCounted result (O.state out.old).faults (O.state out.new).faults };
}

/// The stage of a report. `buffers` holds the last chunk's memory, which the next chunk uses again.
#[derive(Drop)]
struct Reporting<R: Report> {
    alloc: Global,
    buffers: Buffers,
    report: R,
}

impl<R: Report> Stage for Reporting<R> {
    ghost use Rattle.jfr_report.specs.Reports.{texting, all_parts};

    ghost rule = { λ s. texting (R.texts s.report) (λ before. R.last s.report (all_parts before)) };

    ghost seen = { λ s before. R.seen s.report (all_parts before) };

    fn opened<P: Place, O: Sink>(&self, _place: &mut P, _out: &mut O) -> Result<(), Ending> {
        Ok(())
    }

    fn chunk<P: Place, O: Sink>(
        &mut self,
        _place: &mut P,
        out: &mut O,
        chunk: &[u8],
        number: u64,
    ) -> Result<(), Ending> {
        let buffers = mem::replace(&mut self.buffers, Buffers::new(self.alloc));
        let chunk = match Chunk::read_in(self.alloc, buffers, chunk) {
            Ok(chunk) => chunk,
            Err(fault) => return Err(Ending::of_chunk(number, fault)),
        };
        let written = self.report.chunk(self.alloc, out, &chunk, number);
        self.buffers = chunk.into_buffers();
        written
    }

    fn end<P: Place, O: Sink>(&self, _place: &mut P, out: &mut O) -> Result<(), Ending> {
        self.report.end(self.alloc, out)
    }
}

/// Reads a recording to its end, and writes the texts of the report.
pub(crate) fn report_stream<P: Place, O: Sink, R: Report>(
    alloc: Global,
    place: &mut P,
    out: &mut O,
    report: R,
    file: &str,
) -> Ending
    requires new { R.seen report [] }

    ensures ran { Ran (over (texting (R.texts report) (λ before. R.last report (all_parts before))) file.now) result
        (outside (P.state place.old) (O.state out.old)) (outside (P.state place.new) (O.state out.new)) }
{
    let mut stage = Reporting {
        alloc,
        buffers: Buffers::new(alloc),
        report,
    };
    let mut at = Position::first(alloc);
    run_stage(place, out, &mut stage, file, &mut at)
}
