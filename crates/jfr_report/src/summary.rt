//! The command that writes the totals of a recording.
ghost use Rattle.std.specs.Prelude.{◌≡◌, IfOk, encode_utf8_all};
ghost use Rattle.jfr_plan.specs.Effects.{outside};
ghost use Rattle.jfr_plan.specs.Clauses.{over, Ran};
ghost use Rattle.jfr_report.specs.Reports.{summing, totals_bytes};

use crate::pages::write_text;
use crate::report::{Report, report_stream};
use jfr_chunk::Chunk;
use jfr_header::Ending;
use jfr_outside::{NoMemory, Place, Sink, Text};
use jfr_show::{Summary, summary_json, summary_text};
use std::alloc::Global;

/// More chunks than a recording can have: each has at least 68 bytes and starts below byte 2^40.
pub(crate) const TOO_MANY: u64 = 17_000_000_000;

/// The report of `summary`: adds up the chunks, and writes the totals at the end.
#[derive(Drop)]
struct Summing {
    summary: Summary,
    /// Whether the totals are written as JSON.
    json: bool,
}

impl Report for Summing {
    ghost use Rattle.std.specs.Prelude.{[], ◌∷◌};
    ghost use Rattle.jfr_show.specs.Totals.{totals_of};

    ghost texts = { λ s number p. [] };

    ghost last = { λ s ps. totals_bytes s.json (totals_of ps) ∷ [] };

    ghost seen = { λ s ps. s.summary ≡ totals_of ps };

    fn chunk<O: Sink>(
        &mut self,
        _alloc: Global,
        _out: &mut O,
        chunk: &Chunk<'_>,
        _number: u64,
    ) -> Result<(), Ending> {
        // No recording gets this far, but the contract of a `Report` has no bound on the number of chunks.
        if self.summary.chunks() >= TOO_MANY {
            return Err(Ending::Memory);
        }
        self.summary.add(chunk)?;
        Ok(())
    }

    fn end<O: Sink>(&self, alloc: Global, out: &mut O) -> Result<(), Ending> {
        let text = totals_text(alloc, &self.summary, self.json)?;
        write_text(out, text.as_str().as_bytes())
    }
}

/// The totals as a line of JSON, or else as text.
fn totals_text(alloc: Global, summary: &Summary, json: bool) -> Result<Text, NoMemory>
    ensures ok { IfOk result (λ text. encode_utf8_all text ≡ totals_bytes json summary.now) }
{
    if json {
        summary_json(alloc, summary)
    } else {
        summary_text(alloc, summary)
    }
}

/// Writes the totals of a recording, at its end, as a line of JSON or as text.
pub fn summary_stream<P: Place, O: Sink>(
    alloc: Global,
    place: &mut P,
    out: &mut O,
    file: &str,
    json: bool,
) -> Ending
    ensures ran { Ran (over (summing json) file.now) result
        (outside (P.state place.old) (O.state out.old)) (outside (P.state place.new) (O.state out.new)) }
{
    let report = Summing {
        summary: Summary::new(alloc),
        json,
    };
    report_stream(alloc, place, out, report, file)
}
