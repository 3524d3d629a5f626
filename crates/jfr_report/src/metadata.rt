//! The command that writes the classes of each chunk.
ghost use Rattle.std.specs.Prelude.{◌≡◌, [], OnOk, encode_utf8_all};
ghost use Rattle.jfr_plan.specs.Effects.{outside};
ghost use Rattle.jfr_plan.specs.Clauses.{over, Ran};
ghost use Rattle.jfr_report.specs.Reports.{classes_bytes, describing};

use crate::pages::write_text;
use crate::report::{Report, report_stream};
use jfr_chunk::Chunk;
use jfr_header::Ending;
use jfr_outside::{NoMemory, Place, Sink};
use jfr_show::{TextBuilder, show_metadata, show_metadata_json};
use std::alloc::Global;

/// The report of `metadata`: the classes of each chunk.
#[derive(Drop)]
struct Describing {
    text: TextBuilder,
    /// Whether the classes are written as JSON.
    json: bool,
}

impl Report for Describing {
    ghost use Rattle.std.specs.Prelude.{[], ◌∷◌};

    ghost texts = { λ s number p. classes_bytes s.json number p ∷ [] };

    ghost last = { λ s ps. [] };

    ghost seen = { λ s ps. Unit {0} };

    fn chunk<O: Sink>(
        &mut self,
        alloc: Global,
        out: &mut O,
        chunk: &Chunk<'_>,
        number: u64,
    ) -> Result<(), Ending> {
        self.text.clear();
        show_classes(alloc, chunk, number, self.json, &mut self.text)?;
        write_text(out, self.text.as_bytes())
    }

    fn end<O: Sink>(&self, _alloc: Global, _out: &mut O) -> Result<(), Ending> {
        Ok(())
    }
}

/// Adds the classes of a chunk to an empty text, as lines of JSON, or else as text.
fn show_classes(
    alloc: Global,
    chunk: &Chunk<'_>,
    number: u64,
    json: bool,
    out: &mut TextBuilder,
) -> Result<(), NoMemory>
    requires empty { out.old ≡ [] }
    ensures ok { OnOk result (encode_utf8_all out.new ≡ classes_bytes json number chunk.now) }
{
    if json {
        show_metadata_json(alloc, chunk, number, out)
    } else {
        show_metadata(chunk, number, out)
    }
}

/// Writes the classes of each chunk of a recording, with the chunk's number, as lines of JSON or as text.
pub fn metadata_stream<P: Place, O: Sink>(
    alloc: Global,
    place: &mut P,
    out: &mut O,
    file: &str,
    json: bool,
) -> Ending
    ensures ran { Ran (over (describing json) file.now) result
        (outside (P.state place.old) (O.state out.old)) (outside (P.state place.new) (O.state out.new)) }
{
    let report = Describing {
        text: TextBuilder::new(alloc),
        json,
    };
    report_stream(alloc, place, out, report, file)
}
