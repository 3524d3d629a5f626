//! The command that shows the events of a recording.
ghost use Rattle.std.specs.Prelude.{◌≡◌, ◌≤◌, ◌<◌, ◌+◌, ◌∷◌, ◌++◌, ℕ, List, Option, IfOk, OnOk, Some, length, drop, slice_get, encode_utf8_all};
ghost use Rattle.jfr_plan.specs.Effects.{outside};
ghost use Rattle.jfr_plan.specs.Clauses.{over, Ran};
ghost use Rattle.jfr_value.specs.Nodes.{node_of};
ghost use Rattle.jfr_chunk.specs.Parts.{events_of};
ghost use Rattle.jfr_chunk.specs.Indexed.{event_at};
ghost use Rattle.jfr_chunk.specs.Reach.{kept_by, marked};
ghost use Rattle.jfr_report.specs.Reports.{printing, chunk_of, event_bytes, events_bytes, text_by, writer_of};
ghost use Rattle.jfr_report.specs.Gathered.{IsGathered, PageLeaves, TextLeaves, TextCounted};

use crate::pages::{write_full_page, write_page};
use crate::report::{Report, report_stream};
use jfr_chunk::{Chunk, Event, Kept};
use jfr_filter::Filter;
use jfr_header::Ending;
use jfr_outside::{NoMemory, Place, Sink};
use jfr_path::choose;
use jfr_show::{JsonWriter, TextBuilder, TextWriter};
use std::alloc::Global;

/// How events are shown: the depth to which references are followed, and whether as lines of JSON.
#[derive(Clone, Copy)]
pub(crate) struct Style {
    pub(crate) depth: u8,
    pub(crate) json: bool,
    ghost shallow: { depth ≤ 8 },
}

/// A writer of the events of a chunk: as text, or as lines of JSON.
#[derive(Drop)]
pub(crate) enum Writer<'c, 'a> {
    Text(TextWriter<'c, 'a>),
    Json(JsonWriter<'c, 'a>),
}

impl Writer<'_, '_> {
    /// Adds an event of the writer's chunk to a page.
    fn show(&mut self, event: &Event<'_>, depth: u8, page: &mut TextBuilder) -> Result<(), NoMemory>
        requires event { slice_get (events_of (chunk_of self.old)) event.now.number ≡ Some (event_at event.now) }
        requires depth { depth ≤ 8 }
        ensures ok { OnOk result (page.new ≡ page.old ++ text_by self.old depth (node_of event.now.node)) }
        ensures same { self.new ≡ self.old }
    {
        match self {
            Writer::Text(writer) => writer.show(event, depth, page),
            Writer::Json(writer) => writer.show(event, depth, page),
        }
    }
}

/// The report of `print`: the events that a filter keeps.
#[derive(Drop)]
struct Printing<'f> {
    filter: &'f Filter,
    style: Style,
    page: TextBuilder,
}

impl Report for Printing<'_> {
    ghost use Rattle.std.specs.Prelude.{[]};
    ghost use Rattle.jfr_chunk.specs.Chosen.{kept_of};
    ghost use Rattle.jfr_report.specs.Reports.{events_bytes};

    ghost texts = { λ s number p. events_bytes s.style.json s.style.depth p (kept_of s.filter.now p) };

    ghost last = { λ s ps. [] };

    ghost seen = { λ s ps. Unit {0} };

    fn chunk<O: Sink>(
        &mut self,
        alloc: Global,
        out: &mut O,
        chunk: &Chunk<'_>,
        _number: u64,
    ) -> Result<(), Ending> {
        let kept = choose(alloc, chunk, self.filter)?;
        let selection = Selection {
            chunk,
            kept: &kept,
            style: self.style,
        };
        print_kept(alloc, out, &mut self.page, &selection)
    }

    fn end<O: Sink>(&self, _alloc: Global, _out: &mut O) -> Result<(), Ending> {
        Ok(())
    }
}

/// The kept events of a chunk, and how they are shown.
#[derive(Drop)]
struct Selection<'s, 'a> {
    chunk: &'s Chunk<'a>,
    kept: &'s Kept,
    style: Style,
}

/// Writes the kept events of a chunk. Makes the writer for them.
fn print_kept<O: Sink>(
    alloc: Global,
    out: &mut O,
    page: &mut TextBuilder,
    selection: &Selection<'_, '_>,
) -> Result<(), Ending>
    ensures texts { TextLeaves (events_bytes selection.now.style.json selection.now.style.depth selection.now.chunk.now (kept_by selection.now.chunk.now selection.now.kept.now)) result (O.state out.old).written (O.state out.new).written }
    ensures faults { TextCounted result (O.state out.old).faults (O.state out.new).faults }
{
    let mut writer = writer_of(alloc, selection.chunk, selection.style.json)?;
    print_events(out, page, selection, &mut writer)
}

/// Writes the kept events of a chunk, page by page.
fn print_events<O: Sink>(
    out: &mut O,
    page: &mut TextBuilder,
    selection: &Selection<'_, '_>,
    writer: &mut Writer<'_, '_>,
) -> Result<(), Ending>
    requires writer { writer.old ≡ writer_of selection.now.style.json selection.now.chunk.now }
    ensures texts { TextLeaves (events_bytes selection.now.style.json selection.now.style.depth selection.now.chunk.now (kept_by selection.now.chunk.now selection.now.kept.now)) result (O.state out.old).written (O.state out.new).written }
    ensures faults { TextCounted result (O.state out.old).faults (O.state out.new).faults }
{
    page.clear();
    for number in 0..selection.chunk.event_count() {
        print_if_kept(out, page, selection, writer, number)?;
    }
    write_page(out, page)
}

/// A writer of the events of a chunk: as JSON, or else as text.
fn writer_of<'c, 'a>(
    alloc: Global,
    chunk: &'c Chunk<'a>,
    json: bool,
) -> Result<Writer<'c, 'a>, NoMemory>
    ensures ok { IfOk result (λ writer. writer ≡ writer_of json chunk.now) }
{
    if json {
        Ok(Writer::Json(JsonWriter::new(alloc, chunk)?))
    } else {
        Ok(Writer::Text(TextWriter::new(alloc, chunk)?))
    }
}

/// Adds the event with this number to the page if it is kept, and writes the page if it is full.
fn print_if_kept<O: Sink>(
    out: &mut O,
    page: &mut TextBuilder,
    selection: &Selection<'_, '_>,
    writer: &mut Writer<'_, '_>,
    number: usize,
) -> Result<(), Ending>
    requires writer { writer.old ≡ writer_of selection.now.style.json selection.now.chunk.now }
    requires number { number < length (events_of selection.now.chunk.now) }
    ensures texts { (all : List (List ℕ)) (before : Option (List ℕ))
        → IsGathered all before (O.state out.old).written (encode_utf8_all page.old)
        (events_bytes selection.now.style.json selection.now.style.depth selection.now.chunk.now (marked (drop number selection.now.kept.now) (drop number (events_of selection.now.chunk.now))))
        → PageLeaves all before result (encode_utf8_all page.new)
        (events_bytes selection.now.style.json selection.now.style.depth selection.now.chunk.now (marked (drop (number + 1) selection.now.kept.now) (drop (number + 1) (events_of selection.now.chunk.now)))) (O.state out.new).written }
    ensures faults { TextCounted result (O.state out.old).faults (O.state out.new).faults }
    ensures same { writer.new ≡ writer.old }
{
    if !selection.kept.is_kept(number) {
        return Ok(());
    }
    let event = selection.chunk.known_event(number);
    print_event(out, page, selection, &event, writer)
}

/// Adds an event to the page, and writes the page if it is full.
fn print_event<O: Sink>(
    out: &mut O,
    page: &mut TextBuilder,
    selection: &Selection<'_, '_>,
    event: &Event<'_>,
    writer: &mut Writer<'_, '_>,
) -> Result<(), Ending>
    requires writer { writer.old ≡ writer_of selection.now.style.json selection.now.chunk.now }
    requires event { slice_get (events_of selection.now.chunk.now) event.now.number ≡ Some (event_at event.now) }
    ensures texts { (all rest : List (List ℕ)) (before : Option (List ℕ))
        → IsGathered all before (O.state out.old).written (encode_utf8_all page.old) (event_bytes selection.now.style.json selection.now.style.depth selection.now.chunk.now (node_of event.now.node) ∷ rest)
        → PageLeaves all before result (encode_utf8_all page.new) rest (O.state out.new).written }
    ensures faults { TextCounted result (O.state out.old).faults (O.state out.new).faults }
    ensures same { writer.new ≡ writer.old }
{
    writer.show(event, selection.style.depth, page)?;
    write_full_page(out, page)
}

/// Writes the events of a recording that the filter keeps, as text or as lines of JSON. References are
/// followed to this depth.
pub fn print_stream<P: Place, O: Sink>(
    alloc: Global,
    place: &mut P,
    out: &mut O,
    file: &str,
    filter: &Filter,
    depth: u8,
    json: bool,
) -> Ending
    requires depth { depth ≤ 8 }

    ensures ran { Ran (over (printing filter.now depth json) file.now) result
        (outside (P.state place.old) (O.state out.old)) (outside (P.state place.new) (O.state out.new)) }
{
    let report = Printing {
        filter,
        style: Style { depth, json },
        page: TextBuilder::new(alloc),
    };
    report_stream(alloc, place, out, report, file)
}
