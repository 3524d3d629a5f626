//! Pages: texts are collected, and written a page at a time. A system call for each event would take longer
//! than making its text.
ghost use Rattle.std.specs.Prelude.{◌≡◌, [], ◌∷◌, ℕ, List, Option, OnOk, encode_utf8_all};
ghost use Rattle.jfr_report.specs.Gathered.{IsGathered, PageLeaves, TextLeaves, TextCounted};

use jfr_header::Ending;
use jfr_outside::Sink;
use jfr_show::TextBuilder;

/// A page is written as soon as it has this many bytes.
const PAGE: usize = 65536;

/// Writes the page if it is full.
pub(crate) fn write_full_page<O: Sink>(out: &mut O, page: &mut TextBuilder) -> Result<(), Ending>
    ensures texts { (all rest : List (List ℕ)) (before : Option (List ℕ))
        → IsGathered all before (O.state out.old).written (encode_utf8_all page.old) rest
        → PageLeaves all before result (encode_utf8_all page.new) rest (O.state out.new).written }
    ensures faults { TextCounted result (O.state out.old).faults (O.state out.new).faults }
{
    if page.as_bytes().len() < PAGE {
        return Ok(());
    }
    write_page(out, page)
}

/// Writes the page if it isn't empty, and starts a new one.
pub(crate) fn write_page<O: Sink>(out: &mut O, page: &mut TextBuilder) -> Result<(), Ending>
    ensures texts { (all rest : List (List ℕ)) (before : Option (List ℕ))
        → IsGathered all before (O.state out.old).written (encode_utf8_all page.old) rest
        → PageLeaves all before result (encode_utf8_all page.new) rest (O.state out.new).written }
    ensures begun { OnOk result (encode_utf8_all page.new ≡ []) }
    ensures faults { TextCounted result (O.state out.old).faults (O.state out.new).faults }
{
    if page.as_bytes().is_empty() {
        return Ok(());
    }
    out.write(page.as_bytes()).map_err(Ending::of_write)?;
    page.clear();
    Ok(())
}

/// Writes one text.
pub(crate) fn write_text<O: Sink>(out: &mut O, text: &[u8]) -> Result<(), Ending>
    ensures texts { TextLeaves (text.now ∷ []) result (O.state out.old).written (O.state out.new).written }
    ensures faults { TextCounted result (O.state out.old).faults (O.state out.new).faults }
{
    out.write(text).map_err(Ending::of_write)
}
