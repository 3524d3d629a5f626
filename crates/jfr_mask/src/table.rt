//! The table of a masked recording: which text each pseudonym stands for.
ghost use Rattle.std.specs.Prelude.{◌≡◌, ◌∷◌, ◌++◌, [], ℕ, List, map, OnOk, Some};
ghost use Rattle.std.specs.Str.{chars, encode_utf8_all};
ghost use Rattle.jfr_plan.specs.Effects.{Append};
ghost use Rattle.jfr_plan.specs.Parts.{IsPlaceAfter, PlaceCounts};
ghost use Rattle.jfr_mask.specs.Recordings.{table_effects, table_line, table_lines};

use crate::Dictionary;
use jfr_base::NoMemory;
use jfr_header::Ending;
use jfr_outside::Place;
use jfr_plan::{append_output, create_output, finish_output};
use jfr_show::{TextBuilder, push_quoted};
use std::alloc::Global;

/// Writes a file with a line for each text of the dictionary, in the order of their numbers: the pseudonym, a space, and
/// the text between quotes.
pub(crate) fn write_table<P: Place>(
    alloc: Global,
    place: &mut P,
    name: &str,
    dictionary: &Dictionary,
) -> Result<(), Ending>
    ensures contents { IsPlaceAfter (table_effects (Some name.now) dictionary.now) result (P.state place.old) (P.state place.new) }
    ensures counts { PlaceCounts result (P.state place.old) (P.state place.new) }
{
    create_output(place, name)?;
    append_lines(alloc, place, dictionary)?;
    finish_output(place)
}

/// Appends the lines.
fn append_lines<P: Place>(
    alloc: Global,
    place: &mut P,
    dictionary: &Dictionary,
) -> Result<(), Ending>
    ensures contents { IsPlaceAfter (map (λ line. Append line) (table_lines 1 dictionary.now)) result (P.state place.old) (P.state place.new) }
    ensures counts { PlaceCounts result (P.state place.old) (P.state place.new) }
{
    let mut line = TextBuilder::new(alloc);
    for at in 0..dictionary.len() {
        put_line(&mut line, at as u64 + 1, dictionary.known(at))?;
        append_output(place, line.as_bytes())?;
    }
    Ok(())
}

/// Makes a line, in place of the one before.
fn put_line(line: &mut TextBuilder, number: u64, text: &str) -> Result<(), NoMemory>
    ensures ok { OnOk result (encode_utf8_all line.new ≡ table_line number (chars text.now)) }
{
    line.clear();
    line.push_ascii("masked-")?;
    line.push_number(number)?;
    line.push_ascii(" ")?;
    push_quoted(text, line)?;
    line.push_ascii("\n")
}
