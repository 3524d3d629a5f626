//! The effects on the place for a chunk.
ghost use Rattle.std.specs.Prelude.{◌≡◌, ◌<◌, ◌+◌, ◌≤◌, ◌∷◌, [], ◌++◌, OnOk, true};
ghost use Rattle.jfr_outside.specs.World.{SinkState};
ghost use Rattle.jfr_plan.specs.Effects.{outside, Create};
ghost use Rattle.jfr_plan.specs.Rules.{Parts};
ghost use Rattle.jfr_plan.specs.Parts.{IsAfterPart, PartTallied, IsPlaceAfter, PlaceCounts};
ghost use Rattle.jfr_split.specs.Parts.{IsUsable, folder_of, begins};
ghost use Rattle.jfr_split.specs.Names.{part_name};
ghost use Rattle.jfr_split.specs.Splits.{closing, asks_new, asks_part};

use crate::SplitRule;
use crate::name::part_string;
use crate::part::{Part, folder_name, starts_part};
use jfr_header::Ending;
use jfr_outside::Place;
use jfr_plan::{append_output, create_output, finish_output};
use std::alloc::Global;

/// What stays the same while a recording is split: its name, and the rule.
#[derive(Clone, Copy)]
pub struct Split<'a> {
    pub alloc: Global,
    pub file: &'a str,
    pub rule: &'a SplitRule,
}

/// Finishes the last part, if there is one.
pub fn close_part<P: Place>(place: &mut P, part: &Part) -> Result<(), Ending>
    ensures contents { IsPlaceAfter (closing part.now) result (P.state place.old) (P.state place.new) }
    ensures counts { PlaceCounts result (P.state place.old) (P.state place.new) }
{
    if part.number == 0 {
        return Ok(());
    }
    finish_output(place)
}

/// Finishes the last part and creates the next one.
fn open_part<P: Place>(split: Split<'_>, place: &mut P, part: &Part) -> Result<(), Ending>
    requires { part.now.number + 1 ≤ 999999 }
    ensures contents { IsPlaceAfter
        (closing part.now ++ Create (part_name (folder_of split.entry.rule.now) split.entry.file.now (part.now.number + 1)) ∷ [])
        result (P.state place.old) (P.state place.new) }
    ensures counts { PlaceCounts result (P.state place.old) (P.state place.new) }
{
    close_part(place, part)?;
    let folder = folder_name(split.rule);
    let name = part_string(split.alloc, folder, split.file, part.number + 1)?;
    create_output(place, name.as_str())
}

/// Starts a new part with the chunk, if there may be one more.
fn begin_part<P: Place>(
    split: Split<'_>,
    place: &mut P,
    part: &Part,
    chunk: &[u8],
) -> Result<(), Ending>
    requires { IsUsable split.rule.now }
    ensures room { OnOk result (part.now.number < split.entry.rule.now.max_parts) }
    ensures contents { (sink : SinkState) → IsAfterPart
        (asks_new split.entry.rule.now (part_name (folder_of split.entry.rule.now) split.entry.file.now) part.now chunk.now) result
        (outside (P.state place.old) sink) (outside (P.state place.new) sink) }
    ensures counts { (sink : SinkState) → PartTallied Parts result
        (outside (P.state place.old) sink) (outside (P.state place.new) sink) }
{
    if split.rule.max_parts <= part.number {
        return Err(Ending::TooManyParts);
    }
    open_part(split, place, part)?;
    append_output(place, chunk)
}

/// Appends the chunk to its part, which is created first if the chunk starts it.
pub fn write_chunk<P: Place>(
    split: Split<'_>,
    place: &mut P,
    part: &Part,
    chunk: &[u8],
) -> Result<(), Ending>
    requires { IsUsable split.rule.now }
    ensures room { OnOk result (begins split.entry.rule.now part.now chunk.now ≡ true → part.now.number < split.entry.rule.now.max_parts) }
    ensures contents { (sink : SinkState) → IsAfterPart
        (asks_part split.entry.rule.now (part_name (folder_of split.entry.rule.now) split.entry.file.now) (begins split.entry.rule.now part.now chunk.now) part.now chunk.now) result
        (outside (P.state place.old) sink) (outside (P.state place.new) sink) }
    ensures counts { (sink : SinkState) → PartTallied Parts result
        (outside (P.state place.old) sink) (outside (P.state place.new) sink) }
{
    if starts_part(split.rule, part, chunk) {
        return begin_part(split, place, part, chunk);
    }
    append_output(place, chunk)
}
