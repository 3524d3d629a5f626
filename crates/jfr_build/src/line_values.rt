//! The values of constants and events, and the offset of the region.
ghost use Rattle.std.specs.Prelude.{◌≡◌, [], IfErr, IfOk, IsSome, OnOk, None, Some, option_map, if◌then◌else◌};
ghost use Rattle.jfr_layout.specs.Classes.{IsFieldLayout};
ghost use Rattle.jfr_value.specs.Values.{bytes_of};
ghost use Rattle.jfr_build.specs.LineValues.{IsBadValue, all_taken, first_bad_value, is_bad_value, line_value};
ghost use Rattle.jfr_build.specs.Taking.{value_taken};

use crate::line::BuildLine;
use crate::lines::{NumberedLine, has_value};
use crate::pieces::RestOfLine;
use crate::region::is_wide_region;
use crate::value::push_value;
use crate::value_bytes::{ValueBytes, ValueFault};
use crate::{BuildFault, BuildReason};
use jfr_base::NoMemory;
use jfr_layout::{Classes, FieldLayout, Shape};
use jfr_value::layout_of;
use std::alloc::Global;

/// Checks the values of all constants and events, and the offset of the region. Refused for the first line that
/// is a constant of an unknown class, is a record of a class that isn't an event class, has words that aren't
/// those of one value, or is a region whose offset doesn't fit in 32 bits. The bytes of the values aren't kept:
/// they are made again when the chunk is written.
pub fn check_values(
    alloc: Global,
    classes: &Classes,
    lines: &[NumberedLine<'_>],
) -> Result<(), BuildFault>
    ensures ok { OnOk result (first_bad_value classes.now lines.now ≡ None) }
    ensures refused { IfErr result (IsBadValue (first_bad_value classes.now lines.now)) }
{
    let mut out = ValueBytes::new(alloc);
    for line in lines {
        if is_bad_value(classes, &line.line, &mut out)? {
            return Err(BuildFault::Refused {
                line: line.number,
                reason: BuildReason::ValueBad,
            });
        }
    }
    Ok(())
}

/// Whether the line is a constant or an event, but its words aren't those of one value of its class, or a region
/// whose offset doesn't fit in 32 bits.
fn is_bad_value(
    classes: &Classes,
    line: &BuildLine<'_>,
    out: &mut ValueBytes,
) -> Result<bool, NoMemory>
    ensures ok { IfOk result (λ bad. bad ≡ is_bad_value classes.now line.now) }
{
    if !has_value(line) {
        return Ok(is_wide_region(line));
    }
    let good = line_value(classes, line, out)?;
    Ok(!good)
}

/// Whether the line has a value. If it has one, the value's bytes replace those of `out`.
pub fn line_value(
    classes: &Classes,
    line: &BuildLine<'_>,
    out: &mut ValueBytes,
) -> Result<bool, NoMemory>
    ensures ok { IfOk result (λ good. option_map bytes_of (line_value classes.now line.now) ≡ (if good then Some out.new else None)) }
{
    match line {
        BuildLine::Constant { class, words, .. } => {
            let Some(_) = classes.find(*class) else {
                return Ok(false);
            };
            let layout = layout_of(classes, Shape::inline(*class));
            spelled_value(classes, &layout, words.again(), out)
        }
        BuildLine::Record { class, words } => match classes.event_layout(*class) {
            Some(layout) => spelled_value(classes, &layout, words.again(), out),
            None => Ok(false),
        },
        _ => Ok(false),
    }
}

/// The line has a value, as is known. Its bytes replace those of `out`.
pub fn known_value(
    classes: &Classes,
    line: &BuildLine<'_>,
    out: &mut ValueBytes,
) -> Result<(), NoMemory>
    requires known { IsSome (line_value classes.now line.now) }
    ensures ok { OnOk result (option_map bytes_of (line_value classes.now line.now) ≡ Some out.new) }
{
    if !line_value(classes, line, out)? {
        unreachable!();
    }
    Ok(())
}

/// Whether the words are those of one value with this layout. If so, its bytes replace those of `out`.
fn spelled_value(
    classes: &Classes,
    layout: &FieldLayout,
    mut words: RestOfLine<'_>,
    out: &mut ValueBytes,
) -> Result<bool, NoMemory>
    requires layout { IsFieldLayout classes.now layout.now }
    ensures ok { IfOk result (λ good. option_map bytes_of (all_taken (value_taken classes.now layout.now.shape words.entry)) ≡ (if good then Some out.new else None)) }
{
    out.clear();
    match push_value(classes, layout, &mut words, out) {
        Ok(()) => Ok(words.end().is_some()),
        Err(ValueFault::Bad) => Ok(false),
        Err(ValueFault::Memory) => Err(NoMemory),
    }
}
