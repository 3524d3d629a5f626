//! The lines of a text.
ghost use Rattle.std.specs.Prelude.{◌≡◌, ◌<◌, ◌^◌, List, length, MatchResult, Ok};
ghost use Rattle.jfr_build.specs.declared.lines.NumberedLine.{NumberedLine};
ghost use Rattle.jfr_build.specs.Lines.{IsBadLine, any_class, any_region, any_value, has_value, is_allowed, is_class, is_region, line_after, line_of, read_lines};

use crate::line::{BuildLine, read_line};
use crate::pieces::RestOfText;
use crate::{BuildFault, BuildReason};
use std::alloc::Global;

/// A line that isn't empty, and its number in the text, counted from 1.
#[derive(Drop)]
pub struct NumberedLine<'a> {
    pub number: u64,
    pub line: BuildLine<'a>,
}

/// The fewest bytes of a line that isn't empty and has a known form, with its newline: `record 1`.
const MIN_LEN: usize = 9;

/// Whether the line is a `class` or an `event`, both of which describe a class.
pub fn is_class(line: &BuildLine<'_>) -> bool
    ensures { result ≡ is_class line.now }
{
    matches!(line, BuildLine::Class { .. })
}

/// Whether the line is a `constant` or a `record`.
pub fn has_value(line: &BuildLine<'_>) -> bool
    ensures { result ≡ has_value line.now }
{
    matches!(line, BuildLine::Constant { .. } | BuildLine::Record { .. })
}

/// Whether the line is the `region`.
pub fn is_region(line: &BuildLine<'_>) -> bool
    ensures { result ≡ is_region line.now }
{
    matches!(line, BuildLine::Region(_))
}

/// Whether a class was described before, whether a `constant` or a `record` came before, and whether the
/// `region` did.
#[derive(Clone, Copy)]
struct Before {
    class: bool,
    value: bool,
    region: bool,
}

/// Whether the line may come after those before it.
fn is_allowed(line: &BuildLine<'_>, before: Before) -> bool
    ensures { (ls : List NumberedLine) → any_class ls ≡ before.class → any_value ls ≡ before.value → any_region ls ≡ before.region → is_allowed ls line.now ≡ result }
{
    match line {
        BuildLine::Class { .. } => !before.value,
        BuildLine::Field { .. } => before.class && !before.value,
        BuildLine::Region(_) => !before.region,
        _ => true,
    }
}

/// What a line means, if it may come after those before it.
fn allowed_line(bytes: &[u8], before: Before) -> Option<BuildLine<'_>>
    ensures { (ls : List NumberedLine) → any_class ls ≡ before.class → any_value ls ≡ before.value → any_region ls ≡ before.region → line_after ls (line_of bytes.now) ≡ result }
{
    let line = read_line(bytes)?;
    if is_allowed(&line, before) {
        Some(line)
    } else {
        None
    }
}

/// The lines of a text that aren't empty. Refused for the first that isn't UTF-8, has no known form, or isn't
/// allowed after those before it.
pub fn read_lines(alloc: Global, text: &[u8]) -> Result<Vec<NumberedLine<'_>>, BuildFault>
    requires { length text.now < 2 ^ 30 }
    ensures exact { MatchResult result (λ lines. read_lines text.now ≡ Ok lines.items) (IsBadLine (read_lines text.now)) }
{
    let mut lines = Vec::with_capacity(alloc, text.len() / MIN_LEN + 1)?;
    let mut before = Before {
        class: false,
        value: false,
        region: false,
    };
    let mut unread = RestOfText::of(text);
    let mut number: u64 = 0;
    'lines: while let Some(bytes) = unread.next() {
        number += 1;
        if bytes.is_empty() {
            continue;
        }
        let Some(line) = allowed_line(bytes, before) else {
            return Err(BuildFault::Refused {
                line: number,
                reason: BuildReason::LineBad,
            });
        };
        before = Before {
            class: before.class || is_class(&line),
            value: before.value || has_value(&line),
            region: before.region || is_region(&line),
        };
        lines.push(NumberedLine { number, line })?;
    }
    Ok(lines)
}
