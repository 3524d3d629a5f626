//! Reading the lines of a receipt.
ghost use Rattle.std.specs.Prelude.{◌≡◌, ◌≢◌, ◌≤◌, length, option_map, IfOk, IfSome, MatchOption};
ghost use Rattle.jfr_base.specs.Formats.{Got};
ghost use Rattle.jfr_verify.specs.Reading.{each_in, line_in, lines_of_count};

use crate::{Line, Parent};
use jfr_base::{NoMemory, read_var};
use std::alloc::Global;

/// A line, and the offset after it.
#[derive(Clone, Copy)]
pub(crate) struct LineAt {
    pub line: Line,
    pub end: usize,
}

/// The lines of a receipt, and the offset after them.
#[derive(Drop)]
pub(crate) struct LinesRead {
    pub lines: Vec<Line>,
    pub end: usize,
}

/// The lines of a receipt for this number of entries; `None` exactly if the bytes don't start with this
/// number and that number of lines. A wrong number is found before memory is allocated for the lines.
pub(crate) fn read_lines(
    alloc: Global,
    receipt: &[u8],
    count: usize,
) -> Result<Option<LinesRead>, NoMemory>
    ensures { IfOk result (λ o. option_map (λ l. record { value = l.lines.items; place = l.end }) o ≡ lines_of_count receipt.now count) }
{
    let Ok(many) = read_var(receipt, 0) else {
        return Ok(None);
    };
    if many.value != count as u64 {
        return Ok(None);
    }
    read_each(alloc, receipt, many.end, count)
}

/// This many lines from an offset on; `None` exactly if fewer follow.
fn read_each(
    alloc: Global,
    receipt: &[u8],
    at: usize,
    count: usize,
) -> Result<Option<LinesRead>, NoMemory>
    requires { at ≤ length receipt.now }
    ensures { IfOk result (λ o. option_map (λ l. record { value = l.lines.items; place = l.end }) o ≡ each_in receipt.now at count) }
{
    let mut lines = Vec::new(alloc);
    let mut end = at;
    for _ in 0..count {
        match read_line(receipt, end) {
            Some(next) => {
                lines.push(next.line)?;
                end = next.end;
            }
            None => return Ok(None),
        }
    }
    Ok(Some(LinesRead { lines, end }))
}

/// The line at an offset; `None` exactly if no line starts there.
#[tactic(auto, unfolding(jfr_base::specs::Formats::run))]
fn read_line(receipt: &[u8], at: usize) -> Option<LineAt>
    requires { at ≤ length receipt.now }
    ensures exact { option_map (λ l. record { value = l.line; place = l.end }) result ≡ line_in receipt.now at }
    ensures within { IfSome result (λ l. l.end ≤ length receipt.now) }
{
    let Ok(entry) = read_var(receipt, at) else {
        return None;
    };
    let kind = *receipt.get(entry.end)?;
    if kind >= 2 {
        return None;
    }
    let Ok(number) = read_var(receipt, entry.end + 1) else {
        return None;
    };
    let parent = if kind == 0 {
        Parent::OfEvent(number.value as usize)
    } else {
        Parent::OfEntry(number.value as usize)
    };
    Some(LineAt {
        line: Line {
            entry: entry.value as usize,
            parent,
        },
        end: number.end,
    })
}
