//! The parents of entries, from the lines of a receipt.
ghost use Rattle.std.specs.Prelude.{◌≡◌, IfOk};
ghost use Rattle.jfr_verify.specs.Parents.{ParentsOf, is_before, is_next};

use crate::{Line, Parent};
use jfr_base::NoMemory;
use std::alloc::Global;

/// The parent of each entry, from the lines of a receipt for this number of entries. `None` exactly if a line
/// is for no entry or for one that has an earlier line, or if its parent is an entry without an earlier line.
pub(crate) fn parents_of(
    alloc: Global,
    lines: &[Line],
    count: usize,
) -> Result<Option<Vec<Parent>>, NoMemory>
    ensures { IfOk result (ParentsOf count lines.now) }
{
    let mut seen = Vec::new(alloc);
    seen.resize(count, false)?;
    let mut parents = Vec::new(alloc);
    parents.resize(count, Parent::OfEvent(0))?;
    for line in lines {
        if !can_follow(&seen, *line) {
            return Ok(None);
        }
        seen[line.entry] = true;
        parents[line.entry] = line.parent;
    }
    Ok(Some(parents))
}

/// Whether a line can follow lines for the entries in `seen`: its entry isn't in `seen`, and its parent is an
/// event or is in `seen`.
fn can_follow(seen: &[bool], line: Line) -> bool
    ensures { result ≡ is_next seen.now line }
{
    match seen.get(line.entry) {
        Some(flag) => !*flag && comes_before(seen, line.parent),
        None => false,
    }
}

/// Whether a parent is an event, or an entry in `seen`.
fn comes_before(seen: &[bool], parent: Parent) -> bool
    ensures { result ≡ is_before seen.now parent }
{
    match parent {
        Parent::OfEvent(_) => true,
        Parent::OfEntry(number) => match seen.get(number) {
            Some(flag) => *flag,
            None => false,
        },
    }
}
