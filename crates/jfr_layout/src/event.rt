//! The indices of the event classes.
ghost use Rattle.std.specs.Prelude.{◌≡◌, length, IfOk};
ghost use Rattle.jfr_layout.specs.Events.{AreEventIndices, event_index};

use crate::resolved::Resolved;
use jfr_base::NoMemory;
use std::alloc::Global;

/// Records of types up to this one are metadata and checkpoints, not events.
const LAST_OWN_TYPE: u64 = 1;

/// The index of the class with this id, if records of this type are events.
pub(crate) fn event_index(resolved: &Resolved, id: u64) -> Option<usize>
    ensures { result ≡ event_index resolved.now id }
{
    if id <= LAST_OWN_TYPE {
        return None;
    }
    let index = resolved.index_of(id)?;
    if resolved.extends_event(index) {
        Some(index)
    } else {
        None
    }
}

/// For each id below `ids`, the index of its event class; `None` if records of this type aren't events.
pub(crate) fn event_indices(
    alloc: Global,
    resolved: &Resolved,
    ids: usize,
) -> Result<Vec<Option<usize>>, NoMemory>
    ensures exact { IfOk result (λ indices. AreEventIndices resolved.now indices.items) }
    ensures count { IfOk result (λ indices. length indices.items ≡ ids) }
{
    let mut indices = Vec::with_capacity(alloc, ids)?;
    for id in 0..ids {
        indices.push(event_index(resolved, id as u64))?;
    }
    Ok(indices)
}
