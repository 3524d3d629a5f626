//! The walk that starts at the kept events.
ghost use Rattle.std.specs.Prelude.{◌≡◌, ◌+◌, ◌≤◌, false, length, replicate};
ghost use Rattle.jfr_chunk.specs.Parts.{AreParts};
ghost use Rattle.jfr_chunk.specs.Reach.{kept_by, next_entries, reached_marks};
ghost use Rattle.jfr_worklist.specs.Putting.{Puts};
ghost use Rattle.jfr_reach.specs.Walks.{entry_leaves};

use crate::roots::put_roots;
use jfr_chunk::{Chunk, Kept};
use jfr_value::{Steps, visit_and_count};
use jfr_worklist::Worklist;
use std::sync::ledger::Ledger;

/// Marks the entries that the kept events reach: first those to which the events refer; then, for each marked
/// entry in the order of marking, those to which it refers.
pub(crate) fn put_reached<L: Ledger>(
    list: &mut Worklist,
    chunk: &Chunk<'_>,
    kept: &Kept,
    steps: &mut Steps<L>,
)
    requires { list.old.flags.items ≡ replicate (length chunk.now.entries) false }
    ensures exact { list.new.flags.items ≡ reached_marks chunk.now (kept_by chunk.now kept.now) }
    ensures cost { steps.new ≤ steps.old + length chunk.now.bytes }
    ensures parts { AreParts chunk.now }
{
    chunk.parts_are_valid();
    put_roots(list, chunk, kept, steps);
    let mut next: usize = 0;
    while next < list.order.len() {
        let number = list.order[next];
        put_entry(list, chunk, number, steps);
        next += 1;
    }
}

/// Marks the entries in force to which the entry with this number refers, with a step for each leaf.
fn put_entry<L: Ledger>(list: &mut Worklist, chunk: &Chunk<'_>, number: usize, steps: &mut Steps<L>)
    requires size { length list.old.flags.items ≡ length chunk.now.entries }
    ensures puts { Puts (next_entries chunk.now number) list.old list.new }
    ensures cost { steps.new ≡ steps.old + entry_leaves chunk.now number }
{
    if let Some(node) = chunk.entry_node(number) {
        visit_and_count(chunk.classes(), node, list, chunk.pools(), steps);
    }
}
