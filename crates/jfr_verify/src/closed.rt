//! Whether the output has every entry that it needs: whether all entries in force to which kept events and
//! marked entries refer are marked.
ghost use Rattle.std.specs.Prelude.{◌≡◌, ◌<◌, ◌&&◌, length};
ghost use Rattle.jfr_worklist.specs.Marks.{is_marked};
ghost use Rattle.jfr_chunk.specs.Parts.{events_of};
ghost use Rattle.jfr_chunk.specs.Reach.{kept_by};
ghost use Rattle.jfr_verify.specs.Checks.{AreClosed};
ghost use Rattle.jfr_verify.specs.Closed.{ChecksMarks, are_marked, entries_closed, events_closed, kept_refs, marked_refs};
ghost use Rattle.jfr_verify.specs.Decided.{Decided};

use jfr_chunk::{Chunk, Kept};
use jfr_pool::Pools;
use jfr_value::{Visit, visit_targets};

/// Marks of entries, and whether all entries that were referred to so far are marked.
#[derive(Drop)]
pub(crate) struct ClosedCheck {
    /// For each entry, whether it is marked.
    pub marks: Vec<bool>,
    /// Whether all entries referred to so far are marked.
    pub closed: bool,
}

impl Visit<Pools> for ClosedCheck {
    ghost use Rattle.std.specs.Prelude.{[], ◌∷◌};
    ghost use Rattle.jfr_pool.specs.Entries.{number_in_force};
    ghost use Rattle.jfr_worklist.specs.Marks.{those};
    ghost use Rattle.jfr_verify.specs.Closed.{ChecksMarks};

    ghost ready = { λ check pools. Unit {0} };

    ghost takes = { λ pools target old new. ChecksMarks (those (number_in_force pools) (target ∷ [])) old new };

    /// Checks that the entry in force for a class and key, if there is one, is marked.
    #[inline]
    fn visit(&mut self, pools: &Pools, class: u64, key: u64) {
        if let Some(number) = pools.entry(class, key) {
            if !is_marked(&self.marks, number) {
                self.closed = false;
            }
        }
    }
}

/// Whether all entries in force to which the kept events and the marked entries refer are marked.
pub(crate) fn is_closed(chunk: &Chunk<'_>, kept: &Kept, marks: Vec<bool>) -> bool
    requires kept { length kept.now ≡ length (events_of chunk.now) }
    requires size { length marks.items ≡ length chunk.now.entries }
    ensures { Decided (AreClosed chunk.now (kept_by chunk.now kept.now) marks.items) result }
{
    if !events_closed(chunk, kept, &marks) {
        return false;
    }
    let mut check = ClosedCheck {
        marks,
        closed: true,
    };
    check_entries(&mut check, chunk);
    check.closed
}

/// Whether all that the kept events refer to is marked.
fn events_closed(chunk: &Chunk<'_>, kept: &Kept, marks: &[bool]) -> bool
    requires { length kept.now ≡ length (events_of chunk.now) }
    ensures { result ≡ events_closed chunk.now marks.now (kept_by chunk.now kept.now) }
{
    if kept.are_all() {
        // Faster than event by event.
        return are_marked(marks, chunk.all_entries());
    }
    each_closed(chunk, kept, marks)
}

/// As `events_closed`, one event after another.
fn each_closed(chunk: &Chunk<'_>, kept: &Kept, marks: &[bool]) -> bool
    requires { length kept.now ≡ length (events_of chunk.now) }
    ensures { result ≡ events_closed chunk.now marks.now (kept_by chunk.now kept.now) }
{
    for number in 0..kept.len() {
        if !event_closed(chunk, kept, marks, number) {
            return false;
        }
    }
    true
}

/// Whether all that event `number` refers to is marked, if the event is kept.
fn event_closed(chunk: &Chunk<'_>, kept: &Kept, marks: &[bool], number: usize) -> bool
    ensures { result ≡ are_marked marks.now (kept_refs chunk.now kept.now number) }
{
    if !kept.is_kept(number) {
        return true;
    }
    match chunk.event_entries(number) {
        Some(entries) => are_marked(marks, entries),
        None => true,
    }
}

/// Checks that all that the marked entries refer to is marked.
fn check_entries(check: &mut ClosedCheck, chunk: &Chunk<'_>)
    ensures { check.new.closed ≡ (check.old.closed && entries_closed chunk.now check.old.marks.items (length chunk.now.entries)) }
{
    for number in 0..chunk.pools().len() {
        check_entry(check, chunk, number);
    }
}

/// Checks that all that entry `number` refers to is marked, if the entry is marked.
fn check_entry(check: &mut ClosedCheck, chunk: &Chunk<'_>, number: usize)
    ensures { ChecksMarks (marked_refs chunk.now check.old.marks.items number) check.old check.new }
{
    if !is_marked(&check.marks, number) {
        return;
    }
    if let Some(node) = chunk.entry_node(number) {
        visit_targets(chunk.classes(), node, check, chunk.pools());
    }
}

/// Whether the entries with these numbers are marked.
fn are_marked(marks: &[bool], numbers: &[u32]) -> bool
    ensures { result ≡ are_marked marks.now numbers.now }
{
    numbers
        .iter()
        .all(|number| is_marked(marks, *number as usize))
}

/// Whether entry `number` is marked.
fn is_marked(marks: &[bool], number: usize) -> bool
    ensures { result ≡ is_marked marks.now number }
{
    match marks.get(number) {
        Some(mark) => *mark,
        None => false,
    }
}
