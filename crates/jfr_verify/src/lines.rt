//! The lines of a receipt while they are made.
ghost use Rattle.std.specs.Prelude.{◌≡◌, ◌+◌, ◌^◌, ◌<◌, ◌≤◌, [], ◌∷◌, ◌++◌, false, true, length, map, replicate, slice_set, vec_len, vec_capacity, IfOk};
ghost use Rattle.jfr_worklist.specs.Marks.{marked_at};
ghost use Rattle.jfr_worklist.specs.Worklists.{marked_count};
ghost use Rattle.jfr_verify.specs.Receipts.{new_lines, parent_number};

use crate::compact::CompactLine;
use crate::{Line, Parent};
use jfr_base::NoMemory;
use std::alloc::Global;

/// The lines made so far, at most one for each entry. The memory for all of them is allocated at the start.
#[derive(Drop)]
pub(crate) struct Lines {
    /// For each entry, whether it has a line.
    pub flags: Vec<bool>,
    /// The lines, in the order in which they were made.
    pub items: Vec<CompactLine>,
    /// The parent that the next lines will name.
    pub parent: Parent,
    ghost room: { length flags.items ≤ vec_capacity items },
    ghost each: { vec_len items ≡ marked_count flags.items },
    ghost listed: { flags.items ≡ marked_at (replicate (length flags.items) false) (map (λ line. line.entry) items.items) },
    ghost few: { length flags.items ≤ 2 ^ 31 },
    ghost low: { parent_number parent < 2 ^ 31 },
}

impl Lines {
    /// No lines, for a chunk with this number of entries. Allocates all the memory that `put` needs.
    pub fn new(alloc: Global, count: usize) -> Result<Lines, NoMemory>
        requires { count ≤ 2 ^ 31 }
        ensures flags { IfOk result (λ lines. lines.flags.items ≡ replicate count false) }
        ensures none { IfOk result (λ lines. lines.items.items ≡ []) }
    {
        let items = Vec::with_capacity(alloc, count)?;
        let mut flags = Vec::new(alloc);
        flags.resize(count, false)?;
        Ok(Lines {
            flags,
            items,
            parent: Parent::OfEvent(0),
        })
    }

    /// Adds a line for entry `number` with the current parent, unless the entry has a line.
    pub fn put(&mut self, number: usize)
        requires { number < length self.old.flags.items }
        ensures flags { self.new.flags.items ≡ slice_set self.old.flags.items number true }
        ensures lines { self.new.items.items ≡ self.old.items.items ++ new_lines self.old.flags.items self.old.parent (number ∷ []) }
        ensures parent { self.new.parent ≡ self.old.parent }
    {
        if !self.flags[number] {
            self.flags[number] = true;
            let line = Line {
                entry: number,
                parent: self.parent,
            };
            push_within(&mut self.items, CompactLine::of(line));
        }
    }
}

/// Appends a line to a list that has room for it, so that nothing is allocated.
fn push_within(list: &mut Vec<CompactLine>, line: CompactLine)
    requires { vec_len list.old < vec_capacity list.old }
    ensures items { list.new.items ≡ list.old.items ++ line ∷ [] }
    ensures len { vec_len list.new ≡ vec_len list.old + 1 }
    ensures capacity { vec_capacity list.old ≤ vec_capacity list.new }
{
    match list.push(line) {
        Ok(()) => {}
        Err(_) => unreachable!(),
    }
}
