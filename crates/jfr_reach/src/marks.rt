//! The entries that the kept events reach.
ghost use Rattle.std.specs.Prelude.{◌≡◌, ◌↔◌, ◌+◌, ◌<◌, ◌≤◌, ℕ, false, length, replicate, IfOk};
ghost use Rattle.jfr_chunk.specs.Parts.{events_of};
ghost use Rattle.jfr_worklist.specs.Marks.{IsMarked, is_marked};
ghost use Rattle.jfr_chunk.specs.Reach.{Reached, kept_by, reached_marks};

use crate::walk::put_reached;
use jfr_base::NoMemory;
use jfr_chunk::{Chunk, Kept};
use jfr_pool::Pools;
use jfr_value::Steps;
use jfr_worklist::Worklist;
use std::alloc::Global;
use std::marker::{Brand, Model};
use std::sync::ledger::{Blank, Ledger};

/// The entries of a chunk that are reached: a flag for each entry, in the order of the file.
#[derive(Drop)]
pub struct Marks {
    list: Worklist,
}

impl Model for Marks {
    ghost use Rattle.std.specs.Prelude.{List, Bool};

    ghost Value = { List Bool };

    ghost view = { λ marks. marks.list.flags.items };
}

impl Marks {
    /// Marks for the entries of a chunk, none of them set. Allocates all the memory that `mark` needs.
    pub fn make(alloc: Global, pools: &Pools) -> Result<Marks, NoMemory>
        ensures { IfOk result (λ marks. marks ≡ replicate (length pools.now) false) }
    {
        let list = Worklist::new(alloc, pools.len())?;
        Ok(Marks { list })
    }

    /// Marks exactly the entries that paths from the kept events reach; references may form cycles. Takes a
    /// step for each reference from a kept event to an entry, and visits each reached entry once, with a step
    /// for each of its leaves. Allocates nothing.
    pub fn mark<L: Ledger>(&mut self, chunk: &Chunk<'_>, kept: &Kept, steps: &mut Steps<L>)
        requires fresh { self.old ≡ replicate (length chunk.now.entries) false }
        requires kept { length kept.now ≡ length (events_of chunk.now) }
        ensures exact { self.new ≡ reached_marks chunk.now (kept_by chunk.now kept.now) }
        ensures size { length self.new ≡ length chunk.now.entries }
        ensures reached { (number : ℕ) → IsMarked self.new number ↔ Reached chunk.now (kept_by chunk.now kept.now) number }
        ensures cost { steps.new ≤ steps.old + length chunk.now.bytes }
    {
        put_reached(&mut self.list, chunk, kept, steps);
    }

    /// The entries that paths from the kept events reach.
    pub fn of(alloc: Global, chunk: &Chunk<'_>, kept: &Kept) -> Result<Marks, NoMemory>
        requires { length kept.now ≡ length (events_of chunk.now) }
        ensures exact { IfOk result (λ marks. marks ≡ reached_marks chunk.now (kept_by chunk.now kept.now)) }
        ensures size { IfOk result (λ marks. length marks ≡ length chunk.now.entries) }
        ensures reached { IfOk result (λ marks. (number : ℕ) → IsMarked marks number ↔ Reached chunk.now (kept_by chunk.now kept.now) number) }
    {
        Marks::with_ledger::<Brand>(alloc, chunk, kept, Blank::new(1))
    }

    /// As `of`, with a ledger for the steps.
    fn with_ledger<L: Ledger>(
        alloc: Global,
        chunk: &Chunk<'_>,
        kept: &Kept,
        blank: Blank,
    ) -> Result<Marks, NoMemory>
        requires kept { length kept.now ≡ length (events_of chunk.now) }
        requires name { blank.name ≡ L.name }
        requires parts { blank.parts ≡ L.parts }
        requires some { 0 < blank.parts }
        ensures exact { IfOk result (λ marks. marks ≡ reached_marks chunk.now (kept_by chunk.now kept.now)) }
        ensures size { IfOk result (λ marks. length marks ≡ length chunk.now.entries) }
        ensures reached { IfOk result (λ marks. (number : ℕ) → IsMarked marks number ↔ Reached chunk.now (kept_by chunk.now kept.now) number) }
    {
        let mut steps: Steps<L> = Steps::new(blank);
        let mut marks = Marks::make(alloc, chunk.pools())?;
        marks.mark(chunk, kept, &mut steps);
        Ok(marks)
    }

    /// Whether the entry with this number is reached.
    pub fn is_reached(&self, at: usize) -> bool
        requires { at < length self.now }
        ensures { result ≡ is_marked self.now at }
    {
        self.list.flags[at]
    }
}
