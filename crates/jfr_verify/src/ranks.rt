//! The numbers that kept entries have in a scrub: their ranks among the kept entries.
ghost use Rattle.std.specs.Prelude.{◌≡◌, ◌≤◌, ◌^◌, length, slice_index_or, IfOk};
ghost use Rattle.jfr_verify.specs.Ranks.{AreRanks, ranked, ranked_parent};

use crate::{Line, Parent};
use jfr_base::NoMemory;
use std::alloc::Global;

/// For each number, how many below it are marked.
pub(crate) fn ranks_of(alloc: Global, marks: &[bool]) -> Result<Vec<u32>, NoMemory>
    requires few { length marks.now ≤ 2 ^ 31 }
    ensures { IfOk result (λ ranks. AreRanks marks.now ranks.items) }
{
    let mut ranks = Vec::with_capacity(alloc, marks.len())?;
    let mut rank: u32 = 0;
    for mark in marks {
        ranks.push(rank)?;
        rank += u32::from(*mark);
    }
    Ok(ranks)
}

/// The line, with the number of each entry in it replaced by the entry's rank.
pub(crate) fn ranked(line: Line, ranks: &[u32]) -> Line
    ensures { result ≡ ranked ranks.now line }
{
    Line {
        entry: rank_of(ranks, line.entry),
        parent: ranked_parent(line.parent, ranks),
    }
}

/// The parent. If it is an entry, its number is replaced by its rank.
fn ranked_parent(parent: Parent, ranks: &[u32]) -> Parent
    ensures { result ≡ ranked_parent ranks.now parent }
{
    match parent {
        Parent::OfEvent(number) => Parent::OfEvent(number),
        Parent::OfEntry(number) => Parent::OfEntry(rank_of(ranks, number)),
    }
}

/// The rank of an entry; 0 if it has none.
fn rank_of(ranks: &[u32], entry: usize) -> usize
    ensures { result ≡ slice_index_or ranks.now entry 0 }
{
    ranks.get(entry).copied().unwrap_or(0) as usize
}
