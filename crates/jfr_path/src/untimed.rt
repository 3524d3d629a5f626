//! The classes whose events the time window doesn't limit.
ghost use Rattle.std.specs.Prelude.{◌≡◌, IfOk, is_some, map, replicate};
ghost use Rattle.jfr_filter.specs.Filters.{is_always};
ghost use Rattle.jfr_path.specs.Times.{is_untimed};

use crate::strings::StringVerdicts;
use jfr_base::NoMemory;
use jfr_chunk::Chunk;
use jfr_filter::{Filter, Side};
use std::alloc::Global;

/// For each class, in order, whether the time window doesn't limit its events: no window is given, or a pattern
/// of the option `Always` matches the name of the class.
#[tactic(auto, using(crate::proofs::UntimedLaws::all_untimed, crate::proofs::UntimedLaws::none_untimed, crate::proofs::UntimedLaws::untimed_always))]
pub(crate) fn untimed_classes(
    alloc: Global,
    chunk: &Chunk<'_>,
    filter: &Filter,
) -> Result<Vec<bool>, NoMemory>
    ensures ok { IfOk result (λ untimed. untimed.items ≡ map (is_untimed filter.now) chunk.now.classes) }
{
    let count = chunk.classes().len();
    if !filter.has_window() {
        return same_for_all(alloc, count, true);
    }
    if !has_always(filter) {
        return same_for_all(alloc, count, false);
    }
    untimed_by_strings(alloc, chunk, filter)
}

/// Whether the option `Always` is given.
fn has_always(filter: &Filter) -> bool
    ensures { result ≡ is_some filter.now.always }
{
    filter.has(Side::Always)
}

/// One truth value for each of `count` classes.
fn same_for_all(alloc: Global, count: usize, untimed: bool) -> Result<Vec<bool>, NoMemory>
    ensures ok { IfOk result (λ all. all.items ≡ replicate count untimed) }
{
    let mut all = Vec::new(alloc);
    all.resize(count, untimed)?;
    Ok(all)
}

/// Whether a pattern of the option `Always` matches the name of each class, found with one query of the filter
/// for each string that names a class.
fn untimed_by_strings(
    alloc: Global,
    chunk: &Chunk<'_>,
    filter: &Filter,
) -> Result<Vec<bool>, NoMemory>
    ensures ok { IfOk result (λ untimed. untimed.items ≡ map (λ c. is_always filter.now c.name) chunk.now.classes) }
{
    let classes = chunk.class_names(alloc)?;
    let mut names = StringVerdicts::new(alloc, filter, Side::Always, Side::Always, chunk.strings());
    let mut untimed = Vec::new(alloc);
    for class in &classes {
        let always = names.includes(class.name)?;
        untimed.push(always)?;
    }
    Ok(untimed)
}
