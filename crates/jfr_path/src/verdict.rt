//! A filter's verdict on all events of a class.
ghost use Rattle.std.specs.Prelude.{◌≡◌, ◌||◌, IfOk, codes, is_some};
ghost use Rattle.std.specs.List.{AllZip, list_all};
ghost use Rattle.jfr_filter.specs.Filters.{Given};
ghost use Rattle.jfr_layout.specs.Classes.{field_number};
ghost use Rattle.jfr_path.specs.Strings.{is_allowed};
ghost use Rattle.jfr_path.specs.Times.{is_untimed};
ghost use Rattle.jfr_path.specs.Verdicts.{AllowsThreads, AllowsTimes, IsVerdict, is_kept};

use crate::allowed::allowed_classes;
use crate::times::Times;
use crate::untimed::untimed_classes;
use jfr_base::NoMemory;
use jfr_chunk::Chunk;
use jfr_filter::{Filter, Side};
use jfr_layout::ClassInfo;
use std::alloc::Global;

/// A filter's verdict on the events of a class.
#[derive(Clone, Copy, Debug)]
pub(crate) enum ClassVerdict {
    /// All of them are kept.
    Kept,
    /// None of them is kept.
    Dropped,
    /// Those are kept that are in the time window and whose thread the filter allows, as far as these are asked.
    Asked {
        /// The fields with the times of an event, if the window is asked.
        times: Option<Times>,
        /// The number of the field that leads to the thread, if the thread is asked.
        thread: Option<usize>,
    },
}

/// The verdict on each class, in the order of the classes.
pub(crate) fn verdicts_on(
    alloc: Global,
    chunk: &Chunk<'_>,
    filter: &Filter,
) -> Result<Vec<ClassVerdict>, NoMemory>
    ensures ok { IfOk result (λ verdicts. AllZip (IsVerdict filter.now) chunk.now.classes verdicts.items) }
{
    let allowed = allowed_classes(alloc, chunk, filter)?;
    let untimed = untimed_classes(alloc, chunk, filter)?;
    let mut verdicts = Vec::new(alloc);
    for (index, class) in chunk.classes().as_slice().iter().enumerate() {
        verdicts.push(verdict_on(class, allowed[index], untimed[index], filter))?;
    }
    Ok(verdicts)
}

/// Whether the events of every class are kept.
pub(crate) fn are_all_kept(verdicts: &[ClassVerdict]) -> bool
    ensures { result ≡ list_all is_kept verdicts.now }
{
    verdicts
        .iter()
        .all(|verdict| matches!(verdict, ClassVerdict::Kept))
}

/// The verdict on a class. `allowed` is whether the options on events and on categories allow it, and `untimed`
/// whether the time window doesn't limit its events.
#[tactic(auto, using(crate::proofs::VerdictLaws::dropped, crate::proofs::VerdictLaws::dropped_by_time, crate::proofs::VerdictLaws::dropped_by_thread, crate::proofs::VerdictLaws::asked, crate::proofs::VerdictLaws::kept))]
fn verdict_on(class: &ClassInfo, allowed: bool, untimed: bool, filter: &Filter) -> ClassVerdict
    requires allowed { allowed ≡ is_allowed filter.now class.now }
    requires untimed { untimed ≡ is_untimed filter.now class.now }
    ensures { IsVerdict filter.now class.now result }
{
    if !allowed {
        return ClassVerdict::Dropped;
    }
    let Some(times) = times_to_ask(class, untimed) else {
        return ClassVerdict::Dropped;
    };
    let Some(thread) = thread_to_ask(class, filter) else {
        return ClassVerdict::Dropped;
    };
    match (times, thread) {
        (None, None) => ClassVerdict::Kept,
        (times, thread) => ClassVerdict::Asked { times, thread },
    }
}

/// The fields of the class by which the window allows its events; `Some(None)` if it allows all of them, and
/// `None` if it allows none.
#[tactic(auto, using(crate::proofs::VerdictLaws::untimed, crate::proofs::VerdictLaws::timed_none, crate::proofs::VerdictLaws::timed_by))]
fn times_to_ask(class: &ClassInfo, untimed: bool) -> Option<Option<Times>>
    ensures { (g : Given) → untimed ≡ is_untimed g class.now → AllowsTimes g class.now result }
{
    if untimed {
        return Some(None);
    }
    let times = Times::of(class)?;
    Some(Some(times))
}

/// The number of the field that leads to the thread by which the filter allows events of the class; `Some(None)`
/// if the options on threads allow all of them, and `None` if they allow none.
#[tactic(auto, using(crate::proofs::VerdictLaws::unasked_threads, crate::proofs::VerdictLaws::threadless, crate::proofs::VerdictLaws::threadless_none, crate::proofs::VerdictLaws::asked_thread))]
fn thread_to_ask(class: &ClassInfo, filter: &Filter) -> Option<Option<usize>>
    ensures { AllowsThreads filter.now class.now result }
{
    if !asks_for_threads(filter) {
        return Some(None);
    }
    match thread_field(class) {
        Some(number) => Some(Some(number)),
        None if filter.allows_thread(None) => Some(None),
        None => None,
    }
}

/// The number of the field that leads to the thread, if the class has it.
fn thread_field(class: &ClassInfo) -> Option<usize>
    ensures { result ≡ field_number class.now.fields (codes "eventThread") }
{
    class.fields.number("eventThread")
}

/// Whether an option on threads is given.
fn asks_for_threads(filter: &Filter) -> bool
    ensures { result ≡ is_some filter.now.include_threads || is_some filter.now.exclude_threads }
{
    filter.has(Side::IncludeThreads) || filter.has(Side::ExcludeThreads)
}
