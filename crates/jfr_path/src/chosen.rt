//! The events that a filter keeps.
ghost use Rattle.std.specs.Prelude.{◌≡◌, ◌<◌, IfOk, Some, length, slice_get};
ghost use Rattle.std.specs.List.{AllZip};
ghost use Rattle.jfr_filter.specs.Filters.{Given};
ghost use Rattle.jfr_chunk.specs.Parts.{AreParts, events_of};
ghost use Rattle.jfr_chunk.specs.Indexed.{event_at};
ghost use Rattle.jfr_chunk.specs.Chosen.{chosen, is_chosen};
ghost use Rattle.jfr_path.specs.Threads.{is_thread_allowed};
ghost use Rattle.jfr_layout.specs.Classes.{find_class};
ghost use Rattle.jfr_path.specs.Times.{HasLayouts, IsWindowOf};
ghost use Rattle.jfr_path.specs.Verdicts.{IsVerdict, IsRightFor};
ghost use Rattle.jfr_value.specs.Nodes.{IsValue, node_of};

use crate::fields_of;
use crate::threads::ThreadVerdicts;
use crate::times::is_timely;
use crate::verdict::{ClassVerdict, are_all_kept, verdicts_on};
use crate::window::Window;
use jfr_base::NoMemory;
use jfr_chunk::{Chunk, Event, Kept};
use jfr_filter::Filter;
use jfr_layout::FieldLayout;
use jfr_value::{Node, Step, child};
use std::alloc::Global;

/// Which events of the chunk the filter keeps. Each string that names a class is matched once. If an option
/// on threads is given, the thread is looked up once for each class and key by which events refer to it, and
/// each text is matched once. No thread is looked up for an event outside the time window.
pub fn choose(alloc: Global, chunk: &Chunk<'_>, filter: &Filter) -> Result<Kept, NoMemory>
    ensures ok { IfOk result (λ kept. kept ≡ chosen filter.now chunk.now) }
{
    let verdicts = verdicts_on(alloc, chunk, filter)?;
    if are_all_kept(&verdicts) {
        return chunk.keep_all(alloc);
    }
    let window = Window::of(chunk, filter);
    let mut threads = ThreadVerdicts::new(alloc, chunk, filter);
    let count = chunk.event_count();
    let mut kept = Kept::new(alloc, count)?;
    for number in 0..count {
        let event = chunk.known_event(number);
        let keep = is_chosen(chunk, &event, verdicts.as_slice(), &window, &mut threads)?;
        kept.set(number, keep);
    }
    Ok(kept)
}

/// Whether the filter keeps an event.
fn is_chosen<'a>(
    chunk: &Chunk<'a>,
    event: &Event<'a>,
    verdicts: &[ClassVerdict],
    window: &Window,
    threads: &mut ThreadVerdicts<'_, 'a>,
) -> Result<bool, NoMemory>
    requires event { slice_get (events_of chunk.now) event.now.number ≡ Some (event_at event.now) }
    requires verdicts { AllZip (IsVerdict threads.old.filter) chunk.now.classes verdicts.now }
    requires window { IsWindowOf threads.old.filter chunk.now window.now }
    requires threads { threads.old.chunk ≡ chunk.now }
    ensures ok { IfOk result (λ keep. keep ≡ is_chosen threads.old.filter chunk.now (event_at event.now)) }
    ensures same { threads.new ≡ threads.old }
{
    let class = class_of(chunk, event);
    match verdict_of(chunk, event, verdicts, class) {
        ClassVerdict::Kept => Ok(true),
        ClassVerdict::Dropped => Ok(false),
        ClassVerdict::Asked { times, thread } => {
            let fields = fields_of(chunk, event);
            if let Some(times) = times
                && !is_timely(
                    chunk,
                    window,
                    &fields,
                    times,
                    layouts_of(chunk, event, class),
                )
            {
                return Ok(false);
            }
            match thread {
                Some(number) => is_thread_allowed(chunk, &fields, *number, threads),
                None => Ok(true),
            }
        }
    }
}

/// Whether an event has this field, and the filter allows the thread that the field leads to.
fn is_thread_allowed<'a>(
    chunk: &Chunk<'a>,
    fields: &Node<'a>,
    number: usize,
    threads: &mut ThreadVerdicts<'_, 'a>,
) -> Result<bool, NoMemory>
    requires value { IsValue chunk.now.classes fields.now }
    requires of_chunk { fields.now.bytes.now ≡ chunk.now.bytes }
    requires parts { AreParts chunk.now }
    requires threads { threads.old.chunk ≡ chunk.now }
    ensures ok { IfOk result (λ allowed. allowed ≡ is_thread_allowed threads.old.filter chunk.now (node_of fields.now) number) }
    ensures same { threads.new ≡ threads.old }
{
    match child(chunk.classes(), fields, &Step::Field(number)) {
        Some(thread) => threads.allows(&thread),
        None => Ok(false),
    }
}

/// The index of the class of an event.
fn class_of(chunk: &Chunk<'_>, event: &Event<'_>) -> usize
    requires event { slice_get (events_of chunk.now) event.now.number ≡ Some (event_at event.now) }
    ensures within { result < length chunk.now.classes }
    ensures class { slice_get chunk.now.classes result ≡ find_class chunk.now.classes event.now.frame.type_id }
{
    chunk.parts_are_valid();
    match chunk.classes().index_of(event.frame.type_id) {
        Some(index) => index,
        None => unreachable!(),
    }
}

/// The verdict on the class of an event, which has this index.
fn verdict_of<'v>(
    chunk: &Chunk<'_>,
    event: &Event<'_>,
    verdicts: &'v [ClassVerdict],
    class: usize,
) -> &'v ClassVerdict
    requires event { slice_get (events_of chunk.now) event.now.number ≡ Some (event_at event.now) }
    requires each { length verdicts.now ≡ length chunk.now.classes }
    requires within { class < length chunk.now.classes }
    requires class { slice_get chunk.now.classes class ≡ find_class chunk.now.classes event.now.frame.type_id }
    ensures { (g : Given) → AllZip (IsVerdict g) chunk.now.classes verdicts.now → IsRightFor g chunk.now (event_at event.now) result.now }
{
    chunk.parts_are_valid();
    &verdicts[class]
}

/// The layouts of the fields of an event, whose class has this index.
fn layouts_of<'c>(chunk: &'c Chunk<'_>, event: &Event<'_>, class: usize) -> &'c [FieldLayout]
    requires event { slice_get (events_of chunk.now) event.now.number ≡ Some (event_at event.now) }
    requires within { class < length chunk.now.classes }
    requires class { slice_get chunk.now.classes class ≡ find_class chunk.now.classes event.now.frame.type_id }
    ensures { HasLayouts chunk.now (node_of event.now.node) result.now }
{
    chunk.parts_are_valid();
    chunk.classes().layouts(class)
}
