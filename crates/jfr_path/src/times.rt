//! The fields with the times of an event.
ghost use Rattle.std.specs.Prelude.{◌≡◌, ◌+◌, IfSome, Some};
ghost use Rattle.std.specs.Int.{cast_signed, w64};
ghost use Rattle.jfr_chunk.specs.Windows.{long_of, or_zero};
ghost use Rattle.jfr_filter.specs.Filters.{Given};
ghost use Rattle.jfr_path.specs.Times.{HasLayouts, IsWindowOf, StartsAt, duration_at, is_timely, number_at, times_of};
ghost use Rattle.jfr_value.specs.Nodes.{IsValue, node_of};

use crate::window::Window;
use jfr_base::{Var, known_integer, signed};
use jfr_chunk::Chunk;
use jfr_layout::{ClassInfo, FieldLayout, Form, Kind};
use jfr_value::{Node, Step, child};

/// The numbers of the fields with the times of a class's events, in ticks.
#[derive(Clone, Copy, Debug)]
pub(crate) struct Times {
    /// The field with the start.
    pub start: usize,
    /// The field with the duration, if the class has one.
    pub duration: Option<usize>,
}

impl Times {
    /// The fields of a class; `None` if it has none for the start.
    pub(crate) fn of(class: &ClassInfo) -> Option<Times>
        ensures { result ≡ times_of class.now }
    {
        let start = class.fields.number("startTime")?;
        let duration = class.fields.number("duration");
        Some(Times { start, duration })
    }
}

/// Whether an event is in the window, by the times in its fields, which have these layouts. An event without a
/// start isn't; one without a duration, or with a negative one, ends when it starts.
pub(crate) fn is_timely(
    chunk: &Chunk<'_>,
    window: &Window,
    fields: &Node<'_>,
    times: &Times,
    layouts: &[FieldLayout],
) -> bool
    requires value { IsValue chunk.now.classes fields.now }
    requires of_chunk { fields.now.bytes.now ≡ chunk.now.bytes }
    requires layouts { HasLayouts chunk.now (node_of fields.now) layouts.now }
    ensures { (g : Given) → IsWindowOf g chunk.now window.now → result ≡ is_timely g chunk.now (node_of fields.now) times.now }
{
    match leading_times(chunk, fields, times, layouts) {
        Some(found) => window.has(found.start, found.duration),
        None => is_timely_anywhere(chunk, window, fields, times),
    }
}

/// The times of an event, in ticks.
#[derive(Clone, Copy, Debug)]
struct Moments {
    start: i64,
    duration: i64,
}

/// The times of an event, if its first field is the start, and its second one the duration, if the class has
/// one, and they are inline `long` values. So it is in almost all classes. The two are read where they are,
/// without a walk over the fields.
fn leading_times(
    chunk: &Chunk<'_>,
    fields: &Node<'_>,
    times: &Times,
    layouts: &[FieldLayout],
) -> Option<Moments>
    requires of_chunk { fields.now.bytes.now ≡ chunk.now.bytes }
    requires layouts { HasLayouts chunk.now (node_of fields.now) layouts.now }
    ensures start { IfSome result (λ found. number_at chunk.now (node_of fields.now) times.now.start ≡ Some found.start) }
    ensures duration { IfSome result (λ found. found.duration ≡ duration_at chunk.now (node_of fields.now) times.now.duration) }
{
    if times.start != 0 {
        return None;
    }
    let start = long_in(chunk, fields, layouts, 0, fields.at)?;
    let duration = second_duration(chunk, fields, layouts, times.duration, start.end)?;
    Some(Moments {
        start: signed(start.value),
        duration,
    })
}

/// The duration in the second field, which starts at the offset `at`, if `number` is that of this field and the
/// value is an inline `long`. The duration is 0 without a number, or if it is negative.
fn second_duration(
    chunk: &Chunk<'_>,
    fields: &Node<'_>,
    layouts: &[FieldLayout],
    number: Option<usize>,
    at: usize,
) -> Option<i64>
    requires of_chunk { fields.now.bytes.now ≡ chunk.now.bytes }
    requires layouts { HasLayouts chunk.now (node_of fields.now) layouts.now }
    requires start { StartsAt chunk.now (node_of fields.now) 1 at }
    ensures { IfSome result (λ duration. duration ≡ duration_at chunk.now (node_of fields.now) number) }
{
    match number {
        None => Some(0),
        Some(1) => {
            let found = long_in(chunk, fields, layouts, 1, at)?;
            Some(or_zero(signed(found.value)))
        }
        Some(_) => None,
    }
}

/// The integer in the field with this number, which starts at the offset `at`, if the field is an inline `long`.
fn long_in(
    chunk: &Chunk<'_>,
    fields: &Node<'_>,
    layouts: &[FieldLayout],
    number: usize,
    at: usize,
) -> Option<Var>
    requires of_chunk { fields.now.bytes.now ≡ chunk.now.bytes }
    requires layouts { HasLayouts chunk.now (node_of fields.now) layouts.now }
    requires start { StartsAt chunk.now (node_of fields.now) number at }
    ensures value { IfSome result (λ found. number_at chunk.now (node_of fields.now) number ≡ Some (cast_signed w64 found.value)) }
    ensures next { IfSome result (λ found. StartsAt chunk.now (node_of fields.now) (number + 1) found.end) }
{
    let layout = layouts.get(number)?;
    match (layout.kind, layout.form) {
        (Kind::Long, Form::Integer) => Some(known_integer(fields.bytes, at, fields.end)),
        _ => None,
    }
}

/// The number, or 0 if it is negative.
fn or_zero(number: i64) -> i64
    ensures { result ≡ or_zero number }
{
    if number < 0 { 0 } else { number }
}

/// As `is_timely`, with a walk over the fields for each of the times.
fn is_timely_anywhere(chunk: &Chunk<'_>, window: &Window, fields: &Node<'_>, times: &Times) -> bool
    requires value { IsValue chunk.now.classes fields.now }
    requires of_chunk { fields.now.bytes.now ≡ chunk.now.bytes }
    ensures { (g : Given) → IsWindowOf g chunk.now window.now → result ≡ is_timely g chunk.now (node_of fields.now) times.now }
{
    let Some(start) = number_at(chunk, fields, times.start) else {
        return false;
    };
    window.has(start, duration_at(chunk, fields, times.duration))
}

/// The duration in the field with this number, if there is one; 0 without one, or if it is negative.
fn duration_at(chunk: &Chunk<'_>, fields: &Node<'_>, number: Option<usize>) -> i64
    requires value { IsValue chunk.now.classes fields.now }
    requires of_chunk { fields.now.bytes.now ≡ chunk.now.bytes }
    ensures { result ≡ duration_at chunk.now (node_of fields.now) number }
{
    let Some(number) = number else {
        return 0;
    };
    match number_at(chunk, fields, number) {
        Some(duration) => or_zero(duration),
        None => 0,
    }
}

/// The value of the field with this number, if that is an inline `long`.
fn number_at(chunk: &Chunk<'_>, fields: &Node<'_>, number: usize) -> Option<i64>
    requires value { IsValue chunk.now.classes fields.now }
    requires of_chunk { fields.now.bytes.now ≡ chunk.now.bytes }
    ensures { result ≡ number_at chunk.now (node_of fields.now) number }
{
    let field = child(chunk.classes(), fields, &Step::Field(number))?;
    long_of(chunk, &field)
}

/// The number that a value is, if it is an inline `long`.
fn long_of(chunk: &Chunk<'_>, node: &Node<'_>) -> Option<i64>
    requires value { IsValue chunk.now.classes node.now }
    requires of_chunk { node.now.bytes.now ≡ chunk.now.bytes }
    ensures { result ≡ long_of chunk.now (node_of node.now) }
{
    if node.shape.array || node.shape.constant {
        return None;
    }
    match chunk.classes().kind(node.shape.class)? {
        Kind::Long => {
            let number = known_integer(node.bytes, node.at, node.end);
            Some(signed(number.value))
        }
        _ => None,
    }
}
