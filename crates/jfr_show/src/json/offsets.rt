//! Where the fields of a value start.
ghost use Rattle.std.specs.Prelude.{◌≡◌, ℕ, ◌≤◌, ◌<◌, length, IfOk};
ghost use Rattle.jfr_layout.specs.Classes.{IsFieldLayout, Sound};
ghost use Rattle.jfr_value.specs.Nodes.{EndsAt, AreValues};
ghost use Rattle.jfr_value.specs.Values.{Values};
ghost use Rattle.jfr_value.specs.Visits.{field_shapes};
ghost use Rattle.jfr_show.specs.Orders.{AreOffsets};

use crate::reading::integer_at;
use jfr_base::NoMemory;
use jfr_chunk::Chunk;
use jfr_layout::{FieldLayout, Form};
use jfr_value::end_of;
use std::alloc::Global;

/// The index of a value's class, where each field of the value starts, and where the last one ends.
#[derive(Drop)]
pub(crate) struct FieldOffsets {
    pub(crate) class_index: usize,
    pub(crate) starts: Vec<usize>,
    pub(crate) end: usize,
}

/// Where the fields of a value of the class with index `class_index` start. The first starts at `at`.
pub(crate) fn field_offsets(
    alloc: Global,
    chunk: &Chunk<'_>,
    class_index: usize,
    at: usize,
) -> Result<FieldOffsets, NoMemory>
    requires sound { Sound chunk.now.classes }
    requires placed { class_index < length chunk.now.classes }
    requires valid { (to : ℕ) × (vs : Values) × AreValues chunk.now.classes chunk.now.bytes at to (field_shapes chunk.now.classes class_index) vs }
    ensures class { IfOk result (λ offsets. offsets.class_index ≡ class_index) }
    ensures ok { IfOk result (λ offsets. (to : ℕ) (vs : Values) → AreValues chunk.now.classes chunk.now.bytes at to (field_shapes chunk.now.classes class_index) vs → AreOffsets offsets at to vs) }
{
    let layouts = chunk.classes().layouts(class_index);
    let mut starts = Vec::with_capacity(alloc, layouts.len())?;
    let limit = chunk.bytes().len();
    let mut end = at;
    for layout in layouts {
        starts.push(end)?;
        end = end_at(chunk, layout, end, limit);
    }
    Ok(FieldOffsets {
        class_index,
        starts,
        end,
    })
}

/// Where the value with this layout ends that starts at `at`, in a chunk that ends at `limit`.
fn end_at(chunk: &Chunk<'_>, layout: &FieldLayout, at: usize, limit: usize) -> usize
    requires limit { limit ≡ length chunk.now.bytes }
    requires sound { Sound chunk.now.classes }
    requires layout { IsFieldLayout chunk.now.classes layout.now }
    requires within { at ≤ length chunk.now.bytes }
    requires holds { (to : ℕ) × EndsAt chunk.now.classes chunk.now.bytes layout.now.shape at to }
    ensures { (to : ℕ) → EndsAt chunk.now.classes chunk.now.bytes layout.now.shape at to → result ≡ to }
{
    match layout.form {
        Form::Integer => {
            let number = integer_at(chunk, at);
            number.end
        }
        Form::Key => {
            let key = integer_at(chunk, at);
            key.end
        }
        Form::Raw(count) => at + usize::from(count),
        _ => other_end(chunk, layout, at),
    }
}

/// Where the value ends, whatever its layout is.
fn other_end(chunk: &Chunk<'_>, layout: &FieldLayout, at: usize) -> usize
    requires sound { Sound chunk.now.classes }
    requires layout { IsFieldLayout chunk.now.classes layout.now }
    requires within { at ≤ length chunk.now.bytes }
    requires holds { (to : ℕ) × EndsAt chunk.now.classes chunk.now.bytes layout.now.shape at to }
    ensures { (to : ℕ) → EndsAt chunk.now.classes chunk.now.bytes layout.now.shape at to → result ≡ to }
{
    let bytes = chunk.bytes();
    match end_of(chunk.classes(), layout.shape, bytes, at, bytes.len()) {
        Ok(end) => end,
        Err(_) => unreachable!(),
    }
}
