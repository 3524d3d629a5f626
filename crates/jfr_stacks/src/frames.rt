//! The frames of a stack trace.
ghost use Rattle.std.specs.Prelude.{◌≡◌, ℕ, ◌≤◌, true, false, codes, length, map, IfOk, IfSome, IsSome, Some, option_map};
ghost use Rattle.std.specs.List.{AllByRecursion};
ghost use Rattle.jfr_base.specs.Formats.{int_at};
ghost use Rattle.jfr_layout.specs.Classes.{Sound};
ghost use Rattle.jfr_value.specs.Nodes.{EndsAt, IsValue, children, node_of};
ghost use Rattle.jfr_stacks.specs.Frames.{IsChunkValue, field_numbers, frames_in};

use crate::fields::FieldNumbers;
use jfr_base::{NoMemory, Var, known_integer};
use jfr_chunk::Chunk;
use jfr_layout::Shape;
use jfr_path::{MOST_FOLLOWED, follow_references};
use jfr_value::{Node, children_are_parts, end_of};
use std::alloc::Global;

/// The frames of a stack trace, from the innermost call to the outermost, given the numbers of the fields
/// `frames`; `None` exactly if they aren't an array.
pub(crate) fn frames_in<'a>(
    alloc: Global,
    chunk: &Chunk<'a>,
    fields: &FieldNumbers,
    trace: &Node<'a>,
) -> Result<Option<Vec<Node<'a>>>, NoMemory>
    requires fields { fields.now ≡ field_numbers (codes "frames") chunk.now.classes }
    requires value { IsValue chunk.now.classes trace.now }
    requires of_chunk { trace.now.bytes.now ≡ chunk.now.bytes }
    ensures ok { IfOk result (λ frames. option_map (λ f. map node_of f.items) frames ≡ frames_in chunk.now (node_of trace.now)) }
    ensures values { IfOk result (λ frames. IfSome frames (λ f. AllByRecursion (IsChunkValue chunk.now) f.items)) }
{
    let Some(field) = fields.field(chunk, trace) else {
        return Ok(None);
    };
    let array = follow_references(chunk, &field, MOST_FOLLOWED);
    if !array.shape.array {
        return Ok(None);
    }
    let frames = items_of(alloc, chunk, &array)?;
    Ok(Some(frames))
}

/// The items of an array, in order.
fn items_of<'a>(
    alloc: Global,
    chunk: &Chunk<'a>,
    array: &Node<'a>,
) -> Result<Vec<Node<'a>>, NoMemory>
    requires value { IsValue chunk.now.classes array.now }
    requires of_chunk { array.now.bytes.now ≡ chunk.now.bytes }
    requires array { array.now.shape.array ≡ true }
    ensures ok { IfOk result (λ items. map node_of items.items ≡ children chunk.now.classes chunk.now.bytes (node_of array.now)) }
    ensures values { IfOk result (λ items. AllByRecursion (IsChunkValue chunk.now) items.items) }
{
    children_are_parts();
    chunk.parts_are_valid();
    let count = integer_at(chunk, array.at, array.end);
    let shape = Shape {
        class: array.shape.class,
        constant: array.shape.constant,
        array: false,
    };
    let mut items = Vec::new(alloc);
    let mut at = count.end;
    'items: for _ in 0..count.value {
        let end = item_end(chunk, shape, at, array.end);
        items.push(Node {
            shape,
            bytes: array.bytes,
            at,
            end,
        })?;
        at = end;
    }
    Ok(items)
}

/// The end of the item with this shape at `at`, which is at most `limit`.
fn item_end(chunk: &Chunk<'_>, shape: Shape, at: usize, limit: usize) -> usize
    requires sound { Sound chunk.now.classes }
    requires item { shape.array ≡ false }
    requires order { at ≤ limit }
    requires within { limit ≤ length chunk.now.bytes }
    requires holds { (to : ℕ) × EndsAt chunk.now.classes chunk.now.bytes shape at to × (to ≤ limit) }
    ensures { (to : ℕ) → EndsAt chunk.now.classes chunk.now.bytes shape at to → to ≤ limit → result ≡ to }
{
    // `end_of` requires a known class, which that of a reference needn't be.
    if shape.constant {
        return key_end(chunk, shape, at, limit);
    }
    match end_of(chunk.classes(), shape, chunk.bytes(), at, limit) {
        Ok(end) => end,
        Err(_) => unreachable!(),
    }
}

/// The end of the reference at `at`, which is at most `limit`.
fn key_end(chunk: &Chunk<'_>, shape: Shape, at: usize, limit: usize) -> usize
    requires item { shape.array ≡ false }
    requires reference { shape.constant ≡ true }
    requires order { at ≤ limit }
    requires within { limit ≤ length chunk.now.bytes }
    requires holds { (to : ℕ) × EndsAt chunk.now.classes chunk.now.bytes shape at to × (to ≤ limit) }
    ensures { (to : ℕ) → EndsAt chunk.now.classes chunk.now.bytes shape at to → to ≤ limit → result ≡ to }
{
    integer_at(chunk, at, limit).end
}

/// The integer at `at`, which ends at `limit` or before.
fn integer_at(chunk: &Chunk<'_>, at: usize, limit: usize) -> Var
    requires order { at ≤ limit }
    requires within { limit ≤ length chunk.now.bytes }
    requires holds { IsSome (int_at chunk.now.bytes at limit) }
    ensures { int_at chunk.now.bytes at limit ≡ Some result }
{
    known_integer(chunk.bytes(), at, limit)
}
