//! The text of values, made in one walk over their bytes.
ghost use Rattle.std.specs.Prelude.{◌≡◌, ℕ, ◌+◌, ◌≤◌, ◌<◌, ◌-◌, ◌*◌, ◌++◌, length, true, false, Some, IfOk, OnOk, slice_get};
ghost use Rattle.std.specs.List.{AllByRecursion};
ghost use Rattle.jfr_layout.specs.Classes.{Class};
ghost use Rattle.jfr_value.specs.Nodes.{EndsAt, IsNode, AreValues, IsValue, node_at, node_of};
ghost use Rattle.jfr_value.specs.Values.{Value, Values};
ghost use Rattle.jfr_value.specs.Visits.{field_shapes};
ghost use Rattle.jfr_value.specs.Walks.{IsLayoutIfKnown, DepthBound};
ghost use Rattle.jfr_show.specs.Cache.{AreCached};
ghost use Rattle.jfr_show.specs.Depths.{deepest};
ghost use Rattle.jfr_show.specs.Shown.{fields_shown, node_shown, referred, shown, shown_all};

use crate::TextBuilder;
use crate::cache::{CachedText, TextCache};
use crate::depth::View;
use crate::leaf::{show_integer, show_raw, show_string};
use crate::reading::{bytes_at, constant, integer_at, string_at};
use crate::reference::{show_missing, show_name};
use jfr_base::NoMemory;
use jfr_layout::{FieldLayout, Form};
use jfr_text::StringKind;
use jfr_value::{Node, item_layout, layout_of};

/// Adds the text of a node's value.
#[cycle(show)]
pub(crate) fn show_node(
    view: &View<'_, '_>,
    cache: &mut TextCache,
    node: &Node<'_>,
    out: &mut TextBuilder,
) -> Result<(), NoMemory>
    requires cached { AreCached view.now.chunk.now cache.old }
    requires of_chunk { node.now.bytes.now ≡ view.now.chunk.now.bytes }
    requires value { IsValue view.now.chunk.now.classes node.now }
    requires composites { view.now.depth.reach.composites ≡ 33 }
    requires level { deepest view.now.depth node.now.shape.array ≤ 1000 }
    ensures ok { OnOk result (out.new ≡ out.old ++ node_shown view.now.chunk.now (referred view.now.chunk.now view.now.depth.reach.references) view.now.depth.level (node_of node.now)) }
    ensures cached { AreCached view.now.chunk.now cache.new }
{
    let layout = layout_of(view.chunk.classes(), node.shape);
    let _end = show_value(view, cache, &layout, node.at, out)?;
    Ok(())
}

/// Adds the value with this layout that starts at `at`. Returns where it ends.
#[cycle(show)]
fn show_value(
    view: &View<'_, '_>,
    cache: &mut TextCache,
    layout: &FieldLayout,
    at: usize,
    out: &mut TextBuilder,
) -> Result<usize, NoMemory>
    requires cached { AreCached view.now.chunk.now cache.old }
    requires layout { IsLayoutIfKnown view.now.chunk.now.classes layout.now }
    requires depth { DepthBound view.now.chunk.now.classes view.now.depth.reach.composites layout.now.shape }
    requires holds { (to : ℕ) × EndsAt view.now.chunk.now.classes view.now.chunk.now.bytes layout.now.shape at to }
    requires composites { view.now.depth.reach.composites ≤ 33 }
    requires level { deepest view.now.depth layout.now.shape.array ≤ 1000 }
    ensures ok { IfOk result (λ end. (to : ℕ) (v : Value) → IsNode view.now.chunk.now.classes view.now.chunk.now.bytes (node_at layout.now.shape at to) v
        → (end ≡ to) × (out.new ≡ out.old ++ shown view.now.chunk.now.classes (referred view.now.chunk.now view.now.depth.reach.references) view.now.depth.level v)) }
    ensures cached { AreCached view.now.chunk.now cache.new }
{
    match layout.form {
        Form::Integer => {
            let number = integer_at(view.chunk, at);
            show_integer(layout.kind, number.value, out)?;
            Ok(number.end)
        }
        Form::Raw(count) => {
            let size = usize::from(count);
            let bytes = bytes_at(view.chunk, at, size);
            show_raw(layout.kind, bytes, out)?;
            Ok(at + size)
        }
        Form::Key => {
            let key = integer_at(view.chunk, at);
            show_reference(view, cache, layout.shape.class, key.value, out)?;
            Ok(key.end)
        }
        Form::Text => {
            let string = string_at(view.chunk, at);
            match string.kind {
                StringKind::Key => {
                    show_reference(view, cache, layout.shape.class, string.key, out)?
                }
                _ => show_string(&string, out)?,
            }
            Ok(string.end)
        }
        Form::Fields => show_fields(view, cache, layout.class_index, at, out),
        Form::Array => show_items(view, cache, layout, at, out),
    }
}

/// Adds a value of the class with index `class_index`. Returns where it ends.
#[cycle(show)]
fn show_fields(
    view: &View<'_, '_>,
    cache: &mut TextCache,
    class_index: usize,
    at: usize,
    out: &mut TextBuilder,
) -> Result<usize, NoMemory>
    requires cached { AreCached view.now.chunk.now cache.old }
    requires placed { class_index < length view.now.chunk.now.classes }
    requires inner { 1 ≤ view.now.depth.reach.composites }
    requires depth { AllByRecursion (DepthBound view.now.chunk.now.classes (view.now.depth.reach.composites - 1)) (field_shapes view.now.chunk.now.classes class_index) }
    requires valid { (to : ℕ) × (vs : Values) × AreValues view.now.chunk.now.classes view.now.chunk.now.bytes at to (field_shapes view.now.chunk.now.classes class_index) vs }
    requires composites { view.now.depth.reach.composites ≤ 33 }
    requires level { deepest view.now.depth false ≤ 1000 }
    ensures ok { IfOk result (λ end. (to : ℕ) (vs : Values) (class : Class) → AreValues view.now.chunk.now.classes view.now.chunk.now.bytes at to (field_shapes view.now.chunk.now.classes class_index) vs
        → slice_get view.now.chunk.now.classes class_index ≡ Some class → (end ≡ to) × (out.new ≡ out.old ++ fields_shown view.now.depth.level class (shown_all view.now.chunk.now.classes (referred view.now.chunk.now view.now.depth.reach.references) (view.now.depth.level + 1) vs))) }
    ensures cached { AreCached view.now.chunk.now cache.new }
{
    let classes = view.chunk.classes();
    let info = classes.class_at(class_index);
    out.push_str(info.name.as_str())?;
    out.push_ascii(" {\n")?;
    let inner = view.depth.of_fields();
    let deeper = View {
        depth: inner,
        ..*view
    };
    let mut to = at;
    let mut number = 0;
    for layout in classes.layouts(class_index) {
        out.push_indent(inner.level)?;
        out.push_str(info.fields.at(number).name.as_str())?;
        out.push_ascii(" = ")?;
        to = show_value(&deeper, cache, layout, to, out)?;
        out.push_ascii("\n")?;
        number += 1;
    }
    out.push_indent(view.depth.level)?;
    out.push_ascii("}")?;
    Ok(to)
}

/// Adds an array. Returns where it ends.
#[cycle(show)]
fn show_items(
    view: &View<'_, '_>,
    cache: &mut TextCache,
    layout: &FieldLayout,
    at: usize,
    out: &mut TextBuilder,
) -> Result<usize, NoMemory>
    requires cached { AreCached view.now.chunk.now cache.old }
    requires array { layout.now.shape.array ≡ true }
    requires layout { IsLayoutIfKnown view.now.chunk.now.classes layout.now }
    requires depth { DepthBound view.now.chunk.now.classes view.now.depth.reach.composites layout.now.shape }
    requires holds { (to : ℕ) × EndsAt view.now.chunk.now.classes view.now.chunk.now.bytes layout.now.shape at to }
    requires composites { view.now.depth.reach.composites ≤ 33 }
    requires level { deepest view.now.depth true ≤ 1000 }
    ensures ok { IfOk result (λ end. (to : ℕ) (v : Value) → IsNode view.now.chunk.now.classes view.now.chunk.now.bytes (node_at layout.now.shape at to) v
        → (end ≡ to) × (out.new ≡ out.old ++ shown view.now.chunk.now.classes (referred view.now.chunk.now view.now.depth.reach.references) view.now.depth.level v)) }
    ensures cached { AreCached view.now.chunk.now cache.new }
{
    let count = integer_at(view.chunk, at);
    out.push_ascii("[\n")?;
    let item = item_layout(layout);
    let inner = view.depth.of_items();
    let deeper = View {
        depth: inner,
        ..*view
    };
    let mut to = count.end;
    'items: for _ in 0..count.value {
        out.push_indent(inner.level)?;
        to = show_value(&deeper, cache, &item, to, out)?;
        out.push_ascii("\n")?;
    }
    out.push_indent(view.depth.level)?;
    out.push_ascii("]")?;
    Ok(to)
}

/// Adds the text of the reference with this class and key. Takes it from the cache if it is there; if not,
/// makes it, and the cache may keep it.
#[cycle(show)]
fn show_reference(
    view: &View<'_, '_>,
    cache: &mut TextCache,
    class: u64,
    key: u64,
    out: &mut TextBuilder,
) -> Result<(), NoMemory>
    requires cached { AreCached view.now.chunk.now cache.old }
    requires level { view.now.depth.level + 100 * view.now.depth.reach.references ≤ 1000 }
    ensures ok { OnOk result (out.new ≡ out.old ++ referred view.now.chunk.now view.now.depth.reach.references view.now.depth.level (class, key)) }
    ensures cached { AreCached view.now.chunk.now cache.new }
{
    let Some(alloc) = cache.alloc() else {
        return show_constant(view, cache, class, key, out);
    };
    if let Some(text) = cache.get(class, key, view.depth) {
        return out.push_str(text);
    }
    let mut text = TextBuilder::new(alloc);
    show_constant(view, cache, class, key, &mut text)?;
    out.push_str(text.as_str())?;
    cache.keep(CachedText {
        class,
        key,
        references: view.depth.reach.references,
        level: view.depth.level,
        text,
    });
    Ok(())
}

/// Adds the text of the reference with this class and key. Doesn't look up this reference in the cache.
#[cycle(show)]
fn show_constant(
    view: &View<'_, '_>,
    cache: &mut TextCache,
    class: u64,
    key: u64,
    out: &mut TextBuilder,
) -> Result<(), NoMemory>
    requires cached { AreCached view.now.chunk.now cache.old }
    requires level { view.now.depth.level + 100 * view.now.depth.reach.references ≤ 1000 }
    ensures ok { OnOk result (out.new ≡ out.old ++ referred view.now.chunk.now view.now.depth.reach.references view.now.depth.level (class, key)) }
    ensures cached { AreCached view.now.chunk.now cache.new }
{
    let Some(node) = constant(view.chunk, class, key) else {
        return show_missing(view.chunk, class, key, out);
    };
    if view.depth.reach.references == 0 {
        return show_name(view.chunk, class, key, out);
    }
    let depth = view.depth.of_constant();
    show_node(&View { depth, ..*view }, cache, &node, out)
}
