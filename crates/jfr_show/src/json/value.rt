//! The JSON of values, made in one walk over their bytes.
ghost use Rattle.std.specs.Prelude.{◌≡◌, ℕ, ◌+◌, ◌≤◌, ◌<◌, ◌-◌, ◌*◌, ◌++◌, length, true, Some, IfOk, OnOk, slice_get, string_bytes};
ghost use Rattle.std.specs.List.{AllByRecursion};
ghost use Rattle.serde_json.specs.Data.{no_members, object};
ghost use Rattle.serde_json.specs.Written.{comma_if, compact_text};
ghost use Rattle.jfr_layout.specs.Classes.{Class};
ghost use Rattle.jfr_value.specs.Nodes.{EndsAt, IsNode, AreValues, IsValue, node_at, node_of};
ghost use Rattle.jfr_value.specs.Values as tree;
ghost use Rattle.jfr_value.specs.Visits.{field_shapes};
ghost use Rattle.jfr_value.specs.Walks.{IsLayoutIfKnown, DepthBound};
ghost use Rattle.jfr_show.specs.CachedJson.{AreCachedJson};
ghost use Rattle.jfr_show.specs.Json.{json_of, json_of_all, members_with, node_json, referred_json};
ghost use Rattle.jfr_show.specs.Orders.{AreOffsets, IsOrderAt, IsSource};

use super::cache::{CachedJson, JsonCache};
use super::leaf::{push_integer, push_raw, push_text};
use super::offsets::{FieldOffsets, field_offsets};
use super::order::{MemberOrder, order_of};
use super::reference::{push_missing, push_name};
use super::source::JsonSource;
use crate::reading::{bytes_at, constant, integer_at, string_at};
use jfr_base::NoMemory;
use jfr_layout::{FieldLayout, Form};
use jfr_text::StringKind;
use jfr_value::{Node, item_layout, layout_of};

/// Adds the value of a node of the chunk.
#[cycle(json)]
pub(crate) fn push_node(
    source: &JsonSource<'_, '_>,
    cache: &mut JsonCache,
    node: &Node<'_>,
    out: &mut String,
) -> Result<(), NoMemory>
    requires source { IsSource source.now }
    requires cached { AreCachedJson source.now.chunk.now cache.old }
    requires of_chunk { node.now.bytes.now ≡ source.now.chunk.now.bytes }
    requires value { IsValue source.now.chunk.now.classes node.now }
    requires composites { source.now.reach.composites ≡ 33 }
    ensures ok { OnOk result (string_bytes out.new ≡ string_bytes out.old ++ compact_text (node_json source.now.chunk.now (referred_json source.now.chunk.now source.now.reach.references) (node_of node.now))) }
    ensures cached { AreCachedJson source.now.chunk.now cache.new }
{
    let layout = layout_of(source.chunk.classes(), node.shape);
    let _end = push_value(source, cache, &layout, node.at, out)?;
    Ok(())
}

/// Adds the value with this layout that starts at `at`. Returns where it ends.
#[cycle(json)]
fn push_value(
    source: &JsonSource<'_, '_>,
    cache: &mut JsonCache,
    layout: &FieldLayout,
    at: usize,
    out: &mut String,
) -> Result<usize, NoMemory>
    requires source { IsSource source.now }
    requires cached { AreCachedJson source.now.chunk.now cache.old }
    requires layout { IsLayoutIfKnown source.now.chunk.now.classes layout.now }
    requires depth { DepthBound source.now.chunk.now.classes source.now.reach.composites layout.now.shape }
    requires holds { (to : ℕ) × EndsAt source.now.chunk.now.classes source.now.chunk.now.bytes layout.now.shape at to }
    requires composites { source.now.reach.composites ≤ 33 }
    ensures ok { IfOk result (λ end. (to : ℕ) (v : tree.Value) → IsNode source.now.chunk.now.classes source.now.chunk.now.bytes (node_at layout.now.shape at to) v
        → (end ≡ to) × (string_bytes out.new ≡ string_bytes out.old ++ compact_text (json_of source.now.chunk.now.classes (referred_json source.now.chunk.now source.now.reach.references) v))) }
    ensures cached { AreCachedJson source.now.chunk.now cache.new }
{
    match layout.form {
        Form::Integer => {
            let number = integer_at(source.chunk, at);
            push_integer(layout.kind, number.value, out)?;
            Ok(number.end)
        }
        Form::Raw(count) => {
            let size = usize::from(count);
            let bytes = bytes_at(source.chunk, at, size);
            push_raw(source.alloc, layout.kind, bytes, out)?;
            Ok(at + size)
        }
        Form::Key => {
            let key = integer_at(source.chunk, at);
            push_reference(source, cache, layout.shape.class, key.value, out)?;
            Ok(key.end)
        }
        Form::Text => {
            let string = string_at(source.chunk, at);
            match string.kind {
                StringKind::Key => {
                    push_reference(source, cache, layout.shape.class, string.key, out)?
                }
                _ => push_text(source.alloc, &string, out)?,
            }
            Ok(string.end)
        }
        Form::Fields => push_fields(source, cache, layout.class_index, at, out),
        Form::Array => push_items(source, cache, layout, at, out),
    }
}

/// Adds a value of the class with index `class_index`. Returns where it ends.
#[cycle(json)]
fn push_fields(
    source: &JsonSource<'_, '_>,
    cache: &mut JsonCache,
    class_index: usize,
    at: usize,
    out: &mut String,
) -> Result<usize, NoMemory>
    requires source { IsSource source.now }
    requires cached { AreCachedJson source.now.chunk.now cache.old }
    requires placed { class_index < length source.now.chunk.now.classes }
    requires inner { 1 ≤ source.now.reach.composites }
    requires depth { AllByRecursion (DepthBound source.now.chunk.now.classes (source.now.reach.composites - 1)) (field_shapes source.now.chunk.now.classes class_index) }
    requires valid { (to : ℕ) × (vs : tree.Values) × AreValues source.now.chunk.now.classes source.now.chunk.now.bytes at to (field_shapes source.now.chunk.now.classes class_index) vs }
    requires composites { source.now.reach.composites ≤ 33 }
    ensures ok { IfOk result (λ end. (to : ℕ) (vs : tree.Values) (class : Class) → AreValues source.now.chunk.now.classes source.now.chunk.now.bytes at to (field_shapes source.now.chunk.now.classes class_index) vs
        → slice_get source.now.chunk.now.classes class_index ≡ Some class → (end ≡ to) × (string_bytes out.new ≡ string_bytes out.old ++ compact_text (object (members_with no_members class.fields (json_of_all source.now.chunk.now.classes (referred_json source.now.chunk.now source.now.reach.references) vs))))) }
    ensures cached { AreCachedJson source.now.chunk.now cache.new }
{
    let offsets = field_offsets(source.alloc, source.chunk, class_index, at)?;
    push_object(source, cache, &offsets, out)
}

/// Adds a value whose fields are at these offsets. Returns where it ends.
#[cycle(json)]
fn push_object(
    source: &JsonSource<'_, '_>,
    cache: &mut JsonCache,
    offsets: &FieldOffsets,
    out: &mut String,
) -> Result<usize, NoMemory>
    requires source { IsSource source.now }
    requires cached { AreCachedJson source.now.chunk.now cache.old }
    requires placed { offsets.now.class_index < length source.now.chunk.now.classes }
    requires inner { 1 ≤ source.now.reach.composites }
    requires depth { AllByRecursion (DepthBound source.now.chunk.now.classes (source.now.reach.composites - 1)) (field_shapes source.now.chunk.now.classes offsets.now.class_index) }
    requires valid { (at : ℕ) × (to : ℕ) × (vs : tree.Values) × AreValues source.now.chunk.now.classes source.now.chunk.now.bytes at to (field_shapes source.now.chunk.now.classes offsets.now.class_index) vs × AreOffsets offsets.now at to vs }
    requires composites { source.now.reach.composites ≤ 33 }
    ensures ok { IfOk result (λ end. (at to : ℕ) (vs : tree.Values) (class : Class) → AreValues source.now.chunk.now.classes source.now.chunk.now.bytes at to (field_shapes source.now.chunk.now.classes offsets.now.class_index) vs → AreOffsets offsets.now at to vs
        → slice_get source.now.chunk.now.classes offsets.now.class_index ≡ Some class → (end ≡ to) × (string_bytes out.new ≡ string_bytes out.old ++ compact_text (object (members_with no_members class.fields (json_of_all source.now.chunk.now.classes (referred_json source.now.chunk.now source.now.reach.references) vs))))) }
    ensures cached { AreCachedJson source.now.chunk.now cache.new }
{
    match &source.orders[offsets.class_index] {
        Some(order) => push_members(source, cache, order, offsets, out),
        None => {
            let class = source.chunk.classes().class_at(offsets.class_index);
            let order = order_of(source.alloc, &class.fields)?;
            push_members(source, cache, &order, offsets, out)
        }
    }
}

/// Adds a value whose fields are at these offsets, in this order. Returns where it ends.
#[cycle(json)]
fn push_members(
    source: &JsonSource<'_, '_>,
    cache: &mut JsonCache,
    order: &MemberOrder,
    offsets: &FieldOffsets,
    out: &mut String,
) -> Result<usize, NoMemory>
    requires source { IsSource source.now }
    requires cached { AreCachedJson source.now.chunk.now cache.old }
    requires order { IsOrderAt source.now.chunk.now.classes offsets.now.class_index order.now }
    requires placed { offsets.now.class_index < length source.now.chunk.now.classes }
    requires inner { 1 ≤ source.now.reach.composites }
    requires depth { AllByRecursion (DepthBound source.now.chunk.now.classes (source.now.reach.composites - 1)) (field_shapes source.now.chunk.now.classes offsets.now.class_index) }
    requires valid { (at : ℕ) × (to : ℕ) × (vs : tree.Values) × AreValues source.now.chunk.now.classes source.now.chunk.now.bytes at to (field_shapes source.now.chunk.now.classes offsets.now.class_index) vs × AreOffsets offsets.now at to vs }
    requires composites { source.now.reach.composites ≤ 33 }
    ensures ok { IfOk result (λ end. (at to : ℕ) (vs : tree.Values) (class : Class) → AreValues source.now.chunk.now.classes source.now.chunk.now.bytes at to (field_shapes source.now.chunk.now.classes offsets.now.class_index) vs → AreOffsets offsets.now at to vs
        → slice_get source.now.chunk.now.classes offsets.now.class_index ≡ Some class → (end ≡ to) × (string_bytes out.new ≡ string_bytes out.old ++ compact_text (object (members_with no_members class.fields (json_of_all source.now.chunk.now.classes (referred_json source.now.chunk.now source.now.reach.references) vs))))) }
    ensures cached { AreCachedJson source.now.chunk.now cache.new }
{
    let layouts = source.chunk.classes().layouts(offsets.class_index);
    let inner = source.reach.of_fields();
    let deeper = JsonSource {
        reach: inner,
        ..*source
    };
    out.push_str("{")?;
    for lead in &order.leads {
        out.push_str(lead.text.as_str())?;
        let layout = &layouts[lead.field];
        let _end = push_value(&deeper, cache, layout, offsets.starts[lead.field], out)?;
    }
    out.push_str("}")?;
    Ok(offsets.end)
}

/// Adds an array. Returns where it ends.
#[cycle(json)]
fn push_items(
    source: &JsonSource<'_, '_>,
    cache: &mut JsonCache,
    layout: &FieldLayout,
    at: usize,
    out: &mut String,
) -> Result<usize, NoMemory>
    requires source { IsSource source.now }
    requires cached { AreCachedJson source.now.chunk.now cache.old }
    requires array { layout.now.shape.array ≡ true }
    requires layout { IsLayoutIfKnown source.now.chunk.now.classes layout.now }
    requires depth { DepthBound source.now.chunk.now.classes source.now.reach.composites layout.now.shape }
    requires holds { (to : ℕ) × EndsAt source.now.chunk.now.classes source.now.chunk.now.bytes layout.now.shape at to }
    requires composites { source.now.reach.composites ≤ 33 }
    ensures ok { IfOk result (λ end. (to : ℕ) (v : tree.Value) → IsNode source.now.chunk.now.classes source.now.chunk.now.bytes (node_at layout.now.shape at to) v
        → (end ≡ to) × (string_bytes out.new ≡ string_bytes out.old ++ compact_text (json_of source.now.chunk.now.classes (referred_json source.now.chunk.now source.now.reach.references) v))) }
    ensures cached { AreCachedJson source.now.chunk.now cache.new }
{
    let count = integer_at(source.chunk, at);
    out.push_str("[")?;
    let item = item_layout(layout);
    let mut to = count.end;
    let mut later = false;
    'items: for _ in 0..count.value {
        push_comma(later, out)?;
        to = push_value(source, cache, &item, to, out)?;
        later = true;
    }
    out.push_str("]")?;
    Ok(to)
}

/// Adds a comma if something comes before.
pub(crate) fn push_comma(later: bool, out: &mut String) -> Result<(), NoMemory>
    ensures ok { OnOk result (string_bytes out.new ≡ string_bytes out.old ++ comma_if later) }
{
    if later {
        out.push_str(",")?;
    }
    Ok(())
}

/// Adds the JSON of the reference to a class and a key, from the cache if it is there. If not, the cache may
/// keep it.
#[cycle(json)]
fn push_reference(
    source: &JsonSource<'_, '_>,
    cache: &mut JsonCache,
    class: u64,
    key: u64,
    out: &mut String,
) -> Result<(), NoMemory>
    requires source { IsSource source.now }
    requires cached { AreCachedJson source.now.chunk.now cache.old }
    ensures ok { OnOk result (string_bytes out.new ≡ string_bytes out.old ++ compact_text (referred_json source.now.chunk.now source.now.reach.references (class, key))) }
    ensures cached { AreCachedJson source.now.chunk.now cache.new }
{
    if let Some(text) = cache.get(class, key, source.reach) {
        out.push_str(text)?;
        return Ok(());
    }
    let mut text = String::new(source.alloc);
    push_constant(source, cache, class, key, &mut text)?;
    out.push_str(text.as_str())?;
    cache.keep(CachedJson {
        class,
        key,
        references: source.reach.references,
        text,
    });
    Ok(())
}

/// Adds the JSON of the reference to a class and a key.
#[cycle(json)]
fn push_constant(
    source: &JsonSource<'_, '_>,
    cache: &mut JsonCache,
    class: u64,
    key: u64,
    out: &mut String,
) -> Result<(), NoMemory>
    requires source { IsSource source.now }
    requires cached { AreCachedJson source.now.chunk.now cache.old }
    ensures ok { OnOk result (string_bytes out.new ≡ string_bytes out.old ++ compact_text (referred_json source.now.chunk.now source.now.reach.references (class, key))) }
    ensures cached { AreCachedJson source.now.chunk.now cache.new }
{
    let Some(node) = constant(source.chunk, class, key) else {
        return push_missing(source, class, key, out);
    };
    if source.reach.references == 0 {
        return push_name(source, class, key, out);
    }
    let reach = source.reach.of_constant();
    push_node(&JsonSource { reach, ..*source }, cache, &node, out)
}
