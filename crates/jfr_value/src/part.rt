//! The parts of values: fields and items.
ghost use Rattle.std.specs.Prelude.{◌≡◌, ℕ, ◌≤◌, ◌<◌, length, replicate, map, Some, IfSome, false, option_map, slice_get};
ghost use Rattle.std.specs.List.{AllByRecursion};
ghost use Rattle.jfr_layout.specs.Classes.{IsFieldLayout, Sound, item_of};
ghost use Rattle.jfr_value.specs.Nodes.{EndsAt, AreValues, IsValue, child, laid, node_of};
ghost use Rattle.jfr_value.specs.Values.{IsLayoutOrKey, Values, list_of};

use crate::extent::{NoVisit, is_hollow, layout_end, layout_of};
use crate::walk::{LEVELS, Walk};
use crate::{Node, Step};
use jfr_base::{Var, known_integer};
use jfr_layout::{Classes, FieldLayout, Kind, Shape};

/// The field or the item of a node to which a step leads; the node must be one of a value. `None` exactly if
/// there is no such field or item, and for `Follow`. The call walks over the fields or items before it.
pub fn child<'a>(classes: &Classes, node: &Node<'a>, step: &Step) -> Option<Node<'a>>
    requires { IsValue classes.now node.now }
    ensures exact { option_map node_of result ≡ child classes.now node.now.bytes.now (node_of node.now) step.now }
    ensures bytes { IfSome result (λ part. part.bytes.now ≡ node.now.bytes.now) }
    ensures value { IfSome result (IsValue classes.now) }
{
    match step {
        Step::Field(number) => field(classes, node, *number),
        Step::Item(number) => item(classes, node, *number),
        Step::Follow => None,
    }
}

/// The field with this number, if there is one.
fn field<'a>(classes: &Classes, node: &Node<'a>, number: usize) -> Option<Node<'a>>
    requires { IsValue classes.now node.now }
    ensures exact { option_map node_of result ≡ child classes.now node.now.bytes.now (node_of node.now) (Step.Field number) }
    ensures bytes { IfSome result (λ part. part.bytes.now ≡ node.now.bytes.now) }
    ensures value { IfSome result (IsValue classes.now) }
{
    let place = classes.index_of(node.shape.class)?;
    if node.shape.array || node.shape.constant {
        return None;
    }
    match classes.kind_at(place) {
        Kind::Composite => {}
        _ => return None,
    }
    let layouts = classes.layouts(place);
    if number >= layouts.len() {
        return None;
    }
    Some(nth_field(classes, layouts, node, number))
}

/// The item with this number, if there is one.
fn item<'a>(classes: &Classes, node: &Node<'a>, number: u64) -> Option<Node<'a>>
    requires { IsValue classes.now node.now }
    ensures exact { option_map node_of result ≡ child classes.now node.now.bytes.now (node_of node.now) (Step.Item number) }
    ensures bytes { IfSome result (λ part. part.bytes.now ≡ node.now.bytes.now) }
    ensures value { IfSome result (IsValue classes.now) }
{
    let layout = layout_of(classes, item_of(node.shape));
    if !node.shape.array {
        return None;
    }
    let count = known_integer(node.bytes, node.at, node.end);
    if number >= count.value {
        return None;
    }
    Some(nth_item(classes, node, &layout, count, number))
}

/// The shape of an array's items.
pub(crate) fn item_of(array: Shape) -> Shape
    ensures { result ≡ item_of array }
{
    Shape {
        class: array.class,
        constant: array.constant,
        array: false,
    }
}

/// The offset after the value at the offset `at`, which is known to be there.
fn part_end(classes: &Classes, layout: &FieldLayout, bytes: &[u8], at: usize, end: usize) -> usize
    requires sound { Sound classes.now }
    requires placed { IsLayoutOrKey classes.now layout.now }
    requires order { at ≤ end }
    requires within { end ≤ length bytes.now }
    requires holds { (to : ℕ) × EndsAt classes.now bytes.now layout.now.shape at to × (to ≤ end) }
    ensures { (to : ℕ) → EndsAt classes.now bytes.now layout.now.shape at to → to ≤ end → result ≡ to }
{
    let walk = Walk {
        classes,
        bytes,
        end,
        with: &(),
    };
    match layout_end(&walk, layout, at, LEVELS, &mut NoVisit) {
        Ok(to) => to,
        Err(_) => unreachable!(),
    }
}

/// The field with this number, if the fields have these layouts.
fn nth_field<'a>(
    classes: &Classes,
    layouts: &[FieldLayout],
    node: &Node<'a>,
    number: usize,
) -> Node<'a>
    requires sound { Sound classes.now }
    requires layouts { AllByRecursion (IsFieldLayout classes.now) layouts.now }
    requires within { node.now.end ≤ length node.now.bytes.now }
    requires row { (vs : Values) × AreValues classes.now node.now.bytes.now node.now.at node.now.end (map (λ s. s.shape) layouts.now) vs }
    requires is_field { number < length layouts.now }
    ensures exact { (vs : Values) → AreValues classes.now node.now.bytes.now node.now.at node.now.end (map (λ s. s.shape) layouts.now) vs → slice_get (laid node.now.at (list_of vs)) number ≡ Some (node_of result) }
    ensures bytes { result.bytes.now ≡ node.now.bytes.now }
{
    let mut at = node.at;
    for i in 0..number {
        at = part_end(classes, &layouts[i], node.bytes, at, node.end);
    }
    Node {
        shape: layouts[number].shape,
        bytes: node.bytes,
        at,
        end: part_end(classes, &layouts[number], node.bytes, at, node.end),
    }
}

/// The item with this number of an array with this count.
fn nth_item<'a>(
    classes: &Classes,
    node: &Node<'a>,
    layout: &FieldLayout,
    count: Var,
    number: u64,
) -> Node<'a>
    requires sound { Sound classes.now }
    requires item { layout.now.shape.array ≡ false }
    requires placed { IsLayoutOrKey classes.now layout.now }
    requires order { count.end ≤ node.now.end }
    requires within { node.now.end ≤ length node.now.bytes.now }
    requires row { (vs : Values) × AreValues classes.now node.now.bytes.now count.end node.now.end (replicate count.value layout.now.shape) vs }
    requires is_item { number < count.value }
    ensures exact { (vs : Values) → AreValues classes.now node.now.bytes.now count.end node.now.end (replicate count.value layout.now.shape) vs → slice_get (laid count.end (list_of vs)) number ≡ Some (node_of result) }
    ensures bytes { result.bytes.now ≡ node.now.bytes.now }
{
    let shape = layout.shape;
    if !shape.constant && is_hollow(classes, layout.class_index) {
        return Node {
            shape,
            bytes: node.bytes,
            at: count.end,
            end: count.end,
        };
    }
    let mut at = count.end;
    for _ in 0..number {
        at = part_end(classes, layout, node.bytes, at, node.end);
    }
    Node {
        shape,
        bytes: node.bytes,
        at,
        end: part_end(classes, layout, node.bytes, at, node.end),
    }
}
