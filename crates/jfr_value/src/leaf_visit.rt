//! The visit of the leaves of a value that is known to be there. `visit_targets` is built on it.
ghost use Rattle.std.specs.Prelude.{◌≡◌, ℕ, ◌+◌, ◌^◌, ◌<◌, ◌≤◌, ◌∷◌, [], Some, length, true};
ghost use Rattle.std.specs.List.{AllByRecursion};
ghost use Rattle.jfr_layout.specs.Classes.{IsFieldLayout, Sound};
ghost use Rattle.jfr_layout.specs.Fused.{IsEventPrelude, Passes};
ghost use Rattle.jfr_value.specs.Leaves.{LeafAt, leaf_of, leaves};
ghost use Rattle.jfr_value.specs.Nodes.{IsValue, node_of};
ghost use Rattle.jfr_value.specs.Visits.{AreToVisit, IsNumber, TakesAll, Visits, field_shapes, shapes_of_layouts};
ghost use Rattle.jfr_value.specs.Walks.{IsLayoutIfKnown, DepthBound, fields_from};

use crate::cursor::items_to_walk;
use crate::extent::{item_layout, layout_of};
use crate::fused::{fused_layouts, numbers_end};
use crate::integers::integers_end;
use crate::single_visit::{ValueStart, leaf_to, visit_key, visit_number, visit_text};
use crate::walk::{LEVELS, Walk};
use crate::{Holder, Leaf, LeafKind, Node, Steps};
use jfr_base::known_integer;
use jfr_layout::{Classes, FieldLayout, Form, FusedFields, FusedKind};
use std::marker::Brand;
use std::sync::ledger::{Blank, Ledger};

/// A visitor takes the leaves of a value one by one. For each it may look something up in `with`, such as the pools.
/// Only strings, references and counts can change it.
/// Every visitor of targets (`Visit`) is one: it takes what the leaves refer to.
pub trait VisitLeaf<C> {
    // Which leaves a visitor can take.
    ghost admits: { C → LeafAt → Type 0 };

    // Whether the visitor can take a leaf at this offset now.
    ghost ready: { Self → C → ℕ → Type 0 };

    // How taking a leaf changes the visitor.
    ghost takes: { C → LeafAt → Self → Self → Type 0 };

    /// The law that numbers, and truth values, leave a visitor as it is: they aren't passed to it.
    fn passes_numbers()
        ensures same { (with : C) (leaf : LeafAt) (visitor : Self) → IsNumber leaf → admits with leaf → ready visitor with leaf.at → takes with leaf visitor visitor }
        ensures ready { (with : C) (visitor : Self) (at to : ℕ) → ready visitor with at → at ≤ to → ready visitor with to };

    /// Takes a leaf that is no number.
    fn visit_leaf(&mut self, with: &C, leaf: Leaf<'_>)
        requires admits { admits with.now (leaf_of leaf) }
        requires ready { ready self.old with.now leaf.at }
        ensures ready { ready self.new with.now (leaf.entry.at + length leaf.entry.spelled.now) }
        ensures takes { takes with.now (leaf_of leaf.entry) self.old self.new };
}

/// A class, by its id and its index.
#[derive(Clone, Copy)]
struct ClassAt {
    id: u64,
    index: usize,
}

/// Fields of a class, one after another: their layouts, the number of the first of them, where its value starts, and
/// the most composite classes that can be nested from there on.
#[derive(Clone, Copy)]
struct NextFields<'k> {
    layouts: &'k [FieldLayout],
    class: u64,
    number: usize,
    at: usize,
    levels: u32,
}

impl NextFields<'_> {
    /// Where the value of one of these fields starts, which is at the offset `at`. `field` counts from the first of them.
    #[inline(always)]
    fn value(self, field: usize, at: usize) -> ValueStart
        requires { self.number + field < 2 ^ 64 }
        ensures { result ≡ record { at = at; levels = self.entry.levels; holder = Some (record { class = self.entry.class; field = self.entry.number + field }) } }
    {
        let holder = Holder {
            class: self.class,
            field: self.number + field,
        };
        ValueStart {
            at,
            levels: self.levels,
            holder: Some(holder),
        }
    }
}

/// Passes the leaves of a node to the visitor, from left to right. It allocates nothing. The node must be one of a
/// value.
pub fn visit_leaves<C, V: VisitLeaf<C>>(
    classes: &Classes,
    node: Node<'_>,
    visitor: &mut V,
    with: &C,
)
    requires value { IsValue classes.now node }
    requires admits { AllByRecursion (V.admits with.now) (leaves classes.now node.bytes.now (node_of node)) }
    requires ready { V.ready visitor.old with.now node.at }
    ensures exact { TakesAll (V.takes with.now) (leaves classes.now node.entry.bytes.now (node_of node.entry)) visitor.old visitor.new }
    ensures ready { V.ready visitor.new with.now node.entry.end }
{
    visit_with_ledger::<C, V, Brand>(classes, node, visitor, with, Blank::new(1));
}

/// As `visit_leaves`, with a ledger for the steps.
fn visit_with_ledger<C, V: VisitLeaf<C>, L: Ledger>(
    classes: &Classes,
    node: Node<'_>,
    visitor: &mut V,
    with: &C,
    blank: Blank,
)
    requires value { IsValue classes.now node }
    requires admits { AllByRecursion (V.admits with.now) (leaves classes.now node.bytes.now (node_of node)) }
    requires ready { V.ready visitor.old with.now node.at }
    requires name { blank.name ≡ L.name }
    requires parts { blank.parts ≡ L.parts }
    requires some { 0 < blank.parts }
    ensures exact { TakesAll (V.takes with.now) (leaves classes.now node.entry.bytes.now (node_of node.entry)) visitor.old visitor.new }
    ensures ready { V.ready visitor.new with.now node.entry.end }
{
    let mut steps: Steps<L> = Steps::new(blank);
    visit_leaves_and_count(classes, node, visitor, with, &mut steps);
}

/// As `visit_leaves`. It counts a step for each leaf.
pub(crate) fn visit_leaves_and_count<C, V: VisitLeaf<C>, L: Ledger>(
    classes: &Classes,
    node: Node<'_>,
    visitor: &mut V,
    with: &C,
    steps: &mut Steps<L>,
)
    requires value { IsValue classes.now node }
    requires admits { AllByRecursion (V.admits with.now) (leaves classes.now node.bytes.now (node_of node)) }
    requires ready { V.ready visitor.old with.now node.at }
    ensures exact { TakesAll (V.takes with.now) (leaves classes.now node.entry.bytes.now (node_of node.entry)) visitor.old visitor.new }
    ensures ready { V.ready visitor.new with.now node.entry.end }
    ensures cost { steps.new ≡ steps.old + length (leaves classes.now node.entry.bytes.now (node_of node.entry)) }
{
    let layout = layout_of(classes, node.shape);
    let walk = Walk {
        classes,
        bytes: node.bytes,
        end: node.end,
        with,
    };
    let start = ValueStart {
        at: node.at,
        levels: LEVELS,
        holder: None,
    };
    let _end = visit_value(&walk, &layout, start, visitor, steps);
}

/// Visits a value with this layout, and returns where it ends.
#[cycle(visits)]
#[inline(always)]
fn visit_value<C, V: VisitLeaf<C>, L: Ledger>(
    walk: &Walk<'_, '_, C>,
    layout: &FieldLayout,
    start: ValueStart,
    visitor: &mut V,
    steps: &mut Steps<L>,
) -> usize
    requires sound { Sound walk.now.classes.now }
    requires layout { IsLayoutIfKnown walk.now.classes.now layout.now }
    requires depth { DepthBound walk.now.classes.now start.levels layout.now.shape }
    requires values { AreToVisit (V.admits walk.now.with.now) walk.now.classes.now walk.now.bytes.now walk.now.end (start.holder ∷ []) (layout.now.shape ∷ []) start.at }
    requires ready { V.ready visitor.old walk.now.with.now start.at }
    ensures visited { Visits (V.takes walk.now.with.now) walk.now.classes.now walk.now.bytes.now walk.now.end (start.holder ∷ []) (layout.now.shape ∷ []) start.at visitor.old steps.old [] [] result visitor.new steps.new }
    ensures ready { V.ready visitor.new walk.now.with.now result }
{
    match layout.form {
        Form::Integer | Form::Raw(_) => visit_number(walk, layout, start, visitor, steps),
        Form::Text => visit_text(walk, layout, start, visitor, steps),
        Form::Key => visit_key(walk, layout, start, visitor, steps),
        Form::Fields => {
            let inner = ValueStart {
                at: start.at,
                levels: start.levels - 1,
                holder: start.holder,
            };
            let class = ClassAt {
                id: layout.shape.class,
                index: layout.class_index,
            };
            visit_fields(walk, class, inner, visitor, steps)
        }
        Form::Array => {
            // A copy, so that other values don't need their layout in memory.
            let array = *layout;
            visit_array(walk, &array, start, visitor, steps)
        }
    }
}

/// Visits the fields of a value of this class, and returns where they end. It calls itself, so it isn't inlined. All that
/// it calls for most fields is inlined in it.
#[cycle(visits)]
#[inline(never)]
fn visit_fields<C, V: VisitLeaf<C>, L: Ledger>(
    walk: &Walk<'_, '_, C>,
    class: ClassAt,
    start: ValueStart,
    visitor: &mut V,
    steps: &mut Steps<L>,
) -> usize
    requires sound { Sound walk.now.classes.now }
    requires placed { class.index < length walk.now.classes.now }
    requires depth { AllByRecursion (DepthBound walk.now.classes.now start.levels) (field_shapes walk.now.classes.now class.index) }
    requires values { AreToVisit (V.admits walk.now.with.now) walk.now.classes.now walk.now.bytes.now walk.now.end (fields_from class.id 0 (field_shapes walk.now.classes.now class.index)) (field_shapes walk.now.classes.now class.index) start.at }
    requires ready { V.ready visitor.old walk.now.with.now start.at }
    ensures visited { Visits (V.takes walk.now.with.now) walk.now.classes.now walk.now.bytes.now walk.now.end (fields_from class.id 0 (field_shapes walk.now.classes.now class.index)) (field_shapes walk.now.classes.now class.index) start.at visitor.old steps.old [] [] result visitor.new steps.new }
    ensures ready { V.ready visitor.new walk.now.with.now result }
{
    let class_layout = walk.classes.class_layout(class.index);
    let mut number = 0;
    let mut to = start.at;
    for fused in &class_layout.fused_fields {
        let next = NextFields {
            layouts: fused_layouts(class_layout, fused),
            class: class.id,
            number,
            at: to,
            levels: start.levels,
        };
        to = visit_fused(walk, fused, next, visitor, steps);
        number += fused.fields;
    }
    to
}

/// Visits fused fields, and returns where they end. Numbers are passed at once.
#[cycle(visits)]
#[inline(always)]
fn visit_fused<C, V: VisitLeaf<C>, L: Ledger>(
    walk: &Walk<'_, '_, C>,
    fused: &FusedFields,
    next: NextFields<'_>,
    visitor: &mut V,
    steps: &mut Steps<L>,
) -> usize
    requires sound { Sound walk.now.classes.now }
    requires layouts { AllByRecursion (IsFieldLayout walk.now.classes.now) next.layouts.now }
    requires few { next.number + length next.layouts.now < 2 ^ 64 }
    requires fused { Passes fused.now.kind next.layouts.now }
    requires depth { AllByRecursion (DepthBound walk.now.classes.now next.levels) (shapes_of_layouts next.layouts.now) }
    requires values { AreToVisit (V.admits walk.now.with.now) walk.now.classes.now walk.now.bytes.now walk.now.end (fields_from next.class next.number (shapes_of_layouts next.layouts.now)) (shapes_of_layouts next.layouts.now) next.at }
    requires ready { V.ready visitor.old walk.now.with.now next.at }
    ensures visited { Visits (V.takes walk.now.with.now) walk.now.classes.now walk.now.bytes.now walk.now.end (fields_from next.entry.class next.entry.number (shapes_of_layouts next.entry.layouts.now)) (shapes_of_layouts next.entry.layouts.now) next.entry.at visitor.old steps.old [] [] result visitor.new steps.new }
    ensures ready { V.ready visitor.new walk.now.with.now result }
{
    match fused.kind {
        FusedKind::EventPrelude { .. } => visit_prelude(walk, next, visitor, steps),
        FusedKind::Key(_) => {
            let start = next.value(0, next.at);
            visit_key(walk, &next.layouts[0], start, visitor, steps)
        }
        FusedKind::Text(_) => {
            let start = next.value(0, next.at);
            visit_text(walk, &next.layouts[0], start, visitor, steps)
        }
        _ => match numbers_end(walk.bytes, fused, next.at, walk.end) {
            Some(to) => {
                V::passes_numbers();
                steps.take(next.layouts.len());
                to
            }
            None => visit_each(walk, next, visitor, steps),
        },
    }
}

/// Visits the event prelude, and returns where it ends: two integers, which are passed at once, and two references.
#[cycle(visits)]
#[inline(always)]
fn visit_prelude<C, V: VisitLeaf<C>, L: Ledger>(
    walk: &Walk<'_, '_, C>,
    next: NextFields<'_>,
    visitor: &mut V,
    steps: &mut Steps<L>,
) -> usize
    requires sound { Sound walk.now.classes.now }
    requires layouts { AllByRecursion (IsFieldLayout walk.now.classes.now) next.layouts.now }
    requires few { next.number + length next.layouts.now < 2 ^ 64 }
    requires prelude { (thread : ℕ) × (trace : ℕ) × IsEventPrelude thread trace next.layouts.now }
    requires depth { AllByRecursion (DepthBound walk.now.classes.now next.levels) (shapes_of_layouts next.layouts.now) }
    requires values { AreToVisit (V.admits walk.now.with.now) walk.now.classes.now walk.now.bytes.now walk.now.end (fields_from next.class next.number (shapes_of_layouts next.layouts.now)) (shapes_of_layouts next.layouts.now) next.at }
    requires ready { V.ready visitor.old walk.now.with.now next.at }
    ensures visited { Visits (V.takes walk.now.with.now) walk.now.classes.now walk.now.bytes.now walk.now.end (fields_from next.entry.class next.entry.number (shapes_of_layouts next.entry.layouts.now)) (shapes_of_layouts next.entry.layouts.now) next.entry.at visitor.old steps.old [] [] result visitor.new steps.new }
    ensures ready { V.ready visitor.new walk.now.with.now result }
{
    match integers_end(walk.bytes, next.at, walk.end, 2) {
        Ok(times) => {
            V::passes_numbers();
            steps.take(2);
            let thread = next.value(2, times);
            let threads = visit_key(walk, &next.layouts[2], thread, visitor, steps);
            let trace = next.value(3, threads);
            visit_key(walk, &next.layouts[3], trace, visitor, steps)
        }
        Err(_) => visit_each(walk, next, visitor, steps),
    }
}

/// Visits fields one by one, and returns where they end. Most fields are passed by `visit_fused`, so this isn't inlined.
#[cycle(visits)]
#[inline(never)]
fn visit_each<C, V: VisitLeaf<C>, L: Ledger>(
    walk: &Walk<'_, '_, C>,
    next: NextFields<'_>,
    visitor: &mut V,
    steps: &mut Steps<L>,
) -> usize
    requires sound { Sound walk.now.classes.now }
    requires layouts { AllByRecursion (IsFieldLayout walk.now.classes.now) next.layouts.now }
    requires few { next.number + length next.layouts.now < 2 ^ 64 }
    requires depth { AllByRecursion (DepthBound walk.now.classes.now next.levels) (shapes_of_layouts next.layouts.now) }
    requires values { AreToVisit (V.admits walk.now.with.now) walk.now.classes.now walk.now.bytes.now walk.now.end (fields_from next.class next.number (shapes_of_layouts next.layouts.now)) (shapes_of_layouts next.layouts.now) next.at }
    requires ready { V.ready visitor.old walk.now.with.now next.at }
    ensures visited { Visits (V.takes walk.now.with.now) walk.now.classes.now walk.now.bytes.now walk.now.end (fields_from next.entry.class next.entry.number (shapes_of_layouts next.entry.layouts.now)) (shapes_of_layouts next.entry.layouts.now) next.entry.at visitor.old steps.old [] [] result visitor.new steps.new }
    ensures ready { V.ready visitor.new walk.now.with.now result }
{
    let mut to = next.at;
    for (field, layout) in next.layouts.iter().enumerate() {
        let start = next.value(field, to);
        to = visit_value(walk, layout, start, visitor, steps);
    }
    to
}

/// Visits an array, whose count is a leaf, and returns where it ends.
#[cycle(visits)]
fn visit_array<C, V: VisitLeaf<C>, L: Ledger>(
    walk: &Walk<'_, '_, C>,
    layout: &FieldLayout,
    start: ValueStart,
    visitor: &mut V,
    steps: &mut Steps<L>,
) -> usize
    requires sound { Sound walk.now.classes.now }
    requires array { layout.now.shape.array ≡ true }
    requires layout { IsLayoutIfKnown walk.now.classes.now layout.now }
    requires depth { DepthBound walk.now.classes.now start.levels layout.now.shape }
    requires values { AreToVisit (V.admits walk.now.with.now) walk.now.classes.now walk.now.bytes.now walk.now.end (start.holder ∷ []) (layout.now.shape ∷ []) start.at }
    requires ready { V.ready visitor.old walk.now.with.now start.at }
    ensures visited { Visits (V.takes walk.now.with.now) walk.now.classes.now walk.now.bytes.now walk.now.end (start.holder ∷ []) (layout.now.shape ∷ []) start.at visitor.old steps.old [] [] result visitor.new steps.new }
    ensures ready { V.ready visitor.new walk.now.with.now result }
{
    let count = known_integer(walk.bytes, start.at, walk.end);
    let kind = LeafKind::Count(count.value);
    let leaf = leaf_to(walk.bytes, start, count.end, kind, layout.shape.class);
    visitor.visit_leaf(walk.with, leaf);
    steps.tick();
    let items = items_to_walk(walk.classes, layout.shape, layout.class_index, count.value);
    let item = item_layout(layout);
    let mut to = count.end;
    'items: for _ in 0..items {
        let next = ValueStart {
            at: to,
            levels: start.levels,
            holder: start.holder,
        };
        to = visit_value(walk, &item, next, visitor, steps);
    }
    to
}
