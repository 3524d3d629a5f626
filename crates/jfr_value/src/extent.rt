//! The walk to a value's end, over bytes of which nothing is known: it finds the value's end or a flaw. On the
//! way it passes the value's keys to a visitor. jfr_chunk uses it for each event (`end_visiting_keys`), and jfr_pool
//! for each constant (`end_by_layout`). Other crates find the ends of fields and items by `end_of`.
ghost use Rattle.std.specs.Prelude.{◌≡◌, ◌⊎◌, ℕ, ◌+◌, ◌≤◌, ◌<◌, length, IfOk, IfErr, Ok, IfSome, IsSome, IsTrue, ◌↔◌, slice_get, true};
ghost use Rattle.std.specs.List.{AllByRecursion};
ghost use Rattle.jfr_base.specs.Formats.{run, end_or_flaw};
ghost use Rattle.jfr_layout.specs.Classes.{IsFieldLayout, Sound, find_class, form_of, item_of, layout_with};
ghost use Rattle.jfr_layout.specs.Fused.{AreFused};
ghost use Rattle.jfr_layout.specs.declared.form.Form.TheVariants as forms;
ghost use Rattle.jfr_layout.specs.declared.kind.Kind.TheVariants as kinds;
ghost use Rattle.jfr_value.specs.Leaves.{keys_in};
ghost use Rattle.jfr_value.specs.Nodes.{EndsAt, IsRefused, IsValueReason, node_at, targets};
ghost use Rattle.jfr_value.specs.Values.{IsHollow, IsHollowArray, IsLayoutOrKey};
ghost use Rattle.jfr_value.specs.Reading.{base_format, class_format, values_format, shape_format, value_format};
ghost use Rattle.jfr_value.specs.Visits.{TakesAll, TakesRead, TakesReadAll};
ghost use Rattle.jfr_value.specs.Walks.{DepthBound};
ghost use Rattle.jfr_value.specs.declared.walk.TheConstants.{INNER_LEVELS};

use crate::fused::fused_end;
use crate::integers::integer_end;
use crate::keys::{key_end, text_end};
use crate::part::item_of;
use crate::walk::{LEVELS, Walk};
use crate::{Visit, VisitKey};
use jfr_base::{Flaw, Reason, read_within};
use jfr_layout::{ClassLayout, Classes, FieldLayout, Form, Kind, Shape};
use jfr_text::{is_bare, is_key, read_string, short_units_end};

/// The offset after the value of a shape that starts at the offset `at`. Its class must be known. If no value
/// ends by `end`, the flaw is that of the first leaf from the left that doesn't: `Short`, or `StringKind` for
/// a string of an unknown kind.
#[inline]
pub fn end_of(
    classes: &Classes,
    shape: Shape,
    bytes: &[u8],
    at: usize,
    end: usize,
) -> Result<usize, Flaw>
    requires known { IsSome (find_class classes.now shape.class) }
    requires order { at ≤ end }
    requires within { end ≤ length bytes.now }
    ensures ok { IfOk result (λ to. EndsAt classes.now bytes.now shape at to × (to ≤ end)) }
    ensures refused { IfErr result (IsRefused classes.now bytes.now shape at end) }
    ensures reason { IfErr result (λ flaw. IsValueReason flaw.reason) }
    ensures exact { result ≡ end_or_flaw (run (value_format classes.now shape) bytes.now end at) }
{
    let layout = layout_of(classes, shape);
    end_by_layout(classes, &layout, bytes, at, end)
}

/// The offset after the value with this layout that starts at the offset `at`, as `end_of` returns it. A
/// caller that reads many values of a class looks up the class only once, by `layout_of`.
#[inline]
pub fn end_by_layout(
    classes: &Classes,
    layout: &FieldLayout,
    bytes: &[u8],
    at: usize,
    end: usize,
) -> Result<usize, Flaw>
    requires sound { Sound classes.now }
    requires layout { IsFieldLayout classes.now layout.now }
    requires order { at ≤ end }
    requires within { end ≤ length bytes.now }
    ensures ok { IfOk result (λ to. EndsAt classes.now bytes.now layout.now.shape at to × (to ≤ end)) }
    ensures refused { IfErr result (IsRefused classes.now bytes.now layout.now.shape at end) }
    ensures reason { IfErr result (λ flaw. IsValueReason flaw.reason) }
    ensures exact { result ≡ end_or_flaw (run (value_format classes.now layout.now.shape) bytes.now end at) }
{
    let walk = Walk {
        classes,
        bytes,
        end,
        with: &(),
    };
    value_end(walk, layout, at, &mut NoVisit)
}

/// The offset after a value, as `end_of` returns it. The class and the key of each reference, and of each
/// string that is a key, are passed to the visitor, from left to right. After a flaw it has taken some of
/// them.
#[inline(always)]
pub fn end_visiting<C, V: Visit<C>>(
    walk: Walk<'_, '_, C>,
    layout: &FieldLayout,
    at: usize,
    visitor: &mut V,
) -> Result<usize, Flaw>
    requires sound { Sound walk.classes.now }
    requires layout { IsFieldLayout walk.classes.now layout.now }
    requires order { at ≤ walk.end }
    requires ready { V.ready visitor.old walk.with.now }
    ensures ok { IfOk result (λ to. EndsAt walk.entry.classes.now walk.entry.bytes.now layout.now.shape at to × (to ≤ walk.entry.end)) }
    ensures refused { IfErr result (IsRefused walk.entry.classes.now walk.entry.bytes.now layout.now.shape at walk.entry.end) }
    ensures exact { result ≡ end_or_flaw (run (value_format walk.entry.classes.now layout.now.shape) walk.entry.bytes.now walk.entry.end at) }
    ensures reason { IfErr result (λ flaw. IsValueReason flaw.reason) }
    ensures visited { IfOk result (λ to. TakesAll (V.takes walk.entry.with.now) (targets walk.entry.classes.now walk.entry.bytes.now (node_at layout.now.shape at to)) visitor.old visitor.new) }
    ensures ready { V.ready visitor.new walk.entry.with.now }
{
    end_visiting_keys(walk, layout, at, visitor)
}

/// As `end_visiting`. The visitor is also told where each key is spelled.
#[inline(always)]
pub fn end_visiting_keys<C, V: VisitKey<C>>(
    walk: Walk<'_, '_, C>,
    layout: &FieldLayout,
    at: usize,
    visitor: &mut V,
) -> Result<usize, Flaw>
    requires sound { Sound walk.classes.now }
    requires layout { IsFieldLayout walk.classes.now layout.now }
    requires order { at ≤ walk.end }
    requires ready { V.ready visitor.old walk.with.now }
    ensures ok { IfOk result (λ to. EndsAt walk.entry.classes.now walk.entry.bytes.now layout.now.shape at to × (to ≤ walk.entry.end)) }
    ensures refused { IfErr result (IsRefused walk.entry.classes.now walk.entry.bytes.now layout.now.shape at walk.entry.end) }
    ensures exact { result ≡ end_or_flaw (run (value_format walk.entry.classes.now layout.now.shape) walk.entry.bytes.now walk.entry.end at) }
    ensures reason { IfErr result (λ flaw. IsValueReason flaw.reason) }
    ensures visited { IfOk result (λ to. TakesAll (V.takes walk.entry.with.now) (keys_in walk.entry.classes.now walk.entry.bytes.now (node_at layout.now.shape at to)) visitor.old visitor.new) }
    ensures ready { V.ready visitor.new walk.entry.with.now }
{
    value_end(walk, layout, at, visitor)
}

/// The body of `end_visiting_keys`. Its clauses are in terms of the format's `run`.
#[inline(always)]
fn value_end<C, V: VisitKey<C>>(
    walk: Walk<'_, '_, C>,
    layout: &FieldLayout,
    at: usize,
    visitor: &mut V,
) -> Result<usize, Flaw>
    requires sound { Sound walk.classes.now }
    requires layout { IsFieldLayout walk.classes.now layout.now }
    requires order { at ≤ walk.end }
    requires ready { V.ready visitor.old walk.with.now }
    ensures exact { result ≡ end_or_flaw (run (value_format walk.entry.classes.now layout.now.shape) walk.entry.bytes.now walk.entry.end at) }
    ensures visited { TakesRead (V.takes walk.entry.with.now) at (run (value_format walk.entry.classes.now layout.now.shape) walk.entry.bytes.now walk.entry.end at) visitor.old visitor.new }
    ensures ready { V.ready visitor.new walk.entry.with.now }
{
    match layout.form {
        Form::Fields => {
            let class_layout = walk.classes.class_layout(layout.class_index);
            all_fields_end(walk, class_layout, at, visitor)
        }
        _ => other_end(walk, layout, at, visitor),
    }
}

/// The offset after a value that isn't the fields of a composite class.
#[inline]
fn other_end<C, V: VisitKey<C>>(
    walk: Walk<'_, '_, C>,
    layout: &FieldLayout,
    at: usize,
    visitor: &mut V,
) -> Result<usize, Flaw>
    requires sound { Sound walk.classes.now }
    requires layout { IsFieldLayout walk.classes.now layout.now }
    requires order { at ≤ walk.end }
    requires ready { V.ready visitor.old walk.with.now }
    ensures exact { result ≡ end_or_flaw (run (value_format walk.entry.classes.now layout.now.shape) walk.entry.bytes.now walk.entry.end at) }
    ensures visited { TakesRead (V.takes walk.entry.with.now) at (run (value_format walk.entry.classes.now layout.now.shape) walk.entry.bytes.now walk.entry.end at) visitor.old visitor.new }
    ensures ready { V.ready visitor.new walk.entry.with.now }
{
    if is_hollow_array(walk.classes, layout) {
        return integer_end(walk.bytes, at, walk.end);
    }
    layout_end(&walk, layout, at, LEVELS, visitor)
}

/// A visitor that takes nothing.
#[derive(Drop)]
pub(crate) struct NoVisit;

impl Visit<()> for NoVisit {
    ghost use Rattle.std.specs.Prelude.{ℕ};

    ghost ready = { λ visitor with. Unit {0} };

    ghost takes = { λ with target old new. Unit {0} };

    #[inline(always)]
    fn visit(&mut self, _with: &(), _class: u64, _key: u64) {}
}

/// The layout of a shape. If its class isn't known, only the layout's shape, and the form of an array or a
/// key, are meaningful.
pub fn layout_of(classes: &Classes, shape: Shape) -> FieldLayout
    ensures shape { result.shape ≡ shape }
    ensures form { result.form ≡ form_of result.shape result.kind }
    ensures known { IsSome (find_class classes.now shape.class) → IsFieldLayout classes.now result }
    ensures sound { Sound classes.now }
{
    match classes.index_of(shape.class) {
        Some(place) => FieldLayout::new(shape, place, classes.kind_at(place)),
        None => FieldLayout::new(shape, 0, Kind::Composite),
    }
}

/// Whether the layout is one of arrays whose items have no bytes: inline values of a composite class without
/// fields.
fn is_hollow_array(classes: &Classes, layout: &FieldLayout) -> bool
    requires { layout.now.class_index < length classes.now }
    ensures { IfSome (slice_get classes.now layout.now.class_index) (λ c. IsTrue result ↔ IsHollowArray layout.now.shape c) }
{
    if !layout.shape.array || layout.shape.constant {
        return false;
    }
    is_hollow(classes, layout.class_index)
}

/// Whether the inline values of the class with this index have no bytes.
pub(crate) fn is_hollow(classes: &Classes, place: usize) -> bool
    requires { place < length classes.now }
    ensures { IfSome (slice_get classes.now place) (λ c. IsTrue result ↔ IsHollow c) }
{
    match classes.kind_at(place) {
        Kind::Composite => classes.layouts(place).is_empty(),
        _ => false,
    }
}

/// The offset after a run of `count` bytes.
#[inline(always)]
pub(crate) fn run_end(count: usize, at: usize, end: usize) -> Result<usize, Flaw>
    requires order { at ≤ end }
    ensures fits { IfOk result (λ to. (to ≡ at + count) × (to ≤ end)) }
    ensures short { IfErr result (λ flaw. (end < at + count) × (flaw ≡ record { offset = at; reason = Reason.Short })) }
{
    if end - at < count {
        return Err(Flaw::short(at));
    }
    Ok(at + count)
}

/// The offset after a string.
#[inline(never)]
fn string_end(bytes: &[u8], at: usize, end: usize) -> Result<usize, Flaw>
    requires order { at ≤ end }
    requires within { end ≤ length bytes.now }
    ensures exact { result ≡ end_or_flaw (run (base_format kinds.Text) bytes.now end at) }
    ensures range { IfOk result (λ to. (at ≤ to) × (to ≤ end)) }
{
    Ok(read_string(bytes, at, end)?.end)
}

/// As `string_end`. Most strings are null, empty, a key, or UTF-16 in integers of one byte.
#[inline(always)]
pub(crate) fn usual_string_end(bytes: &[u8], at: usize, end: usize) -> Result<usize, Flaw>
    requires order { at ≤ end }
    requires within { end ≤ length bytes.now }
    ensures exact { result ≡ end_or_flaw (run (base_format kinds.Text) bytes.now end at) }
    ensures range { IfOk result (λ to. (at ≤ to) × (to ≤ end)) }
{
    if is_bare(bytes, at, end) {
        return Ok(at + 1);
    }
    if is_key(bytes, at, end) {
        return integer_end(bytes, at + 1, end);
    }
    if let Some(to) = short_units_end(bytes, at, end) {
        return Ok(to);
    }
    let to = string_end(bytes, at, end)?;
    Ok(to)
}

/// The offset after a value of a base name.
#[tactic(auto, unfolding(jfr_base::specs::Formats::run))]
#[inline(always)]
pub(crate) fn base_end(kind: Kind, bytes: &[u8], at: usize, end: usize) -> Result<usize, Flaw>
    requires order { at ≤ end }
    requires within { end ≤ length bytes.now }
    ensures exact { result ≡ end_or_flaw (run (base_format kind) bytes.now end at) }
    ensures range { IfOk result (λ to. (at ≤ to) × (to ≤ end)) }
{
    match kind {
        Kind::Boolean | Kind::Byte => run_end(1, at, end),
        Kind::Char | Kind::Short | Kind::Int | Kind::Long => integer_end(bytes, at, end),
        Kind::Float => run_end(4, at, end),
        Kind::Double => run_end(8, at, end),
        Kind::Text => string_end(bytes, at, end),
        Kind::Composite => Ok(at),
    }
}

/// The offset after a value with this layout.
#[cycle(ends)]
#[tactic(auto, using(jfr_base::proofs::FormatEnds::ends), unfolding(jfr_base::specs::Formats::run, crate::specs::Reading::class_format))]
#[inline(always)]
pub(crate) fn layout_end<C, V: VisitKey<C>>(
    walk: &Walk<'_, '_, C>,
    layout: &FieldLayout,
    at: usize,
    levels: u32,
    visitor: &mut V,
) -> Result<usize, Flaw>
    requires placed { IsLayoutOrKey walk.now.classes.now layout.now }
    requires depth { DepthBound walk.now.classes.now levels layout.now.shape }
    requires order { at ≤ walk.now.end }
    requires ready { V.ready visitor.old walk.now.with.now }
    ensures exact { result ≡ end_or_flaw (run (shape_format (class_format (levels + 1) walk.now.classes.now) layout.now.shape) walk.now.bytes.now walk.now.end at) }
    ensures range { IfOk result (λ to. (at ≤ to) × (to ≤ walk.now.end)) }
    ensures visited { TakesRead (V.takes walk.now.with.now) at (run (shape_format (class_format (levels + 1) walk.now.classes.now) layout.now.shape) walk.now.bytes.now walk.now.end at) visitor.old visitor.new }
    ensures ready { V.ready visitor.new walk.now.with.now }
{
    match layout.form {
        Form::Integer => integer_end(walk.bytes, at, walk.end),
        Form::Raw(count) => run_end(usize::from(count), at, walk.end),
        Form::Key => key_end(*walk, layout.shape.class, at, visitor),
        Form::Text => text_end(*walk, layout.shape.class, at, visitor),
        Form::Fields | Form::Array => compound_end(walk, layout, at, levels, visitor),
    }
}

/// The offset after an array, or after an inline value of a composite class. The results of the calls are
/// unpacked by `?` and wrapped again by `Ok`: returned as they are, they would make `layout_end` return every
/// result through memory.
#[cycle(ends)]
#[tactic(auto, using(jfr_base::proofs::FormatEnds::ends), unfolding(jfr_base::specs::Formats::run, crate::specs::Reading::class_format))]
#[inline(always)]
fn compound_end<C, V: VisitKey<C>>(
    walk: &Walk<'_, '_, C>,
    layout: &FieldLayout,
    at: usize,
    levels: u32,
    visitor: &mut V,
) -> Result<usize, Flaw>
    requires compound { (layout.now.form ≡ forms.Fields) ⊎ (layout.now.form ≡ forms.Array) }
    requires placed { IsLayoutOrKey walk.now.classes.now layout.now }
    requires depth { DepthBound walk.now.classes.now levels layout.now.shape }
    requires order { at ≤ walk.now.end }
    requires ready { V.ready visitor.old walk.now.with.now }
    ensures exact { result ≡ end_or_flaw (run (shape_format (class_format (levels + 1) walk.now.classes.now) layout.now.shape) walk.now.bytes.now walk.now.end at) }
    ensures range { IfOk result (λ to. (at ≤ to) × (to ≤ walk.now.end)) }
    ensures visited { TakesRead (V.takes walk.now.with.now) at (run (shape_format (class_format (levels + 1) walk.now.classes.now) layout.now.shape) walk.now.bytes.now walk.now.end at) visitor.old visitor.new }
    ensures ready { V.ready visitor.new walk.now.with.now }
{
    match layout.form {
        Form::Fields => {
            let fields = walk.classes.layouts(layout.class_index);
            let to = fields_end(walk, fields, at, levels - 1, visitor)?;
            Ok(to)
        }
        _ => {
            let to = array_end(walk, layout, at, levels, visitor)?;
            Ok(to)
        }
    }
}

/// The offset after values with these layouts, one after another. This is never inlined, which keeps the walk
/// over a single value small.
#[cycle(ends)]
#[tactic(auto, using(jfr_base::proofs::FormatEnds::ends), unfolding(jfr_base::specs::Formats::run, crate::specs::Reading::class_format))]
#[inline(never)]
pub(crate) fn fields_end<C, V: VisitKey<C>>(
    walk: &Walk<'_, '_, C>,
    layouts: &[FieldLayout],
    at: usize,
    levels: u32,
    visitor: &mut V,
) -> Result<usize, Flaw>
    requires layouts { AllByRecursion (IsFieldLayout walk.now.classes.now) layouts.now }
    requires depth { AllByRecursion (λ s. DepthBound walk.now.classes.now levels s.shape) layouts.now }
    requires order { at ≤ walk.now.end }
    requires ready { V.ready visitor.old walk.now.with.now }
    ensures exact { result ≡ end_or_flaw (run (values_format (levels + 1) walk.now.classes.now layouts.now) walk.now.bytes.now walk.now.end at) }
    ensures range { IfOk result (λ to. (at ≤ to) × (to ≤ walk.now.end)) }
    ensures visited { TakesReadAll (V.takes walk.now.with.now) at (run (values_format (levels + 1) walk.now.classes.now layouts.now) walk.now.bytes.now walk.now.end at) visitor.old visitor.new }
    ensures ready { V.ready visitor.new walk.now.with.now }
{
    let mut to = at;
    for layout in layouts {
        to = layout_end(walk, layout, to, levels, visitor)?;
    }
    Ok(to)
}

/// The offset after the fields of an event, or of another value that isn't part of one. Each group of fused
/// fields is passed at once.
#[inline(always)]
fn all_fields_end<C, V: VisitKey<C>>(
    walk: Walk<'_, '_, C>,
    class_layout: &ClassLayout,
    at: usize,
    visitor: &mut V,
) -> Result<usize, Flaw>
    requires layouts { AllByRecursion (IsFieldLayout walk.classes.now) class_layout.now.layouts.items }
    requires depth { AllByRecursion (λ s. DepthBound walk.classes.now INNER_LEVELS s.shape) class_layout.now.layouts.items }
    requires fused_fields { AreFused class_layout.now.layouts.items class_layout.now.fused_fields.items }
    requires order { at ≤ walk.end }
    requires ready { V.ready visitor.old walk.with.now }
    ensures exact { result ≡ end_or_flaw (run (values_format (INNER_LEVELS + 1) walk.entry.classes.now class_layout.now.layouts.items) walk.entry.bytes.now walk.entry.end at) }
    ensures range { IfOk result (λ to. (at ≤ to) × (to ≤ walk.entry.end)) }
    ensures visited { TakesReadAll (V.takes walk.entry.with.now) at (run (values_format (INNER_LEVELS + 1) walk.entry.classes.now class_layout.now.layouts.items) walk.entry.bytes.now walk.entry.end at) visitor.old visitor.new }
    ensures ready { V.ready visitor.new walk.entry.with.now }
{
    let mut to = at;
    for fused in &class_layout.fused_fields {
        to = fused_end(walk, class_layout, fused, to, visitor)?;
    }
    Ok(to)
}

/// The offset after an array: a count, and this many items.
#[cycle(ends)]
#[tactic(auto, using(jfr_base::proofs::FormatEnds::ends), unfolding(jfr_base::specs::Formats::run, crate::specs::Reading::class_format))]
#[inline(never)]
fn array_end<C, V: VisitKey<C>>(
    walk: &Walk<'_, '_, C>,
    layout: &FieldLayout,
    at: usize,
    levels: u32,
    visitor: &mut V,
) -> Result<usize, Flaw>
    requires array { layout.now.shape.array ≡ true }
    requires placed { IsLayoutOrKey walk.now.classes.now layout.now }
    requires depth { DepthBound walk.now.classes.now levels layout.now.shape }
    requires order { at ≤ walk.now.end }
    requires ready { V.ready visitor.old walk.now.with.now }
    ensures exact { result ≡ end_or_flaw (run (shape_format (class_format (levels + 1) walk.now.classes.now) layout.now.shape) walk.now.bytes.now walk.now.end at) }
    ensures range { IfOk result (λ to. (at ≤ to) × (to ≤ walk.now.end)) }
    ensures visited { TakesRead (V.takes walk.now.with.now) at (run (shape_format (class_format (levels + 1) walk.now.classes.now) layout.now.shape) walk.now.bytes.now walk.now.end at) visitor.old visitor.new }
    ensures ready { V.ready visitor.new walk.now.with.now }
{
    let count = read_within(walk.bytes, at, walk.end)?;
    let item = item_layout(layout);
    let mut to = count.end;
    for _ in 0..count.value {
        to = layout_end(walk, &item, to, levels, visitor)?;
    }
    Ok(to)
}

/// The layout of an array's items.
pub fn item_layout(array: &FieldLayout) -> FieldLayout
    ensures { result ≡ layout_with (item_of array.now.shape) array.now.class_index array.now.kind }
{
    FieldLayout::new(item_of(array.shape), array.class_index, array.kind)
}
