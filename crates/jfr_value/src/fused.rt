//! The walk to a value's end over fused fields. All fields of an event are passed here.
ghost use Rattle.std.specs.Prelude.{◌≡◌, ℕ, ◌+◌, ◌^◌, ◌<◌, ◌≤◌, List, length, Ok, IfOk, IfSome, IsSome};
ghost use Rattle.std.specs.List.{AllByRecursion};
ghost use Rattle.jfr_base.specs.Formats.{run, end_or_flaw};
ghost use Rattle.jfr_layout.specs.Classes.{Classes, IsFieldLayout};
ghost use Rattle.jfr_layout.specs.declared.field_layout.FieldLayout.{FieldLayout};
ghost use Rattle.jfr_layout.specs.Fused.{IsEventPrelude, IsFused, Passes, passed_by};
ghost use Rattle.jfr_value.specs.Reading.{values_format};
ghost use Rattle.jfr_value.specs.Visits.{AreNumbers, TakesReadAll};
ghost use Rattle.jfr_value.specs.Walks.{DepthBound};
ghost use Rattle.jfr_value.specs.declared.walk.TheConstants.{INNER_LEVELS};

use crate::VisitKey;
use crate::extent::{fields_end, run_end};
use crate::integers::{integer_end, integers_end};
use crate::keys::{key_end, text_end};
use crate::walk::{INNER_LEVELS, Walk};
use jfr_base::Flaw;
use jfr_layout::{ClassLayout, FieldLayout, FusedFields, FusedKind};

/// The offset after fused fields. If they can't be passed at once, they are walked one by one.
#[inline(always)]
pub(crate) fn fused_end<C, V: VisitKey<C>>(
    walk: Walk<'_, '_, C>,
    class_layout: &ClassLayout,
    fused: &FusedFields,
    at: usize,
    visitor: &mut V,
) -> Result<usize, Flaw>
    requires layouts { AllByRecursion (IsFieldLayout walk.classes.now) class_layout.now.layouts.items }
    requires depth { AllByRecursion (λ s. DepthBound walk.classes.now INNER_LEVELS s.shape) class_layout.now.layouts.items }
    requires fused { IsFused class_layout.now.layouts.items fused.now }
    requires order { at ≤ walk.end }
    requires ready { V.ready visitor.old walk.with.now }
    ensures exact { result ≡ end_or_flaw (run (values_format (INNER_LEVELS + 1) walk.entry.classes.now (passed_by class_layout.now.layouts.items fused.now)) walk.entry.bytes.now walk.entry.end at) }
    ensures range { IfOk result (λ to. (at ≤ to) × (to ≤ walk.entry.end)) }
    ensures visited { TakesReadAll (V.takes walk.entry.with.now) at (run (values_format (INNER_LEVELS + 1) walk.entry.classes.now (passed_by class_layout.now.layouts.items fused.now)) walk.entry.bytes.now walk.entry.end at) visitor.old visitor.new }
    ensures ready { V.ready visitor.new walk.entry.with.now }
{
    match fused.kind {
        FusedKind::EventPrelude { thread, trace } => {
            prelude_end(walk, u64::from(thread), u64::from(trace), at, visitor)
        }
        FusedKind::OneInteger => integer_end(walk.bytes, at, walk.end),
        FusedKind::TwoIntegers => integers_end(walk.bytes, at, walk.end, 2),
        FusedKind::ThreeIntegers => integers_end(walk.bytes, at, walk.end, 3),
        FusedKind::FourIntegers => integers_end(walk.bytes, at, walk.end, 4),
        FusedKind::Raw(count) if usize::from(count) <= walk.end - at => Ok(at + usize::from(count)),
        FusedKind::Key(class) => key_end(walk, class, at, visitor),
        FusedKind::Text(class) => text_end(walk, class, at, visitor),
        _ => each_end(walk, class_layout, fused, at, visitor),
    }
}

/// The layouts of fused fields.
#[inline(always)]
pub(crate) fn fused_layouts<'k>(
    class_layout: &'k ClassLayout,
    fused: &FusedFields,
) -> &'k [FieldLayout]
    requires { IsFused class_layout.now.layouts.items fused.now }
    ensures exact { result.now ≡ passed_by class_layout.now.layouts.items fused.now }
    ensures few { length class_layout.now.layouts.items < 2 ^ 64 }
{
    &class_layout.layouts[fused.first..fused.first + fused.fields]
}

/// The offset after fused fields of numbers that are there. `None` if other fields are fused.
#[inline(always)]
pub(crate) fn numbers_end(bytes: &[u8], fused: &FusedFields, at: usize, end: usize) -> Option<usize>
    requires order { at ≤ end }
    requires within { end ≤ length bytes.now }
    ensures numbers { (layouts : List FieldLayout) → Passes fused.now.kind layouts → IsSome result → AreNumbers layouts }
    ensures exact { (k : Classes) (levels : ℕ) (layouts : List FieldLayout) → AllByRecursion (IsFieldLayout k) layouts → Passes fused.now.kind layouts → IfSome result (λ to. Ok to ≡ end_or_flaw (run (values_format (levels + 1) k layouts) bytes.now end at)) }
    ensures range { IfSome result (λ to. (at ≤ to) × (to ≤ end)) }
{
    match fused.kind {
        FusedKind::OneInteger => integer_end(bytes, at, end).ok(),
        FusedKind::TwoIntegers => integers_end(bytes, at, end, 2).ok(),
        FusedKind::ThreeIntegers => integers_end(bytes, at, end, 3).ok(),
        FusedKind::FourIntegers => integers_end(bytes, at, end, 4).ok(),
        FusedKind::Raw(count) => run_end(usize::from(count), at, end).ok(),
        _ => None,
    }
}

/// The offset after fused fields, walked field by field. The result is unpacked here, so that the fast paths
/// of `fused_end` keep theirs in registers.
#[inline(always)]
fn each_end<C, V: VisitKey<C>>(
    walk: Walk<'_, '_, C>,
    class_layout: &ClassLayout,
    fused: &FusedFields,
    at: usize,
    visitor: &mut V,
) -> Result<usize, Flaw>
    requires layouts { AllByRecursion (IsFieldLayout walk.classes.now) class_layout.now.layouts.items }
    requires depth { AllByRecursion (λ s. DepthBound walk.classes.now INNER_LEVELS s.shape) class_layout.now.layouts.items }
    requires fused { IsFused class_layout.now.layouts.items fused.now }
    requires order { at ≤ walk.end }
    requires ready { V.ready visitor.old walk.with.now }
    ensures exact { result ≡ end_or_flaw (run (values_format (INNER_LEVELS + 1) walk.entry.classes.now (passed_by class_layout.now.layouts.items fused.now)) walk.entry.bytes.now walk.entry.end at) }
    ensures range { IfOk result (λ to. (at ≤ to) × (to ≤ walk.entry.end)) }
    ensures visited { TakesReadAll (V.takes walk.entry.with.now) at (run (values_format (INNER_LEVELS + 1) walk.entry.classes.now (passed_by class_layout.now.layouts.items fused.now)) walk.entry.bytes.now walk.entry.end at) visitor.old visitor.new }
    ensures ready { V.ready visitor.new walk.entry.with.now }
{
    let fields = fused_layouts(class_layout, fused);
    let to = fields_end(&walk, fields, at, INNER_LEVELS, visitor)?;
    Ok(to)
}

/// The offset after the event prelude: two integers, and references of these classes.
#[inline(always)]
fn prelude_end<C, V: VisitKey<C>>(
    walk: Walk<'_, '_, C>,
    thread: u64,
    trace: u64,
    at: usize,
    visitor: &mut V,
) -> Result<usize, Flaw>
    requires order { at ≤ walk.end }
    requires ready { V.ready visitor.old walk.with.now }
    ensures exact { (k : Classes) (levels : ℕ) (layouts : List FieldLayout) → AllByRecursion (IsFieldLayout k) layouts → IsEventPrelude thread trace layouts → result ≡ end_or_flaw (run (values_format (levels + 1) k layouts) walk.entry.bytes.now walk.entry.end at) }
    ensures range { IfOk result (λ to. (at ≤ to) × (to ≤ walk.entry.end)) }
    ensures visited { (k : Classes) (levels : ℕ) (layouts : List FieldLayout) → AllByRecursion (IsFieldLayout k) layouts → IsEventPrelude thread trace layouts → TakesReadAll (V.takes walk.entry.with.now) at (run (values_format (levels + 1) k layouts) walk.entry.bytes.now walk.entry.end at) visitor.old visitor.new }
    ensures ready { V.ready visitor.new walk.entry.with.now }
{
    let times = integers_end(walk.bytes, at, walk.end, 2)?;
    let threads = key_end(walk, thread, times, visitor)?;
    let traces = key_end(walk, trace, threads, visitor)?;
    Ok(traces)
}
