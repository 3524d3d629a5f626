//! The visit of a value that is one leaf: a reference, a string, or a number.
ghost use Rattle.std.specs.Prelude.{◌≡◌, ◌≢◌, ◌≤◌, ◌∷◌, [], length, slice_range, true, false};
ghost use Rattle.jfr_layout.specs.declared.kind.Kind.TheVariants as kinds;
ghost use Rattle.jfr_value.specs.Leaves.{leaf_of};
ghost use Rattle.jfr_value.specs.Visits.{AreToVisit, Visits};
ghost use Rattle.jfr_value.specs.Walks.{IsLayoutIfKnown};

use crate::extent::{base_end, usual_string_end};
use crate::walk::Walk;
use crate::{Holder, Leaf, LeafKind, Steps, VisitLeaf};
use jfr_base::known_integer;
use jfr_layout::{FieldLayout, Kind};
use std::sync::ledger::Ledger;

/// Where a value starts, the most composite classes that can be nested from there on, and the innermost field around
/// it.
#[derive(Clone, Copy)]
pub(crate) struct ValueStart {
    pub(crate) at: usize,
    pub(crate) levels: u32,
    pub(crate) holder: Option<Holder>,
}

/// Visits a reference, whose key is a leaf, and returns where it ends.
#[inline(always)]
pub(crate) fn visit_key<C, V: VisitLeaf<C>, L: Ledger>(
    walk: &Walk<'_, '_, C>,
    layout: &FieldLayout,
    start: ValueStart,
    visitor: &mut V,
    steps: &mut Steps<L>,
) -> usize
    requires array { layout.now.shape.array ≡ false }
    requires constant { layout.now.shape.constant ≡ true }
    requires values { AreToVisit (V.admits walk.now.with.now) walk.now.classes.now walk.now.bytes.now walk.now.end (start.holder ∷ []) (layout.now.shape ∷ []) start.at }
    requires ready { V.ready visitor.old walk.now.with.now start.at }
    ensures visited { Visits (V.takes walk.now.with.now) walk.now.classes.now walk.now.bytes.now walk.now.end (start.holder ∷ []) (layout.now.shape ∷ []) start.at visitor.old steps.old [] [] result visitor.new steps.new }
    ensures ready { V.ready visitor.new walk.now.with.now result }
{
    let key = known_integer(walk.bytes, start.at, walk.end);
    let kind = LeafKind::Key(key.value);
    let leaf = leaf_to(walk.bytes, start, key.end, kind, layout.shape.class);
    visitor.visit_leaf(walk.with, leaf);
    steps.tick();
    key.end
}

/// Visits a string, which is a leaf, and returns where it ends.
#[inline(always)]
pub(crate) fn visit_text<C, V: VisitLeaf<C>, L: Ledger>(
    walk: &Walk<'_, '_, C>,
    layout: &FieldLayout,
    start: ValueStart,
    visitor: &mut V,
    steps: &mut Steps<L>,
) -> usize
    requires array { layout.now.shape.array ≡ false }
    requires constant { layout.now.shape.constant ≡ false }
    requires layout { IsLayoutIfKnown walk.now.classes.now layout.now }
    requires text { layout.now.kind ≡ kinds.Text }
    requires values { AreToVisit (V.admits walk.now.with.now) walk.now.classes.now walk.now.bytes.now walk.now.end (start.holder ∷ []) (layout.now.shape ∷ []) start.at }
    requires ready { V.ready visitor.old walk.now.with.now start.at }
    ensures visited { Visits (V.takes walk.now.with.now) walk.now.classes.now walk.now.bytes.now walk.now.end (start.holder ∷ []) (layout.now.shape ∷ []) start.at visitor.old steps.old [] [] result visitor.new steps.new }
    ensures ready { V.ready visitor.new walk.now.with.now result }
{
    let Ok(to) = usual_string_end(walk.bytes, start.at, walk.end) else {
        unreachable!()
    };
    let kind = LeafKind::Base(Kind::Text);
    let leaf = leaf_to(walk.bytes, start, to, kind, layout.shape.class);
    visitor.visit_leaf(walk.with, leaf);
    steps.tick();
    to
}

/// Visits a number or a truth value, which is a leaf that isn't passed to the visitor, and returns where it ends.
#[inline(always)]
pub(crate) fn visit_number<C, V: VisitLeaf<C>, L: Ledger>(
    walk: &Walk<'_, '_, C>,
    layout: &FieldLayout,
    start: ValueStart,
    visitor: &mut V,
    steps: &mut Steps<L>,
) -> usize
    requires array { layout.now.shape.array ≡ false }
    requires constant { layout.now.shape.constant ≡ false }
    requires layout { IsLayoutIfKnown walk.now.classes.now layout.now }
    requires base { layout.now.kind ≢ kinds.Composite }
    requires number { layout.now.kind ≢ kinds.Text }
    requires values { AreToVisit (V.admits walk.now.with.now) walk.now.classes.now walk.now.bytes.now walk.now.end (start.holder ∷ []) (layout.now.shape ∷ []) start.at }
    requires ready { V.ready visitor.old walk.now.with.now start.at }
    ensures visited { Visits (V.takes walk.now.with.now) walk.now.classes.now walk.now.bytes.now walk.now.end (start.holder ∷ []) (layout.now.shape ∷ []) start.at visitor.old steps.old [] [] result visitor.new steps.new }
    ensures ready { V.ready visitor.new walk.now.with.now result }
{
    let Ok(to) = base_end(layout.kind, walk.bytes, start.at, walk.end) else {
        unreachable!()
    };
    V::passes_numbers();
    steps.tick();
    to
}

/// The value that starts here and ends at an offset, as a leaf of this kind and class.
#[inline(always)]
pub(crate) fn leaf_to(
    bytes: &[u8],
    start: ValueStart,
    to: usize,
    kind: LeafKind,
    class: u64,
) -> Leaf<'_>
    requires order { start.at ≤ to }
    requires within { to ≤ length bytes.now }
    ensures { leaf_of result ≡ record { kind = kind; class = class; holder = start.holder; at = start.at; spelled = slice_range bytes.now start.at to } }
{
    Leaf {
        kind,
        class,
        holder: start.holder,
        at: start.at,
        spelled: &bytes[start.at..to],
    }
}
