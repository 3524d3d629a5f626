//! The walk from leaf to leaf on which `Leaves` is built. Its caller can stop at any leaf. It is for programs that
//! read values; jfr's commands need all leaves, and `visit_leaves` is faster.
ghost use Rattle.std.specs.Prelude.{◌≡◌, ◌≢◌, ◌⊎◌, ◌+◌, ◌*◌, ◌≤◌, ◌<◌, [], ◌∷◌, ◌++◌, length, true, false, Some, if◌then◌else◌, IfSome, MatchOption, slice_get, slice_range};
ghost use Rattle.jfr_layout.specs.Classes.{Sound, find_class, kind_of};
ghost use Rattle.jfr_layout.specs.declared.class.ClassInfo.{ClassInfo};
ghost use Rattle.jfr_layout.specs.declared.kind.Kind.TheVariants as kinds;
ghost use Rattle.jfr_value.specs.Leaves.{leaf_of};
ghost use Rattle.jfr_value.specs.Nodes.{AreValues};
ghost use Rattle.jfr_value.specs.Values.{IsHollow, Values};
ghost use Rattle.jfr_value.specs.declared.stack.Frame.TheVariants.{Fields, Items};
ghost use Rattle.jfr_value.specs.Walks.{AreFrames, GoesOn, IsFrame, AreRemaining, IsClassIndexIfKnown, DepthBound, frame_holders, frame_shapes, leaves_held, remaining_holders, remaining_shapes, size_of_all};

use crate::extent::{base_end, is_hollow};
use crate::part::item_of;
use crate::stack::{Frame, NextValue, RemainingFields, Stack};
use crate::walk::Walk;
use crate::{Holder, Leaf, LeafKind};
use jfr_base::known_integer;
use jfr_layout::{Classes, Kind, Shape};

/// The state of a walk: the offset that it has reached, and the values that are left. Those of the last frame
/// come first.
#[derive(Drop)]
pub(crate) struct Cursor {
    pub(crate) at: usize,
    pub(crate) stack: Stack,
}

/// The result of a step of a walk.
#[derive(Drop)]
pub(crate) enum Progress<'a> {
    /// No value is left.
    Ended,
    /// No leaf yet: the walk went into a value's parts, or out of a frame that is done.
    Onward,
    /// The next leaf.
    Found(Leaf<'a>),
}

/// The next leaf.
pub(crate) fn next_in<'a>(cursor: &mut Cursor, walk: &Walk<'_, 'a, ()>) -> Option<Leaf<'a>>
    requires sound { Sound walk.now.classes.now }
    requires frames { AreFrames walk.now.classes.now 0 cursor.old.stack }
    requires remaining { (vs : Values) × AreRemaining walk.now.classes.now walk.now.bytes.now walk.now.end cursor.old vs }
    ensures frames { AreFrames walk.now.classes.now 0 cursor.new.stack }
    ensures remaining { (vs : Values) → AreRemaining walk.now.classes.now walk.now.bytes.now walk.now.end cursor.old vs → MatchOption result ((ws : Values) × AreRemaining walk.now.classes.now walk.now.bytes.now walk.now.end cursor.new ws × (leaves_held (remaining_holders walk.now.classes.now cursor.old.stack) cursor.old.at vs ≡ []) × (leaves_held (remaining_holders walk.now.classes.now cursor.new.stack) cursor.new.at ws ≡ [])) (λ leaf. (ws : Values) × AreRemaining walk.now.classes.now walk.now.bytes.now walk.now.end cursor.new ws × (leaves_held (remaining_holders walk.now.classes.now cursor.old.stack) cursor.old.at vs ≡ leaf_of leaf ∷ leaves_held (remaining_holders walk.now.classes.now cursor.new.stack) cursor.new.at ws)) }
{
    loop {
        match advance(cursor, walk) {
            Progress::Ended => return None,
            Progress::Onward => {}
            Progress::Found(leaf) => return Some(leaf),
        }
    }
}

/// Takes one step: to the last frame's next value, or out of that frame.
fn advance<'a>(cursor: &mut Cursor, walk: &Walk<'_, 'a, ()>) -> Progress<'a>
    requires sound { Sound walk.now.classes.now }
    requires frames { AreFrames walk.now.classes.now 0 cursor.old.stack }
    requires remaining { (vs : Values) × AreRemaining walk.now.classes.now walk.now.bytes.now walk.now.end cursor.old vs }
    ensures frames { AreFrames walk.now.classes.now 0 cursor.new.stack }
    ensures remaining { (vs : Values) → AreRemaining walk.now.classes.now walk.now.bytes.now walk.now.end cursor.old vs → GoesOn walk.now.classes.now walk.now.bytes.now walk.now.end (remaining_holders walk.now.classes.now cursor.old.stack) cursor.old.at vs (size_of_all vs + length cursor.old.stack) cursor.new result }
{
    match cursor.stack.pop() {
        None => Progress::Ended,
        Some(Frame::Fields(fields)) => next_field(cursor, walk, fields),
        Some(Frame::Items { value, remaining }) => next_item(cursor, walk, value, remaining),
    }
}

/// Enters the next field of a frame that was taken from the stack, if one is left.
fn next_field<'a>(
    cursor: &mut Cursor,
    walk: &Walk<'_, 'a, ()>,
    fields: RemainingFields,
) -> Progress<'a>
    requires sound { Sound walk.now.classes.now }
    requires frames { AreFrames walk.now.classes.now 0 cursor.old.stack }
    requires frame { IsFrame walk.now.classes.now (length cursor.old.stack + 1) (Fields fields) }
    requires remaining { (vs : Values) × AreValues walk.now.classes.now walk.now.bytes.now cursor.old.at walk.now.end (frame_shapes walk.now.classes.now (Fields fields) ++ remaining_shapes walk.now.classes.now cursor.old.stack) vs }
    ensures frames { AreFrames walk.now.classes.now 0 cursor.new.stack }
    ensures remaining { (vs : Values) → AreValues walk.now.classes.now walk.now.bytes.now cursor.old.at walk.now.end (frame_shapes walk.now.classes.now (Fields fields) ++ remaining_shapes walk.now.classes.now cursor.old.stack) vs → GoesOn walk.now.classes.now walk.now.bytes.now walk.now.end (frame_holders walk.now.classes.now (Fields fields) ++ remaining_holders walk.now.classes.now cursor.old.stack) cursor.old.at vs (size_of_all vs + (length cursor.old.stack + 1)) cursor.new result }
{
    let layouts = walk.classes.layouts(fields.place);
    if fields.number >= layouts.len() {
        return Progress::Onward;
    }
    let layout = layouts[fields.number];
    cursor.stack.push(Frame::Fields(RemainingFields {
        class: fields.class,
        place: fields.place,
        number: fields.number + 1,
        levels: fields.levels,
    }));
    let value = NextValue {
        shape: layout.shape,
        place: layout.class_index,
        levels: fields.levels,
        holder: Some(Holder {
            class: fields.class,
            field: fields.number,
        }),
    };
    enter(cursor, walk, value)
}

/// Enters the next item of a frame that was taken from the stack, if one is left.
fn next_item<'a>(
    cursor: &mut Cursor,
    walk: &Walk<'_, 'a, ()>,
    value: NextValue,
    remaining: u64,
) -> Progress<'a>
    requires sound { Sound walk.now.classes.now }
    requires frames { AreFrames walk.now.classes.now 0 cursor.old.stack }
    requires frame { IsFrame walk.now.classes.now (length cursor.old.stack + 1) (Items value remaining) }
    requires remaining { (vs : Values) × AreValues walk.now.classes.now walk.now.bytes.now cursor.old.at walk.now.end (frame_shapes walk.now.classes.now (Items value remaining) ++ remaining_shapes walk.now.classes.now cursor.old.stack) vs }
    ensures frames { AreFrames walk.now.classes.now 0 cursor.new.stack }
    ensures remaining { (vs : Values) → AreValues walk.now.classes.now walk.now.bytes.now cursor.old.at walk.now.end (frame_shapes walk.now.classes.now (Items value remaining) ++ remaining_shapes walk.now.classes.now cursor.old.stack) vs → GoesOn walk.now.classes.now walk.now.bytes.now walk.now.end (frame_holders walk.now.classes.now (Items value remaining) ++ remaining_holders walk.now.classes.now cursor.old.stack) cursor.old.at vs (size_of_all vs + (length cursor.old.stack + 1)) cursor.new result }
{
    if remaining == 0 {
        return Progress::Onward;
    }
    cursor.stack.push(Frame::Items {
        value,
        remaining: remaining - 1,
    });
    enter(cursor, walk, value)
}

/// Enters the next value.
fn enter<'a>(cursor: &mut Cursor, walk: &Walk<'_, 'a, ()>, value: NextValue) -> Progress<'a>
    requires sound { Sound walk.now.classes.now }
    requires frames { AreFrames walk.now.classes.now 0 cursor.old.stack }
    requires height { length cursor.old.stack + 2 * value.levels ≤ (if value.shape.array then 67 else 68) }
    requires placed { IsClassIndexIfKnown walk.now.classes.now value.shape value.place }
    requires depth { DepthBound walk.now.classes.now value.levels value.shape }
    requires remaining { (vs : Values) × AreValues walk.now.classes.now walk.now.bytes.now cursor.old.at walk.now.end (value.shape ∷ remaining_shapes walk.now.classes.now cursor.old.stack) vs }
    ensures frames { AreFrames walk.now.classes.now 0 cursor.new.stack }
    ensures remaining { (vs : Values) → AreValues walk.now.classes.now walk.now.bytes.now cursor.old.at walk.now.end (value.shape ∷ remaining_shapes walk.now.classes.now cursor.old.stack) vs → GoesOn walk.now.classes.now walk.now.bytes.now walk.now.end (value.holder ∷ remaining_holders walk.now.classes.now cursor.old.stack) cursor.old.at vs (size_of_all vs + length cursor.old.stack) cursor.new result }
{
    if value.shape.array {
        return enter_array(cursor, walk, value);
    }
    if value.shape.constant {
        return enter_key(cursor, walk, value);
    }
    match walk.classes.kind_at(value.place) {
        Kind::Composite => {
            cursor.stack.push(Frame::Fields(RemainingFields {
                class: value.shape.class,
                place: value.place,
                number: 0,
                levels: value.levels - 1,
            }));
            Progress::Onward
        }
        kind => enter_base(cursor, walk, value, kind),
    }
}

/// Enters an array: its count is a leaf, and its items come next.
fn enter_array<'a>(cursor: &mut Cursor, walk: &Walk<'_, 'a, ()>, value: NextValue) -> Progress<'a>
    requires array { value.shape.array ≡ true }
    requires frames { AreFrames walk.now.classes.now 0 cursor.old.stack }
    requires height { length cursor.old.stack + 2 * value.levels ≤ 67 }
    requires placed { IsClassIndexIfKnown walk.now.classes.now value.shape value.place }
    requires depth { DepthBound walk.now.classes.now value.levels value.shape }
    requires remaining { (vs : Values) × AreValues walk.now.classes.now walk.now.bytes.now cursor.old.at walk.now.end (value.shape ∷ remaining_shapes walk.now.classes.now cursor.old.stack) vs }
    ensures frames { AreFrames walk.now.classes.now 0 cursor.new.stack }
    ensures remaining { (vs : Values) → AreValues walk.now.classes.now walk.now.bytes.now cursor.old.at walk.now.end (value.shape ∷ remaining_shapes walk.now.classes.now cursor.old.stack) vs → GoesOn walk.now.classes.now walk.now.bytes.now walk.now.end (value.holder ∷ remaining_holders walk.now.classes.now cursor.old.stack) cursor.old.at vs (size_of_all vs + length cursor.old.stack) cursor.new result }
{
    let count = known_integer(walk.bytes, cursor.at, walk.end);
    let kind = LeafKind::Count(count.value);
    let leaf = leaf_to(walk.bytes, cursor.at, count.end, kind, value);
    cursor.at = count.end;
    let item = NextValue {
        shape: item_of(value.shape),
        place: value.place,
        levels: value.levels,
        holder: value.holder,
    };
    cursor.stack.push(Frame::Items {
        value: item,
        remaining: items_to_walk(walk.classes, value.shape, value.place, count.value),
    });
    Progress::Found(leaf)
}

/// The number of items of an array that are walked: none if items have no bytes.
pub(crate) fn items_to_walk(classes: &Classes, shape: Shape, place: usize, count: u64) -> u64
    ensures { (result ≡ count) ⊎ ((result ≡ 0) × (shape.constant ≡ false) × (place < length classes.now) × IfSome (slice_get classes.now place) IsHollow) }
{
    if shape.constant || place >= classes.len() {
        return count;
    }
    if is_hollow(classes, place) {
        return 0;
    }
    count
}

/// Returns the key of a reference as a leaf.
fn enter_key<'a>(cursor: &mut Cursor, walk: &Walk<'_, 'a, ()>, value: NextValue) -> Progress<'a>
    requires array { value.shape.array ≡ false }
    requires constant { value.shape.constant ≡ true }
    requires remaining { (vs : Values) × AreValues walk.now.classes.now walk.now.bytes.now cursor.old.at walk.now.end (value.shape ∷ remaining_shapes walk.now.classes.now cursor.old.stack) vs }
    ensures stack { cursor.new.stack ≡ cursor.old.stack }
    ensures remaining { (vs : Values) → AreValues walk.now.classes.now walk.now.bytes.now cursor.old.at walk.now.end (value.shape ∷ remaining_shapes walk.now.classes.now cursor.old.stack) vs → GoesOn walk.now.classes.now walk.now.bytes.now walk.now.end (value.holder ∷ remaining_holders walk.now.classes.now cursor.old.stack) cursor.old.at vs (size_of_all vs + length cursor.old.stack) cursor.new result }
{
    let key = known_integer(walk.bytes, cursor.at, walk.end);
    let kind = LeafKind::Key(key.value);
    let leaf = leaf_to(walk.bytes, cursor.at, key.end, kind, value);
    cursor.at = key.end;
    Progress::Found(leaf)
}

/// Returns a value of a base name as a leaf.
fn enter_base<'a>(
    cursor: &mut Cursor,
    walk: &Walk<'_, 'a, ()>,
    value: NextValue,
    kind: Kind,
) -> Progress<'a>
    requires array { value.shape.array ≡ false }
    requires constant { value.shape.constant ≡ false }
    requires class { (c : ClassInfo) × (find_class walk.now.classes.now value.shape.class ≡ Some c) × (kind ≡ kind_of c.name) }
    requires base { kind ≢ kinds.Composite }
    requires remaining { (vs : Values) × AreValues walk.now.classes.now walk.now.bytes.now cursor.old.at walk.now.end (value.shape ∷ remaining_shapes walk.now.classes.now cursor.old.stack) vs }
    ensures stack { cursor.new.stack ≡ cursor.old.stack }
    ensures remaining { (vs : Values) → AreValues walk.now.classes.now walk.now.bytes.now cursor.old.at walk.now.end (value.shape ∷ remaining_shapes walk.now.classes.now cursor.old.stack) vs → GoesOn walk.now.classes.now walk.now.bytes.now walk.now.end (value.holder ∷ remaining_holders walk.now.classes.now cursor.old.stack) cursor.old.at vs (size_of_all vs + length cursor.old.stack) cursor.new result }
{
    let Ok(to) = base_end(kind, walk.bytes, cursor.at, walk.end) else {
        unreachable!()
    };
    let leaf = leaf_to(walk.bytes, cursor.at, to, LeafKind::Base(kind), value);
    cursor.at = to;
    Progress::Found(leaf)
}

/// The value from one offset up to another, as a leaf of this kind.
fn leaf_to<'a>(bytes: &'a [u8], at: usize, to: usize, kind: LeafKind, value: NextValue) -> Leaf<'a>
    requires order { at ≤ to }
    requires within { to ≤ length bytes.now }
    ensures { leaf_of result ≡ record { kind = kind; class = value.shape.class; holder = value.holder; at = at; spelled = slice_range bytes.now at to } }
{
    Leaf {
        kind,
        class: value.shape.class,
        holder: value.holder,
        at,
        spelled: &bytes[at..to],
    }
}
