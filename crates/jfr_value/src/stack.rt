//! The stack of a walk over leaves: what is left to walk.
ghost use Rattle.std.specs.Prelude.{◌≡◌, ◌+◌, ◌<◌, ◌↔◌, [], ◌∷◌, ◌++◌, length, option_to_list, IsSome, IfSome};
ghost use Rattle.jfr_value.specs.Stacks.{far_frames};

use crate::Holder;
use crate::walk::LEVELS;
use arrayvec::ArrayVec;
use jfr_layout::Shape;
use std::marker::Model;

/// The most frames that a walk can have: one for the value, two for each level (an array and a composite
/// value), and one for an array in the deepest of them.
pub(crate) const FRAMES: usize = 2 * LEVELS as usize + 2;

/// The number of frames in the part that every walk has.
const NEAR: usize = 6;

/// The number of frames in the part that is made only for deeper values.
const FAR: usize = FRAMES - NEAR;

/// A value that is walked next.
#[derive(Clone, Copy, Drop)]
pub(crate) struct NextValue {
    pub(crate) shape: Shape,
    /// The index of the shape's class.
    pub(crate) place: usize,
    /// The most composite classes that can be nested from here on.
    pub(crate) levels: u32,
    /// The innermost field around it.
    pub(crate) holder: Option<Holder>,
}

/// The fields of a composite value from a number on.
#[derive(Clone, Copy, Drop)]
pub(crate) struct RemainingFields {
    pub(crate) class: u64,
    /// The index of the class.
    pub(crate) place: usize,
    /// The number of the next field.
    pub(crate) number: usize,
    /// The most composite classes that are nested in the fields.
    pub(crate) levels: u32,
}

/// What is left to walk of one value with parts.
#[derive(Clone, Copy, Drop)]
pub(crate) enum Frame {
    /// Fields of a composite value.
    Fields(RemainingFields),
    /// `remaining` values, each like `value`.
    Items { value: NextValue, remaining: u64 },
}

impl Default for Frame {
    fn default() -> Frame {
        Frame::Fields(RemainingFields {
            class: 0,
            place: 0,
            number: 0,
            levels: 0,
        })
    }
}

/// The frames of a walk. An `ArrayVec` initializes all of its memory when it is made, and a walk is made for
/// each node, so the part that few nodes need is made only for those.
#[derive(Drop)]
pub(crate) struct Stack {
    near: ArrayVec<Frame, NEAR>,
    far: Option<ArrayVec<Frame, FAR>>,
}

impl Model for Stack {
    ghost use Rattle.std.specs.Prelude.{◌≡◌, ◌<◌, List, [], ◌++◌, length, IfSome};
    ghost use Rattle.jfr_value.specs.declared.stack.Frame.{Frame};

    ghost Value = { List Frame };

    ghost use Rattle.jfr_value.specs.Stacks.{far_frames};

    ghost view = { λ s. s.near.items ++ far_frames s.far };

    ghost invariant = { λ s. IfSome s.far (λ far. (length s.near.items ≡ 6) × (0 < length far.items)) };
}

impl Stack {
    /// An empty stack.
    pub(crate) fn new() -> Stack
        ensures { result ≡ [] }
    {
        Stack {
            near: ArrayVec::new(),
            far: None,
        }
    }

    /// Puts a frame on the stack.
    #[inline]
    pub(crate) fn push(&mut self, frame: Frame)
        requires { length self.old < FRAMES }
        ensures items { self.new ≡ self.old ++ frame ∷ [] }
        ensures len { length self.new ≡ length self.old + 1 }
    {
        if self.far.is_none() && !self.near.is_full() {
            self.near.push(frame);
        } else {
            push_far(&mut self.far, frame);
        }
    }

    /// Takes the last frame off the stack.
    #[inline]
    pub(crate) fn pop(&mut self) -> Option<Frame>
        ensures items { self.old ≡ self.new ++ option_to_list result }
        ensures variant { IsSome result ↔ (0 < length self.old) }
    {
        if self.far.is_none() {
            return self.near.pop();
        }
        pop_far(&mut self.far)
    }
}

#[cold]
fn push_far(far: &mut Option<ArrayVec<Frame, FAR>>, frame: Frame)
    requires { length (far_frames far.old) < FAR }
    ensures { IfSome far.new (λ v. v.items ≡ far_frames far.old ++ frame ∷ []) × IsSome far.new }
{
    let mut frames = match far.take() {
        Some(frames) => frames,
        None => ArrayVec::new(),
    };
    frames.push(frame);
    *far = Some(frames);
}

#[cold]
fn pop_far(far: &mut Option<ArrayVec<Frame, FAR>>) -> Option<Frame>
    requires { 0 < length (far_frames far.old) }
    ensures items { far_frames far.old ≡ far_frames far.new ++ option_to_list result }
    ensures some { IsSome result }
    ensures kept { IfSome far.new (λ v. 0 < length v.items) }
{
    match far.take() {
        None => None,
        Some(mut frames) => {
            let last = frames.pop();
            if !frames.is_empty() {
                *far = Some(frames);
            }
            last
        }
    }
}
