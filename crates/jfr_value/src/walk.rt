//! What stays the same during a walk over a value.
ghost use Rattle.std.specs.Prelude.{◌≤◌, length};

use jfr_layout::Classes;
use std::alloc::AllocError;

/// The most composite values that can be nested without following a reference: the outermost, and at most 32 inside it
/// by inline steps (docs/FORMAT.md, Classes and shapes).
pub const LEVELS: u32 = 33;

/// The most composite classes that can be nested in the fields of the outermost.
pub(crate) const INNER_LEVELS: u32 = LEVELS - 1;

/// What stays the same during a walk over a value. The inlined walk over an event passes this by value, so
/// that all of it stays in registers; recursive calls pass it by reference.
pub struct Walk<'c, 'a, C> {
    /// The classes of the chunk.
    pub classes: &'c Classes,
    /// The bytes of the chunk.
    pub bytes: &'a [u8],
    /// The offset by which the value has to end.
    pub end: usize,
    /// What each call of the visitor is given, such as the pools.
    pub with: &'c C,
    ghost within: { end ≤ length bytes.now },
}

impl<'c, 'a, C> Clone for Walk<'c, 'a, C> {
    fn clone(&self) -> Result<Walk<'c, 'a, C>, AllocError> {
        Ok(*self)
    }
}

impl<'c, 'a, C> Copy for Walk<'c, 'a, C> {}
