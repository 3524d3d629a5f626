//! How the values of fields are spelled.
ghost use Rattle.std.specs.Prelude.{◌≡◌};

use crate::{Form, Kind, Shape};

/// How the values of a field are spelled: what a walk over many values needs to know of the field and its
/// class.
#[derive(Clone, Copy, Debug)]
pub struct FieldLayout {
    /// The field's shape.
    pub shape: Shape,
    /// The index of the class of the shape.
    pub class_index: usize,
    /// The kind of that class.
    pub kind: Kind,
    /// The form of the shape's values, given that kind.
    pub form: Form,
}

impl FieldLayout {
    ghost use Rattle.jfr_layout.specs.Classes.{layout_with};

    /// The layout of a field with this shape, whose class has this index and this kind.
    pub fn new(shape: Shape, class_index: usize, kind: Kind) -> FieldLayout
        ensures { result ≡ layout_with shape class_index kind }
    {
        FieldLayout {
            shape,
            class_index,
            kind,
            form: Form::of(shape, kind),
        }
    }
}
