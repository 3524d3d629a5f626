//! The forms of values.
ghost use Rattle.std.specs.Prelude.{◌≡◌};

use crate::{Kind, Shape};

/// How the values of a shape are spelled.
#[derive(Clone, Copy, Debug, PartialEq, Eq)]
pub enum Form {
    /// An array: a count, and this many items.
    Array,
    /// A key into the constant pool of the class.
    Key,
    /// A compressed integer.
    Integer,
    /// This many raw bytes.
    Raw(u8),
    /// A string.
    Text,
    /// The values of the class's fields, in order.
    Fields,
}

impl Form {
    ghost use Rattle.jfr_layout.specs.Classes.{form_of};

    /// The form of a shape with a class of this kind.
    pub fn of(shape: Shape, kind: Kind) -> Form
        ensures { result ≡ form_of shape kind }
    {
        if shape.array {
            return Form::Array;
        }
        if shape.constant {
            return Form::Key;
        }
        match kind {
            Kind::Boolean | Kind::Byte => Form::Raw(1),
            Kind::Char | Kind::Short | Kind::Int | Kind::Long => Form::Integer,
            Kind::Float => Form::Raw(4),
            Kind::Double => Form::Raw(8),
            Kind::Text => Form::Text,
            Kind::Composite => Form::Fields,
        }
    }
}
