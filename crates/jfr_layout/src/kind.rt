//! The kinds of classes.
ghost use Rattle.std.specs.Prelude.{◌≡◌};

use crate::is_text;
use jfr_base::Text;

/// How the inline values of a class are encoded: by one of nine base kinds, which the class's name
/// determines, or as a composite (docs/FORMAT.md, Classes and shapes).
#[derive(Clone, Copy, Debug, PartialEq, Eq)]
pub enum Kind {
    /// One raw byte.
    Boolean,
    /// One raw byte, signed.
    Byte,
    /// A compressed integer, of which the low 16 bits count.
    Char,
    /// A compressed integer, of which the low 16 bits count, signed.
    Short,
    /// A compressed integer, of which the low 32 bits count, signed.
    Int,
    /// A compressed integer, signed.
    Long,
    /// Four raw bytes, big-endian: an IEEE 754 number.
    Float,
    /// Eight raw bytes, big-endian: an IEEE 754 number.
    Double,
    /// A string.
    Text,
    /// The values of the class's fields, in order.
    Composite,
}

impl Kind {
    ghost use Rattle.jfr_layout.specs.Classes.{kind_of};

    /// The kind of a class with this name.
    pub fn of(name: &Text) -> Kind
        ensures { result ≡ kind_of name.now }
    {
        if is_text(name, "boolean") {
            return Kind::Boolean;
        }
        if is_text(name, "byte") {
            return Kind::Byte;
        }
        if is_text(name, "char") {
            return Kind::Char;
        }
        if is_text(name, "short") {
            return Kind::Short;
        }
        if is_text(name, "int") {
            return Kind::Int;
        }
        if is_text(name, "long") {
            return Kind::Long;
        }
        if is_text(name, "float") {
            return Kind::Float;
        }
        if is_text(name, "double") {
            return Kind::Double;
        }
        if is_text(name, "java.lang.String") {
            return Kind::Text;
        }
        Kind::Composite
    }
}
