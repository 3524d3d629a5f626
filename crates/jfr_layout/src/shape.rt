//! The shapes of values.
ghost use Rattle.std.specs.Prelude.{◌≡◌, false};

/// Which values a field has: a class with two marks.
#[derive(Clone, Copy, Debug, PartialEq, Eq)]
pub struct Shape {
    /// The id of the class.
    pub class: u64,
    /// The constant mark: the value, or each item of an array, is a key into the constant pool of the class.
    pub constant: bool,
    /// The array mark: the value is a count, followed by this many items.
    pub array: bool,
}

impl Shape {
    /// The shape without marks: one inline value of the class.
    #[inline(always)]
    pub fn inline(class: u64) -> Shape
        ensures { result ≡ record { class = class; constant = false; array = false } }
    {
        Shape {
            class,
            constant: false,
            array: false,
        }
    }
}
