//! What a value is to a frame.

/// What a value is to a frame. In each role a value has a text.
#[derive(Clone, Copy, Debug)]
pub(crate) enum Role {
    /// The frame itself. Its text is that of its field `method`.
    Frame,
    /// A method. Its text is the name of the class in its field `type`, a dot, and its own name.
    Method,
    /// A class. Its text is its name.
    Class,
    /// A name. Its text is the string in its field `string`.
    Name,
}
