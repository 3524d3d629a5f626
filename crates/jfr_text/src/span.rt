//! A string in the bytes from which it was read.

/// The kind byte of the null string.
pub const NULL_BYTE: u8 = 0;

/// The kind byte of the empty string.
pub const EMPTY_BYTE: u8 = 1;

/// The kind byte of a key.
pub const KEY_BYTE: u8 = 2;

/// The kind byte of a string in UTF-8.
pub const UTF8_BYTE: u8 = 3;

/// The kind byte of a string in UTF-16.
pub const UNITS_BYTE: u8 = 4;

/// The kind byte of a string in Latin-1.
pub const LATIN_BYTE: u8 = 5;

/// How a string is spelled, by its kind byte from 0 to 5, in this order.
#[derive(Clone, Copy, Debug, PartialEq, Eq)]
pub enum StringKind {
    /// No string.
    Null,
    /// The string without characters.
    Empty,
    /// A key into the constant pool of the string's class.
    Key,
    /// A length, and bytes that should be UTF-8.
    Utf8,
    /// A count, and this many integers, of which the low 16 bits are a UTF-16 unit.
    Units,
    /// A length, and bytes, each of which is the code of a character.
    Latin,
}

/// A string in the bytes from which it was read.
#[derive(Clone, Copy, Debug)]
pub struct StringSpan<'a> {
    /// How it is spelled.
    pub kind: StringKind,
    /// The offset of its kind byte.
    pub at: usize,
    /// The offset after its last byte.
    pub end: usize,
    /// The bytes after the length or the count, for UTF-8, UTF-16 and Latin-1; otherwise empty.
    pub payload: &'a [u8],
    /// The length in bytes for UTF-8 and Latin-1, the number of integers for UTF-16; otherwise 0.
    pub count: u64,
    /// The key, if the string is one; otherwise 0.
    pub key: u64,
}
