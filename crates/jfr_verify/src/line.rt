//! A line of a receipt.

/// What refers to the entry of a line: an event or another entry.
#[derive(Clone, Copy)]
pub enum Parent {
    /// The event with this number.
    OfEvent(usize),
    /// The entry with this number.
    OfEntry(usize),
}

/// A line: an entry, and the parent that refers to it.
#[derive(Clone, Copy)]
pub struct Line {
    /// The number of the entry.
    pub entry: usize,
    /// What refers to it.
    pub parent: Parent,
}
