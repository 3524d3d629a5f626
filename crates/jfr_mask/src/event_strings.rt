//! The masked strings of a chunk's events.
ghost use Rattle.std.specs.Prelude.{◌≡◌, ◌+◌, ◌≤◌, [], get_or, length, IfSome};
ghost use Rattle.jfr_value.specs.Leaves.{leaf_of};
ghost use Rattle.jfr_mask.specs.EventStrings.{start_of, string_at, string_leaf};

use jfr_layout::Kind;
use jfr_value::{Leaf, LeafKind};
use std::alloc::Global;
use std::ops::Range;

/// A masked string of an event. A chunk can have millions, so each takes few bytes.
#[derive(Clone, Copy)]
pub(crate) struct StringAt {
    /// Its class.
    class: u64,
    /// The offset of its first byte.
    at: u32,
    /// The number of its bytes.
    len: u32,
}

impl StringAt {
    /// Where a leaf is. 32 bits are enough for the offsets in a chunk.
    pub(crate) fn of(leaf: &Leaf<'_>) -> Option<StringAt>
        ensures { IfSome result (λ string. string ≡ string_at (leaf_of leaf.now)) }
    {
        let at = u32::try_from(leaf.at).ok()?;
        let len = u32::try_from(leaf.spelled.len()).ok()?;
        Some(StringAt {
            class: leaf.class,
            at,
            len,
        })
    }

    /// The offset of its first byte.
    pub(crate) fn start(self) -> usize
        ensures { result ≡ self.at }
    {
        self.at as usize
    }

    /// The offset after it.
    pub(crate) fn end(self) -> usize
        ensures { result ≡ self.at + self.len }
    {
        self.at as usize + self.len as usize
    }

    /// The string as a leaf, in a chunk with these bytes. Its holder doesn't matter any more.
    pub(crate) fn leaf<'c>(self, bytes: &'c [u8]) -> Leaf<'c>
        requires { self.at + self.len ≤ length bytes.now }
        ensures { leaf_of result ≡ string_leaf bytes.now self }
    {
        Leaf {
            kind: LeafKind::Base(Kind::Text),
            class: self.class,
            holder: None,
            at: self.start(),
            spelled: &bytes[self.start()..self.end()],
        }
    }
}

/// The masked strings of the kept events, one event after another. They are found once, and then numbered and written
/// without a visit of the other leaves.
#[derive(Drop)]
pub(crate) struct EventStrings {
    pub(crate) strings: Vec<StringAt>,
    /// For each event, how many strings there are up to its end.
    pub(crate) ends: Vec<usize>,
}

impl EventStrings {
    /// No strings of no events. It allocates nothing.
    pub(crate) fn new(alloc: Global) -> EventStrings
        ensures strings { result.strings.items ≡ [] }
        ensures ends { result.ends.items ≡ [] }
    {
        EventStrings {
            strings: Vec::new(alloc),
            ends: Vec::new(alloc),
        }
    }

    /// The numbers of the strings of an event, from 0.
    pub(crate) fn of_event(&self, number: usize) -> Range<usize>
        ensures start { result.start ≡ start_of self.now.ends.items number }
        ensures end { result.end ≡ get_or self.now.ends.items number 0 }
    {
        let start = match number.checked_sub(1) {
            Some(before) => self.end(before),
            None => 0,
        };
        start..self.end(number)
    }

    /// How many strings there are up to the end of an event, or 0 if there is no such event.
    fn end(&self, number: usize) -> usize
        ensures { result ≡ get_or self.now.ends.items number 0 }
    {
        match self.ends.get(number) {
            Some(end) => *end,
            None => 0,
        }
    }
}
