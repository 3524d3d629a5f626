//! The classes and keys to which events refer and that have no entry in force. Most chunks have a few, such as a
//! class and the key 0.
ghost use Rattle.std.specs.Prelude.{◌≡◌, ◌∷◌, [], Contains, false, IfSome, IsTrue};
ghost use Rattle.jfr_chunk.specs.Missing.{IsNoted, Notes, pair_of};

use std::alloc::Global;

/// The largest number of classes and keys that are noted.
const MOST: usize = 32;

/// A class and a key to which an event refers and that have no entry in force.
#[derive(Clone, Copy, Debug)]
pub struct MissingRef {
    /// The class that the reference is to.
    pub class: u64,
    /// Its key.
    pub key: u64,
    /// The number of the first event that refers to them, from 0.
    pub event: usize,
}

impl MissingRef {
    /// Whether these are its class and key.
    #[inline]
    fn is_to(&self, class: u64, key: u64) -> bool
        ensures { IsTrue result → pair_of self.now ≡ (class, key) }
    {
        self.class == class && self.key == key
    }
}

/// The classes and keys without an entry in force that were found first. A hostile chunk can have millions, so
/// only a few are noted.
#[derive(Drop)]
pub(crate) struct MissingRefs {
    /// In the order in which they occur first, so that a search ends early for those that occur often.
    refs: Vec<MissingRef>,
    /// Whether some aren't noted: there are too many, or memory ran out.
    lacks: bool,
}

impl MissingRefs {
    /// An empty list. It allocates nothing.
    pub fn new(alloc: Global) -> MissingRefs
        ensures { result.refs.items ≡ [] }
    {
        MissingRefs {
            refs: Vec::new(alloc),
            lacks: false,
        }
    }

    /// Removes all, and keeps the memory.
    pub fn clear(&mut self)
        ensures { self.new.refs.items ≡ [] }
    {
        self.refs.clear();
        self.lacks = false;
    }

    /// Notes a class and a key, to which this event refers, unless they are noted already. Most are those that were
    /// noted first, so only these are looked for without a call.
    #[inline(always)]
    pub fn add(&mut self, class: u64, key: u64, event: usize)
        ensures { Notes ((class, key) ∷ []) event self.old self.new }
    {
        if !self.has_first(class, key) {
            self.add_other(class, key, event);
        }
    }

    /// As `add`, whichever are noted first.
    #[inline(never)]
    fn add_other(&mut self, class: u64, key: u64, event: usize)
        ensures { Notes ((class, key) ∷ []) event self.old self.new }
    {
        if self.lacks || self.has(class, key) {
            return;
        }
        if self.refs.len() == MOST {
            self.lacks = true;
            return;
        }
        if self.refs.push(MissingRef { class, key, event }).is_err() {
            self.lacks = true;
        }
    }

    /// Whether a class and a key are those that were noted first.
    #[inline(always)]
    fn has_first(&self, class: u64, key: u64) -> bool
        ensures { IsTrue result → IsNoted self.now.refs.items (class, key) }
    {
        match self.refs.first() {
            Some(noted) => noted.is_to(class, key),
            None => false,
        }
    }

    /// Whether a class and a key are noted.
    fn has(&self, class: u64, key: u64) -> bool
        ensures { IsTrue result → IsNoted self.now.refs.items (class, key) }
    {
        self.refs
            .as_slice()
            .iter()
            .any(|noted| noted.is_to(class, key))
    }

    /// The noted classes and keys, if none is lacking.
    pub fn all(&self) -> Option<&[MissingRef]>
        ensures { IfSome result (λ refs. (refs.now ≡ self.now.refs.items) × (self.now.lacks ≡ false)) }
    {
        if self.lacks {
            return None;
        }
        Some(self.refs.as_slice())
    }
}
