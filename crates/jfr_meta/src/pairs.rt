//! The attributes of an element.
ghost use Rattle.std.specs.Prelude.{◌≡◌, [], ◌∷◌, ◌++◌, length, IfOk, OnOk, OnErr, slice_get};

use jfr_base::NoMemory;
use std::alloc::Global;
use std::marker::Model;

/// A list of attributes. Each is two indices into the table of strings, of its key and of its value.
#[derive(Drop)]
pub struct Pairs {
    items: Vec<(u64, u64)>,
}

impl Model for Pairs {
    ghost use Rattle.std.specs.Prelude.{List, ℕ};

    ghost Value = { List (ℕ × ℕ) };

    ghost view = { λ pairs. pairs.items.items };
}

impl Pairs {
    /// An empty list. It allocates nothing.
    pub fn new(alloc: Global) -> Pairs
        ensures { result ≡ [] }
    {
        Pairs {
            items: Vec::new(alloc),
        }
    }

    /// An empty list with capacity for `count` attributes.
    pub fn with_capacity(alloc: Global, count: usize) -> Result<Pairs, NoMemory>
        ensures ok { IfOk result (λ pairs. pairs ≡ []) }
    {
        Ok(Pairs {
            items: Vec::with_capacity(alloc, count)?,
        })
    }

    /// Adds an attribute at the end.
    pub fn push(&mut self, key: u64, value: u64) -> Result<(), NoMemory>
        ensures ok { OnOk result (self.new ≡ self.old ++ (key, value) ∷ []) }
        ensures unchanged { OnErr result (self.new ≡ self.old) }
    {
        self.items.push((key, value))?;
        Ok(())
    }

    /// The number of attributes.
    pub fn len(&self) -> usize
        ensures { result ≡ length self.now }
    {
        self.items.len()
    }

    /// The attribute with this index, from 0, if there is one: the indices of its key and of its value.
    pub fn get(&self, at: usize) -> Option<(u64, u64)>
        ensures { result ≡ slice_get self.now at }
    {
        self.items.get(at).copied()
    }

    /// The attributes as a slice.
    pub(crate) fn as_slice(&self) -> &[(u64, u64)]
        ensures { result.now ≡ self.now }
    {
        self.items.as_slice()
    }
}
