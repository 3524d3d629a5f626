//! A set of class ids.
ghost use Rattle.std.specs.Prelude.{◌≡◌, ◌||◌, ◌==◌, ℕ, false, OnOk, OnErr};
ghost use Rattle.jfr_meta.specs.Stays.{is_in};

use jfr_base::NoMemory;
use std::alloc::Global;
use std::collections::BTreeSet;

/// A set of ids of classes.
#[derive(Drop)]
pub struct Ids {
    ids: BTreeSet<u64>,
}

impl Ids {
    /// The empty set. It allocates nothing.
    pub fn new(alloc: Global) -> Ids
        ensures { (id : ℕ) → is_in result id ≡ false }
    {
        Ids {
            ids: BTreeSet::new(alloc),
        }
    }

    /// Adds an id.
    pub fn insert(&mut self, id: u64) -> Result<(), NoMemory>
        ensures ok { OnOk result ((other : ℕ) → is_in self.new other ≡ (is_in self.old other || (id == other))) }
        ensures unchanged { OnErr result ((other : ℕ) → is_in self.new other ≡ is_in self.old other) }
    {
        self.ids.insert(id)?;
        Ok(())
    }

    /// Removes all ids.
    pub fn clear(&mut self)
        ensures { (id : ℕ) → is_in self.new id ≡ false }
    {
        self.ids.clear();
    }

    /// Whether the id is in the set.
    pub fn has(&self, id: u64) -> bool
        ensures { result ≡ is_in self.now id }
    {
        self.ids.contains(&id)
    }
}
