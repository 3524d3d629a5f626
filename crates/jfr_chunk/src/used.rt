//! The classes of events.
ghost use Rattle.std.specs.Prelude.{◌≡◌, ◌||◌, ◌==◌, ℕ, false, OnOk};
ghost use Rattle.jfr_meta.specs.Stays.{is_in};
ghost use Rattle.jfr_chunk.specs.Used.{AreUsed};

use jfr_base::NoMemory;
use jfr_meta::Ids;
use std::alloc::Global;

/// The number of slots for recent ids.
const RECENT: usize = 512;

/// The ids of the classes of some events. A chunk has many events but few classes, so a cache of recent ids
/// finds most of them without a search.
#[derive(Drop)]
pub struct UsedClasses {
    ids: Ids,
    /// The slot for an id is given by its last bits. A slot holds an id of the set, or 0.
    recent: [u64; RECENT],
    ghost cached: { AreUsed ids recent },
}

impl UsedClasses {
    /// No classes. It allocates nothing.
    pub fn new(alloc: Global) -> UsedClasses
        ensures { (id : ℕ) → is_in result.ids id ≡ false }
    {
        UsedClasses {
            ids: Ids::new(alloc),
            recent: [0; RECENT],
        }
    }

    /// Removes all classes.
    pub fn clear(&mut self)
        ensures { (id : ℕ) → is_in self.new.ids id ≡ false }
    {
        self.ids.clear();
        self.recent = [0; RECENT];
    }

    /// Adds the id of a class.
    #[inline]
    pub fn add(&mut self, id: u64) -> Result<(), NoMemory>
        ensures { OnOk result ((other : ℕ) → is_in self.new.ids other ≡ (is_in self.old.ids other || (id == other))) }
    {
        let place = (id % RECENT as u64) as usize;
        if self.recent[place] == id && id != 0 {
            return Ok(());
        }
        self.ids.insert(id)?;
        self.recent[place] = id;
        Ok(())
    }

    /// The ids.
    pub fn ids(&self) -> &Ids
        ensures { result.now ≡ self.now.ids }
    {
        &self.ids
    }
}
